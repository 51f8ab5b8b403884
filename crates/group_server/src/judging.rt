//! Why a message is refused that was read without a fault.
ghost use Rattle.std.specs.Prelude.{◌≡◌};
ghost use Rattle.gcks_core.specs.Stands.{Stands};
ghost use Rattle.group_model.specs.Servers.{Server};
ghost use Rattle.server_steps.specs.Refusals.{refusal_to_first, refusal_to_third, why_pending};

use crate::refusals::names_group;
use gcks_core::Core;
use gd_disk::Disk;
use gd_edges::{Draws, Signer};
use group_model::{MemberName, Refusal};
use group_policy::{Rules, Verdict};
use pull_sessions::First;

/// The first reason that holds against a first message: another group, the policy, a change that waits.
pub(crate) fn refusal_to_first<D: Disk, G: Signer, R: Draws>(
    core: &Core<D, G, R>,
    rules: &Rules,
    member: &MemberName,
    first: &First,
) -> Option<Refusal>
    ensures { (server : Server) → Stands R.Draws core.now server →
        result ≡ refusal_to_first core.now.head.name rules.now server member.now first.now }
{
    if !names_group(first, &core.name()) {
        return Some(Refusal::WrongGroup);
    }
    match rules.judge(member) {
        Verdict::Denied { rule } => Some(Refusal::Denied { rule }),
        Verdict::Allowed { .. } => why_pending(core, member),
    }
}

/// The first reason that holds against a third message: the policy, a change that waits; and of who is no member, no room in the tree or in the batch.
pub(crate) fn refusal_to_third<D: Disk, G: Signer, R: Draws>(
    core: &Core<D, G, R>,
    rules: &Rules,
    member: &MemberName,
) -> Option<Refusal>
    ensures { (server : Server) → Stands R.Draws core.now server → result ≡ refusal_to_third rules.now server member.now }
{
    match rules.judge(member) {
        Verdict::Denied { rule } => Some(Refusal::Denied { rule }),
        Verdict::Allowed { .. } if core.is_member(member) => why_pending(core, member),
        Verdict::Allowed { .. } => core.refusal_to_join(member),
    }
}

/// A change of the member waits.
fn why_pending<D: Disk, G: Signer, R: Draws>(
    core: &Core<D, G, R>,
    member: &MemberName,
) -> Option<Refusal>
    ensures { (server : Server) → Stands R.Draws core.now server → result ≡ why_pending server member.now }
{
    if core.pending(member) {
        Some(Refusal::AlreadyPending)
    } else {
        None
    }
}
