//! Requests that touch neither the disk nor the draws: changes that wait, and stops.
ghost use Rattle.std.specs.Prelude.{◌≡◌};
ghost use Rattle.group_model.specs.declared.entries.Answer.TheVariants as answers;
ghost use Rattle.group_model.specs.declared.entries.Asked.TheVariants as requests;
ghost use Rattle.server_steps.specs.Serves.{ServesBeside, answer_done};
ghost use Rattle.server_steps.specs.Waiting.{queue_after_leave};

use gcks_core::Core;
use gd_disk::Disk;
use gd_edges::{Draws, Signer};
use group_model::{MemberName, Refusal};

/// Asks the server to take a member out with the next batch: `NeedsReopen`, `NotMember`, `AlreadyPending`, `BatchFull`, the first of these that holds.
pub fn leave<D: Disk, G: Signer, R: Draws>(
    core: &mut Core<D, G, R>,
    member: &MemberName,
) -> Result<(), Refusal>
    ensures serves { ServesBeside D.Disk G.Signer R.Draws (requests.Leave member.now) (answer_done result) core.old core.new }
    ensures waits { core.new.queue ≡ queue_after_leave core.old.queue member.now (answer_done result) }
{
    core.prove_at_rest();
    core.leave(member)
}

/// From now on the server answers that it has to be opened again.
pub fn halt<D: Disk, G: Signer, R: Draws>(core: &mut Core<D, G, R>)
    ensures serves { ServesBeside D.Disk G.Signer R.Draws requests.Halt answers.Done core.old core.new }
    ensures waits { core.new.queue ≡ core.old.queue }
{
    core.halt();
}
