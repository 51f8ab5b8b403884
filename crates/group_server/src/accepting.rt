//! Messages that are accepted (RFC 6407 section 3.2).
ghost use Rattle.std.specs.Prelude.{◌≡◌, List, IfOk, IsSome, false, true, None};
ghost use Rattle.group_terms.specs.Changes.{is_pending};
ghost use Rattle.group_terms.specs.Names.{Name};
ghost use Rattle.group_terms.specs.declared.patterns.Rule.{Rule};
ghost use Rattle.group_model.specs.Places.{is_member};
ghost use Rattle.group_model.specs.Refusals.{why_no_join};
ghost use Rattle.group_server.specs.Answers.{answer_served};
ghost use Rattle.server_steps.specs.Joining.{JoinsHaveSessions};
ghost use Rattle.group_server.specs.Private.Accepted.{AcceptsFirst, AcceptsJoin, AcceptsMember, IsFourthNow, IsSecondNow};
ghost use Rattle.pull_sessions.specs.Builds.{IsFirstFrom, IsThirdFrom};
ghost use Rattle.pull_sessions.specs.Sessions.{is_queued_of, sa_of, session_of};
ghost use Rattle.server_steps.specs.Views.{server_of};

use crate::Reply;
use crate::messages::policy_of;
use gcks_core::{Core, Keyed};
use gd_disk::Disk;
use gd_edges::{Draws, Signer};
use group_model::{MemberName, NoMemory, Octets, Refusal};
use pull_msgs::{prove_nonce_fits, prove_policies_fit};
use pull_sessions::{First, Kept, Nonce, Sessions, Third, copy_of_reply};
use server_steps::reply_says;
use std::alloc::Global;

/// A message that is sent, and the same again, which its session keeps.
#[derive(Drop)]
struct Twice {
    sent: Octets,
    kept: Octets,
}

/// A first message is accepted: the next block of the draws is the server's nonce, a session begins, in place of the member's old one, and the answer is the
/// second message. `NoMemory`.
pub(crate) fn begin_session<D: Disk, G: Signer, R: Draws>(
    alloc: Global,
    core: &mut Core<D, G, R>,
    sessions: &mut Sessions,
    member: &MemberName,
    first: First,
    datagram: &[u8],
) -> Result<Reply, Refusal>
    requires { IsFirstFrom sessions.old.sas member.now datagram.now first }
    ensures accepts { (rules : List Rule) → AcceptsFirst D.Disk G.Signer R.Draws member.now first datagram.now (answer_served result)
        (server_of core.old rules sessions.old) (server_of core.new rules sessions.new) }
    ensures sound { is_pending core.old.queue member.now ≡ false → JoinsHaveSessions core.old.queue sessions.old.sas →
        JoinsHaveSessions core.new.queue sessions.new.sas }
{
    let last = Octets::copy_of(alloc, datagram)?;
    let block = core.draw();
    let nr = nonce_from(&block);
    let second = second_message(alloc, core, sessions, member, &first, &nr)?;
    let kept = Kept::Datagram {
        octets: second.kept,
        names: None,
    };
    sessions.hold_first(member, first, nr, last, kept);
    Ok(Reply::Datagram {
        octets: second.sent,
        names: None,
    })
}

/// A block of the draws as a nonce.
fn nonce_from(block: &[u8; 16]) -> Nonce
    ensures { result ≡ block.now }
{
    Nonce::read(block).unwrap()
}

/// The second message of the session that a first message begins.
fn second_message<D: Disk, G: Signer, R: Draws>(
    alloc: Global,
    core: &Core<D, G, R>,
    sessions: &Sessions,
    member: &MemberName,
    first: &First,
    nr: &Nonce,
) -> Result<Twice, NoMemory>
    requires { IsSome (sa_of sessions.now.sas member.now) }
    ensures is { IfOk result (λ second. IsSecondNow G.Signer R.Draws core.now sessions.now.sas member.now first.now nr.now second.sent) }
    ensures same { IfOk result (λ second. second.kept ≡ second.sent) }
{
    let policy = policy_of(core);
    prove_nonce_fits(nr);
    prove_policies_fit(&policy);
    let sent = sessions.build_second(alloc, member, first, nr, &policy)?;
    let kept = Octets::copy_of(alloc, sent.as_slice())?;
    Ok(Twice { sent, kept })
}

/// A third message of a member is accepted: the answer is the fourth message, with the present keys. `NoMemory`.
pub(crate) fn reply_now<D: Disk, G: Signer, R: Draws>(
    alloc: Global,
    core: &Core<D, G, R>,
    sessions: &mut Sessions,
    member: &MemberName,
    third: Third,
    datagram: &[u8],
) -> Result<Reply, Refusal>
    requires third { IsThirdFrom sessions.old.sas member.now datagram.now third }
    requires member { is_member core.now.tree.holders member.now ≡ true }
    requires open { core.now.needs_reopen ≡ false }
    ensures accepts { (rules : List Rule) → AcceptsMember D.Disk G.Signer R.Draws member.now third datagram.now (answer_served result)
        (server_of core.now rules sessions.old) (server_of core.now rules sessions.new) }
    ensures waits { (n : Name) → is_queued_of sessions.new.sas n ≡ is_queued_of sessions.old.sas n }
{
    let last = Octets::copy_of(alloc, datagram)?;
    core.prove_at_rest();
    let keyed = core.reply(member)?;
    let fourth = fourth_message(alloc, sessions, member, &third, &keyed)?;
    let names = reply_says(alloc, member, &keyed)?;
    let again = copy_of_reply(alloc, &names)?;
    let kept = Kept::Datagram {
        octets: fourth.kept,
        names: Some(again),
    };
    sessions.hold_third(member, third, last, kept);
    Ok(Reply::Datagram {
        octets: fourth.sent,
        names: Some(names),
    })
}

/// The fourth message of a session, with these keys.
fn fourth_message(
    alloc: Global,
    sessions: &Sessions,
    member: &MemberName,
    third: &Third,
    keyed: &Keyed,
) -> Result<Twice, NoMemory>
    requires { IsSome (session_of sessions.now.sas member.now) }
    ensures is { IfOk result (λ fourth. IsFourthNow sessions.now.sas member.now third.now keyed.now fourth.sent) }
    ensures same { IfOk result (λ fourth. fourth.kept ≡ fourth.sent) }
{
    let sent = sessions.build_fourth(alloc, member, third, keyed)?;
    let kept = Octets::copy_of(alloc, sent.as_slice())?;
    Ok(Twice { sent, kept })
}

/// A third message of somebody who is no member is accepted: the join waits for the next batch, and so does the session. `NoMemory`.
pub(crate) fn queue_join<D: Disk, G: Signer, R: Draws>(
    alloc: Global,
    core: &mut Core<D, G, R>,
    sessions: &mut Sessions,
    member: &MemberName,
    third: Third,
    datagram: &[u8],
) -> Result<Reply, Refusal>
    requires third { IsThirdFrom sessions.old.sas member.now datagram.now third }
    requires stranger { is_member core.old.tree.holders member.now ≡ false }
    requires granted { why_no_join core.old.needs_reopen core.old.tree.depth core.old.tree.holders core.old.queue member.now ≡ None }
    ensures accepts { (rules : List Rule) → AcceptsJoin D.Disk G.Signer R.Draws member.now third datagram.now (answer_served result)
        (server_of core.old rules sessions.old) (server_of core.new rules sessions.new) }
    ensures sound { JoinsHaveSessions core.old.queue sessions.old.sas → JoinsHaveSessions core.new.queue sessions.new.sas }
{
    let last = Octets::copy_of(alloc, datagram)?;
    core.prove_at_rest();
    core.join(member)?;
    sessions.hold_third(member, third, last, Kept::Queued);
    Ok(Reply::Queued)
}
