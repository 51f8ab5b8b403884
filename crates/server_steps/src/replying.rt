//! The replies of a batch, and what they make of sessions.
ghost use Rattle.std.specs.Prelude.{◌≡◌, ◌∷◌, ◌++◌, [], ℕ, List as Items, length, map, Some, IfOk, OnOk};
ghost use Rattle.group_model.specs.Replies.{reply_at};
ghost use Rattle.group_model.specs.declared.entries.SentReply.{SentReply as ReplySent};
ghost use Rattle.group_keys.specs.Replies.{IsKeyedOf};
ghost use Rattle.group_values.specs.Values.{Made, batches_made};
ghost use Rattle.pull_sessions.specs.Builds.{IsDatagram};
ghost use Rattle.pull_sessions.specs.declared.answers.Kept.TheVariants as answers;
ghost use Rattle.server_steps.specs.Fourths.{settled};
ghost use Rattle.server_steps.specs.Private.Told.{AreDatagrams, AreRepliesTo, IsDatagramTo, IsReplyTo, kept_of, node_name, says_told, settled_one};

use gcks_core::Keyed;
use group_model::{KeyName, List, MemberName, NoMemory, Octets, SentReply, SymReply};
use group_terms::PathKey;
use pull_sessions::{Kept, Sessions, copy_of_reply};
use std::alloc::Global;

/// The replies of a batch, and what their sessions keep as answers.
#[derive(Drop)]
pub(crate) struct Replies {
    pub(crate) sent: List<SentReply>,
    pub(crate) kept: List<(MemberName, Kept)>,
}

/// The replies to the members who come in with a batch, in their order. Whose session awaits the batch gets its fourth message.
pub(crate) fn make_replies(
    alloc: Global,
    told: &[(MemberName, Keyed)],
    sessions: &Sessions,
) -> Result<Replies, NoMemory>
    ensures sent { IfOk result (λ replies. AreRepliesTo sessions.now.sas told.now replies.sent) }
    ensures kept { IfOk result (λ replies. replies.kept ≡ map kept_of replies.sent) }
{
    let mut replies = Replies {
        sent: List::with_room(alloc, told.len())?,
        kept: List::with_room(alloc, told.len())?,
    };
    for (member, keyed) in told {
        add_reply(alloc, member, keyed, sessions, &mut replies)?;
    }
    Ok(replies)
}

/// Adds the reply to a member that is told these keys.
fn add_reply(
    alloc: Global,
    member: &MemberName,
    keyed: &Keyed,
    sessions: &Sessions,
    replies: &mut Replies,
) -> Result<(), NoMemory>
    ensures { OnOk result ((reply : ReplySent) × IsReplyTo sessions.now.sas (member.now, keyed.now) reply
        × (replies.new ≡ record { sent = replies.old.sent ++ reply ∷ []; kept = replies.old.kept ++ kept_of reply ∷ [] })) }
{
    let datagram = datagram_to(alloc, member, keyed, sessions)?;
    let says = names_told(alloc, member, keyed)?;
    let answer = answer_to(alloc, datagram.as_slice(), &says)?;
    replies.kept.push((says.member, answer))?;
    replies.sent.push(SentReply { says, datagram })
}

/// The datagram of a reply: the fourth message where the session of the member awaits the batch, else none.
fn datagram_to(
    alloc: Global,
    member: &MemberName,
    keyed: &Keyed,
    sessions: &Sessions,
) -> Result<Octets, NoMemory>
    ensures { IfOk result (IsDatagramTo sessions.now.sas (member.now, keyed.now)) }
{
    match sessions.held_third(member) {
        Some(third) => sessions.build_fourth(alloc, member, &third, keyed),
        None => Ok(List::new(alloc)),
    }
}

/// What the session of a member keeps as the answer: a copy of this datagram, and of what it says.
fn answer_to(alloc: Global, datagram: &[u8], says: &SymReply) -> Result<Kept, NoMemory>
    ensures { IfOk result (λ answer. answer ≡ answers.Datagram datagram.now (Some says.now)) }
{
    Ok(Kept::Datagram {
        octets: Octets::copy_of(alloc, datagram)?,
        names: Some(copy_of_reply(alloc, says)?),
    })
}

/// Gives each session that awaited the batch its answer. It takes no memory.
pub(crate) fn settle_sessions(sessions: &mut Sessions, kept: List<(MemberName, Kept)>)
    requires { AreDatagrams kept }
    ensures { (replies : Items ReplySent) → kept ≡ map kept_of replies → sessions.new ≡ settled sessions.old replies }
{
    for (member, answer) in kept.into_vec() {
        settle_session(sessions, &member, answer);
    }
}

/// Gives the session of a member this answer, if it awaits the batch.
fn settle_session(sessions: &mut Sessions, member: &MemberName, answer: Kept)
    requires { IsDatagram answer }
    ensures { sessions.new ≡ settled_one sessions.old (member.now, answer) }
{
    sessions.prove_sound();
    if sessions.held_third(member).is_some() {
        sessions.settle(member, answer);
    }
}

/// What a reply says to a member that has these keys now, by their names (RFC 6407 section 3.2).
pub fn reply_says(alloc: Global, member: &MemberName, keyed: &Keyed) -> Result<SymReply, NoMemory>
    ensures { (depth : ℕ) (spi : Items ℕ) (list : Items Made) → IsKeyedOf depth spi list member.now keyed.now →
        IfOk result (λ reply. reply ≡ reply_at depth (batches_made list) (length list) member.now) }
{
    names_told(alloc, member, keyed)
}

/// What a reply with these keys says of them, by their names.
fn names_told(alloc: Global, member: &MemberName, keyed: &Keyed) -> Result<SymReply, NoMemory>
    ensures { IfOk result (λ reply. reply ≡ says_told (member.now, keyed.now)) }
{
    let mut names = List::new(alloc);
    push_names(keyed.path.keys(), &mut names)?;
    names.push(KeyName::Traffic { made: keyed.epoch })?;
    Ok(SymReply {
        member: *member,
        keyed_epoch: keyed.epoch,
        sequence: keyed.sequence,
        names,
    })
}

/// Adds the names of the keys of a path.
fn push_names(keys: &[PathKey], names: &mut List<KeyName>) -> Result<(), NoMemory>
    ensures { OnOk result (names.new ≡ names.old ++ map node_name keys.now) }
{
    for key in keys {
        names.push(KeyName::Node {
            id: key.id,
            made: key.made,
        })?;
    }
    Ok(())
}
