//! What a history gave its members to hold, and what it sent.
ghost use Rattle.std.specs.Prelude.{◌≡◌, [], ◌++◌, IfOk, OnOk};
ghost use Rattle.std.specs.List.{flat_map};
ghost use Rattle.group_model.specs.declared.entries.SentReply.{SentReply};
ghost use Rattle.group_model.specs.Derivations.{names_to, held_names, reply_in, replies_in};
ghost use Rattle.group_model.specs.Derivations.{told_pairs, reply_pairs, pairs_resent, pairs_in, pairs_sent};
ghost use Rattle.sym_closure.specs.Firsts.{AreFirsts, HasSame};
ghost use Rattle.sym_closure.specs.Private.Gains.{Gains};

use crate::once::Once;
use group_model::{
    Answer, Entry, KeyName, List, MemberName, NoMemory, PushPair, SentReply, SymReply, Wrap,
};
use std::alloc::Global;

/// What some members hold after a history, each key once: their phase 1 keys (RFC 6407 section 2) in the order asked, and then
/// the keys of each reply that was sent to one of them, in the order of sending.
pub fn held(
    alloc: Global,
    history: &[Entry],
    members: &[MemberName],
) -> Result<List<KeyName>, NoMemory>
    ensures names { IfOk result (λ names. AreFirsts [] (held_names history.now members.now) names) }
    ensures same { IfOk result (λ names. HasSame (held_names history.now members.now) names) }
{
    let mut names = Once::new(alloc);
    for member in members {
        names.add(KeyName::Phase { member: *member })?;
    }
    for entry in history {
        add_told(&mut names, &entry.answer, members)?;
    }
    Ok(names.into_list())
}

/// The pairs that a history sent, each once, in the order in which they were sent first: those of the pushes (RFC 6407 section 4)
/// and, for each reply (section 3), its keys under the phase 1 key of its member.
pub fn sent_pairs(alloc: Global, history: &[Entry]) -> Result<List<Wrap>, NoMemory>
    ensures pairs { IfOk result (λ pairs. AreFirsts [] (pairs_sent history.now) pairs) }
    ensures same { IfOk result (λ pairs. HasSame (pairs_sent history.now) pairs) }
{
    let mut pairs = Once::new(alloc);
    for entry in history {
        pairs.add_all(pairs_in(alloc, &entry.answer)?.as_slice())?;
    }
    Ok(pairs.into_list())
}

/// Adds the keys that an answer told these members.
fn add_told(
    names: &mut Once<KeyName>,
    answer: &Answer,
    members: &[MemberName],
) -> Result<(), NoMemory>
    ensures { OnOk result (Gains names.old (flat_map (names_to members.now) (replies_in answer.now)) names.new) }
{
    match answer {
        Answer::Batched { output } => add_names(names, output.replies.as_slice(), members),
        Answer::Datagram { names: replied, .. } => add_replied(names, replied, members),
        _ => Ok(()),
    }
}

/// Adds the keys of the reply in a message of a pull, where there is one and it went to one of these members.
fn add_replied(
    names: &mut Once<KeyName>,
    replied: &Option<SymReply>,
    members: &[MemberName],
) -> Result<(), NoMemory>
    ensures { OnOk result (Gains names.old (flat_map (names_to members.now) (reply_in replied.now)) names.new) }
{
    match replied {
        Some(reply) => add_names_of(names, reply, members),
        None => Ok(()),
    }
}

/// Adds the keys of the replies that went to one of these members.
fn add_names(
    names: &mut Once<KeyName>,
    replies: &[SentReply],
    members: &[MemberName],
) -> Result<(), NoMemory>
    ensures { OnOk result (Gains names.old (flat_map (λ (reply : SentReply). names_to members.now reply.says) replies.now) names.new) }
{
    for reply in replies {
        add_names_of(names, &reply.says, members)?;
    }
    Ok(())
}

fn add_names_of(
    names: &mut Once<KeyName>,
    reply: &SymReply,
    members: &[MemberName],
) -> Result<(), NoMemory>
    ensures { OnOk result (Gains names.old (names_to members.now reply.now) names.new) }
{
    if members.contains(&reply.member) {
        names.add_all(reply.names.as_slice())
    } else {
        Ok(())
    }
}

/// All that an answer sent: the wraps of a batch, and then what its replies encrypt; or the pushes that an opening sent again; or
/// a message of a pull.
pub(crate) fn pairs_in(alloc: Global, answer: &Answer) -> Result<List<Wrap>, NoMemory>
    ensures { IfOk result (λ pairs. pairs ≡ pairs_in answer.now) }
{
    match answer {
        Answer::Batched { output } => {
            let mut pairs = List::copy_of(alloc, output.wraps.as_slice())?;
            add_replies(&mut pairs, output.replies.as_slice())?;
            Ok(pairs)
        }
        Answer::Opened { resent, .. } => pairs_resent(alloc, resent),
        Answer::Datagram { names: replied, .. } => pairs_replied(alloc, replied),
        _ => Ok(List::new(alloc)),
    }
}

/// What a pair of pushes that was sent again encrypts, where there is one.
fn pairs_resent(alloc: Global, resent: &Option<PushPair>) -> Result<List<Wrap>, NoMemory>
    ensures { IfOk result (λ pairs. pairs ≡ pairs_resent resent.now) }
{
    match resent {
        Some(pair) => List::copy_of(alloc, pair.wraps.as_slice()),
        None => Ok(List::new(alloc)),
    }
}

/// What the reply in a message of a pull encrypts, where there is one.
fn pairs_replied(alloc: Global, replied: &Option<SymReply>) -> Result<List<Wrap>, NoMemory>
    ensures { IfOk result (λ pairs. pairs ≡ flat_map reply_pairs (reply_in replied.now)) }
{
    match replied {
        Some(reply) => {
            let mut pairs = List::new(alloc);
            add_keys(&mut pairs, &reply.member, reply.names.as_slice())?;
            Ok(pairs)
        }
        None => Ok(List::new(alloc)),
    }
}

/// Adds what replies encrypt.
fn add_replies(pairs: &mut List<Wrap>, replies: &[SentReply]) -> Result<(), NoMemory>
    ensures { OnOk result (pairs.new ≡ pairs.old ++ flat_map (λ (reply : SentReply). reply_pairs reply.says) replies.now) }
{
    for reply in replies {
        add_keys(pairs, &reply.says.member, reply.says.names.as_slice())?;
    }
    Ok(())
}

/// Adds keys, each under the phase 1 key of a member.
fn add_keys(pairs: &mut List<Wrap>, member: &MemberName, names: &[KeyName]) -> Result<(), NoMemory>
    ensures { OnOk result (pairs.new ≡ pairs.old ++ told_pairs member.now names.now) }
{
    for name in names {
        let by = KeyName::Phase { member: *member };
        pairs.push(Wrap { by, gives: *name })?;
    }
    Ok(())
}
