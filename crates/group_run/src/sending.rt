//! The pushes that entries sent, by their numbers.
ghost use Rattle.std.specs.Prelude.{◌≡◌, ◌+◌, ◌*◌, ◌<◌, ◌≤◌, ◌^◌, true, if◌then◌else◌, List, ◌++◌, ◌∷◌, [], All, IfSome, count_by, drop, option_copied, length, take};
ghost use Rattle.std.specs.Option.{option_map};
ghost use Rattle.group_model.specs.declared.entries.Entry.{Entry};
ghost use Rattle.server_steps.specs.Sent.{SentPush, last_push, pair_by, pushes_of};
ghost use Rattle.sent_pushes.specs.Notes.{noted};
ghost use Rattle.group_run.specs.Private.Noted.{AreNoted, WereSent, push_in};
ghost use Rattle.group_run.specs.Private.Turned.{PushesFit, IsNoOpening, made_batch};

use group_model::{Answer, Entry, Octets, PushPair};
use sent_pushes::{SentPushes, a_noted_push_is_found};

/// The datagram of the last push of this number that a history sent.
pub(crate) fn last_push<'h>(
    entries: &'h [Entry],
    pushes: &SentPushes,
    number: u32,
) -> Option<&'h Octets>
    requires { AreNoted pushes.now.items entries.now }
    ensures { option_copied result ≡ option_map (λ (push : SentPush). push.datagram) (last_push entries.now number) }
{
    let entry = entries.get(pushes.find(number)?)?;
    push_of(sent_by(&entry.answer)?, number)
}

/// The pair that an answer sent: that of a batch, or that of the last one again.
fn sent_by(answer: &Answer) -> Option<&PushPair>
    ensures { option_copied result ≡ pair_by answer.now }
{
    match answer {
        Answer::Batched { output } => output.pushes.as_ref(),
        Answer::Opened { resent, .. } => resent.as_ref(),
        _ => None,
    }
}

/// The datagram of this number.
fn push_of(pair: &PushPair, number: u32) -> Option<&Octets>
    ensures { option_copied result ≡ option_map (λ (push : SentPush). push.datagram) (push_in number (pushes_of pair.now)) }
{
    if pair.first == number {
        return Some(&pair.membership);
    }
    if pair.first < number && number - 1 == pair.first {
        return Some(&pair.traffic);
    }
    None
}

/// Notes the pushes of an entry that is the next one. It takes no memory.
pub(crate) fn note_pushes(pushes: &mut SentPushes, answer: &Answer, place: usize)
    requires room { 2 ≤ pushes.old.spare }
    requires fits { IfSome (pair_by answer.now) (λ pair. pair.first + 1 < 2 ^ 32) }
    ensures noted { (entries : List Entry) (entry : Entry) → entry.answer ≡ answer.now → length entries ≡ place → AreNoted pushes.old.items entries →
        AreNoted pushes.new.items (entries ++ entry ∷ []) }
    ensures sent { (entries : List Entry) (entry : Entry) → entry.answer ≡ answer.now → length entries ≡ place → WereSent pushes.old.items entries →
        WereSent pushes.new.items (entries ++ entry ∷ []) }
    ensures spare { pushes.old.spare ≤ pushes.new.spare + 2 }
{
    a_noted_push_is_found();
    let Some(pair) = sent_by(answer) else {
        return;
    };
    note_pair(pushes, pair.first, place);
}

/// Notes the two pushes of a pair.
fn note_pair(pushes: &mut SentPushes, first: u32, place: usize)
    requires room { 2 ≤ pushes.old.spare }
    requires fits { first + 1 < 2 ^ 32 }
    ensures items { pushes.new.items ≡ noted (noted pushes.old.items first place) (first + 1) place }
    ensures spare { pushes.old.spare ≤ pushes.new.spare + 2 }
{
    pushes.note(first, place);
    pushes.note(first + 1, place);
}

/// Notes the pushes of all entries from this place on, none of which opened the group: there has to be room for two pushes of each batch. It takes
/// no memory.
pub(crate) fn note_turns(pushes: &mut SentPushes, entries: &[Entry], first: usize)
    requires room { 2 * count_by made_batch (drop first entries.now) ≤ pushes.old.spare }
    requires fits { All PushesFit (drop first entries.now) }
    requires no_opening { All IsNoOpening (drop first entries.now) }
    ensures noted { AreNoted pushes.old.items (take first entries.now) → AreNoted pushes.new.items entries.now }
    ensures sent { WereSent pushes.old.items (take first entries.now) → WereSent pushes.new.items entries.now }
{
    for place in first..entries.len() {
        note_turn(pushes, &entries[place], place);
    }
}

/// Notes the pushes of the entry at this place, which opened nothing.
fn note_turn(pushes: &mut SentPushes, entry: &Entry, place: usize)
    requires room { made_batch entry.now ≡ true → 2 ≤ pushes.old.spare }
    requires fits { PushesFit entry.now }
    requires no_opening { IsNoOpening entry.now }
    ensures noted { (entries : List Entry) → length entries ≡ place → AreNoted pushes.old.items entries →
        AreNoted pushes.new.items (entries ++ entry.now ∷ []) }
    ensures sent { (entries : List Entry) → length entries ≡ place → WereSent pushes.old.items entries →
        WereSent pushes.new.items (entries ++ entry.now ∷ []) }
    ensures spare { pushes.old.spare ≤ pushes.new.spare + (if made_batch entry.now then 2 else 0) }
{
    if let Answer::Batched { .. } = &entry.answer {
        note_pushes(pushes, &entry.answer, place);
    }
}
