//! What is on its way to members: datagrams that entries of the history sent.
ghost use Rattle.std.specs.Prelude.{◌≡◌, ◌+◌, ◌<◌, ◌^◌, List, ◌∷◌, [], IfSome, length, option_copied, option_map, slice_get};
ghost use Rattle.group_run.specs.Mails.{first_of, mail_in, mail_since};
ghost use Rattle.group_run.specs.Private.Kept.{IsWithin};
ghost use Rattle.group_run.specs.Private.Mailed.{datagrams_in};
ghost use Rattle.group_steps.specs.Gets.{mail_by, mail_of};

use group_model::{Answer, Asked, Entry, MemberName, Octets, SentReply};

/// Which datagrams are on their way: what entries sent from a place on, but for the first datagrams, which were taken.
#[derive(Clone, Copy, PartialEq, Eq)]
pub(crate) struct Unread {
    /// The place of an entry.
    pub(crate) place: usize,
    /// How many datagrams of it, and of the entries after it, were taken.
    pub(crate) taken: usize,
}

impl Unread {
    /// The first datagram that is on its way, and to whom; `None` exactly where none is. It goes over each entry once.
    pub(crate) fn next<'h>(&mut self, entries: &'h [Entry]) -> Option<(MemberName, &'h Octets)>
        requires { IsWithin entries.now self.old }
        ensures first { option_map (λ mail. (mail.0, mail.1.now)) result ≡ first_of (mail_since entries.now self.old.place self.old.taken) }
        ensures same { mail_since entries.now self.new.place self.new.taken ≡ mail_since entries.now self.old.place self.old.taken }
        ensures within { IsWithin entries.now self.new }
        ensures few { IfSome result (λ mail. self.new.taken + 1 < 2 ^ 64) }
    {
        while let Some(entry) = entries.get(self.place) {
            let count = mail_count(entry);
            if self.taken < count {
                return mail_at(entry, self.taken);
            }
            self.taken -= count;
            self.place += 1;
        }
        None
    }
}

/// How many datagrams an entry sent.
pub(crate) fn mail_count(entry: &Entry) -> usize
    ensures { result ≡ length (mail_in entry.now) }
{
    match &entry.asked {
        Asked::Serve { .. } => datagram_count(&entry.answer),
        Asked::Batch => reply_count(&entry.answer),
        _ => 0,
    }
}

/// The datagram at this place among all that an entry sent.
pub(crate) fn mail_at(entry: &Entry, place: usize) -> Option<(MemberName, &Octets)>
    ensures { option_map (λ mail. (mail.0, mail.1.now)) result ≡ slice_get (mail_in entry.now) place }
{
    match &entry.asked {
        Asked::Serve { member, .. } => {
            let octets = datagram_at(&entry.answer, place)?;
            Some((*member, octets))
        }
        Asked::Batch => {
            let reply = reply_at(&entry.answer, place)?;
            Some((reply.says.member, &reply.datagram))
        }
        _ => None,
    }
}

fn datagram_count(answer: &Answer) -> usize
    ensures { result ≡ length (datagrams_in answer.now) }
{
    match answer {
        Answer::Datagram { .. } => 1,
        _ => 0,
    }
}

fn reply_count(answer: &Answer) -> usize
    ensures { result ≡ length (mail_by answer.now) }
{
    match answer {
        Answer::Batched { output } => output.replies.len(),
        _ => 0,
    }
}

/// The datagram of an answer that is one, at place 0.
fn datagram_at(answer: &Answer, place: usize) -> Option<&Octets>
    ensures { option_copied result ≡ slice_get (datagrams_in answer.now) place }
{
    match answer {
        Answer::Datagram { octets, .. } => alone_at(octets, place),
        _ => None,
    }
}

/// What is alone, at place 0.
fn alone_at(octets: &Octets, place: usize) -> Option<&Octets>
    ensures { option_copied result ≡ slice_get (octets.now ∷ []) place }
{
    if place == 0 { Some(octets) } else { None }
}

/// The reply of a batch at this place.
fn reply_at(answer: &Answer, place: usize) -> Option<&SentReply>
    ensures { option_map mail_of (option_copied result) ≡ slice_get (mail_by answer.now) place }
{
    match answer {
        Answer::Batched { output } => output.replies.as_slice().get(place),
        _ => None,
    }
}
