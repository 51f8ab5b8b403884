//! Entries of a history.
ghost use Rattle.std.specs.Prelude.{◌≡◌};
ghost use Rattle.group_model.specs.Answers.{disk_failed_by, found_by};
ghost use Rattle.server_steps.specs.Entries.{noted};
ghost use Rattle.server_steps.specs.Serves.{answer_done};

use group_model::{Answer, Asked, Entry, Outside, Refusal};

/// What was asked, and what was answered to it, where draws were at this place before.
pub fn entry(asked: Asked, answer: Answer, place: u64) -> Entry
    ensures { result ≡ noted asked answer place }
{
    let outside = Outside {
        disk_failed: disk_failed_by(&answer),
        found: found_by(&answer),
        place,
    };
    Entry {
        asked,
        outside,
        answer,
    }
}

/// The answer to a call that says no more than that it is done.
pub fn answer_done(done: Result<(), Refusal>) -> Answer
    ensures { result ≡ answer_done done }
{
    match done {
        Ok(()) => Answer::Done,
        Err(why) => Answer::Refused { why },
    }
}

/// Whether it was refused because the disk failed.
fn disk_failed_by(answer: &Answer) -> bool
    ensures { result ≡ disk_failed_by answer.now }
{
    matches!(
        answer,
        Answer::Refused {
            why: Refusal::DiskFault
        }
    )
}

/// The epoch at which an opening found the group.
fn found_by(answer: &Answer) -> Option<u32>
    ensures { result ≡ found_by answer.now }
{
    match answer {
        Answer::Opened { group, .. } => Some(group.epoch),
        _ => None,
    }
}
