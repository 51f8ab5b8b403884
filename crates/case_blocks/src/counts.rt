//! How the turns of a block were answered.

use case_lines::Text;
use group_model::{Answer, Asked, Entry};

/// How many turns had each kind of answer.
#[derive(Clone, Copy, Default)]
struct Tally {
    turns: u64,
    second: u64,
    fourth: u64,
    queued: u64,
    leaving: u64,
    batched: u64,
    refused: u64,
}

/// Writes down how these turns were answered.
pub fn show_turns(entries: &[Entry], text: &mut Text) {
    let mut tally = Tally::default();
    for entry in entries {
        count(&entry.answer, &mut tally);
    }
    text.add_named("turns ", tally.turns);
    text.add_named(" second ", tally.second);
    text.add_named(" fourth ", tally.fourth);
    text.add_named(" queued ", tally.queued);
    text.add_named(" leaving ", tally.leaving);
    text.add_named(" batched ", tally.batched);
    text.add_named(" refused ", tally.refused);
}

fn count(answer: &Answer, tally: &mut Tally) {
    let place = match answer {
        Answer::Datagram { names: None, .. } => &mut tally.second,
        Answer::Datagram { .. } => &mut tally.fourth,
        Answer::Queued => &mut tally.queued,
        Answer::Done => &mut tally.leaving,
        Answer::Batched { .. } => &mut tally.batched,
        _ => &mut tally.refused,
    };
    *place = place.saturating_add(1);
    tally.turns = tally.turns.saturating_add(1);
}

/// Writes down how the batches among these turns were answered.
pub fn show_batches(entries: &[Entry], text: &mut Text) {
    let mut batched = 0u64;
    let mut refused = 0u64;
    for entry in entries {
        if matches!(entry.asked, Asked::Batch) {
            match entry.answer {
                Answer::Batched { .. } => batched = batched.saturating_add(1),
                _ => refused = refused.saturating_add(1),
            }
        }
    }
    text.add_named("batched ", batched);
    text.add_named(" refused ", refused);
}

/// The epoch of the last batch that was answered, or 0.
pub fn acknowledged(entries: &[Entry]) -> u32 {
    let mut epoch = 0;
    for entry in entries {
        if let Answer::Batched { output } = &entry.answer {
            epoch = output.epoch;
        }
    }
    epoch
}
