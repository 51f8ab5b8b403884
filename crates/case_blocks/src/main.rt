//! Runs blocks of lines at one key server, by workers. Each line of standard input is answered by a line.
//!
//! ```text
//! group DEPTH SEED COUNT CALL .. a group on an empty disk that fails at these of its calls, with draws of a seed, where everybody may join; so many
//!                                members are introduced, of the numbers from 1 on
//! block WORKERS LINE ..          runs these lines by so many workers
//! mixed WORKERS LINE ..          the same, of which only that is told that no order of turns changes: how the batches ended
//! meet WORKERS LOOKS LINE ..     the same with a gate at which the first line waits for the second one, for so many looks: whether they met
//! crash CHOICE                   crashes the disk, and opens the group again: `kept` where each batch that was answered is there, and at most one more
//! ```
//!
//! A line is `joinA` or `joinA-B` (those numbers join), `loseA` (joins, and what comes first goes missing), `againA` (sends again), `leaveA`, `leaveA-B`, `batch` or
//! `now`. The answer to a block tells how many turns there were and how they were answered, how many lines looked, and whether memory was short. A number outside
//! its limits counts as the nearest one within. `bench/block_lines.py` makes the lines, and the answers that are due.
#![tactic(auto)]

ghost use Rattle.std.specs.Prelude.{◌≤◌, IfSome};
ghost use Rattle.std.specs.Thread.{IsSync};

use case_lines::{Cases, Text, answer_all, long_number, number, put};
use counts::{show_batches, show_turns};
use group_model::Entry;
use group_terms::NoMemory;
use rooms::{Ran, Room};
use sites::Site;
use std::alloc::Global;
use std::io;
use std::sync::Wait;
use std::thread::Threads;
use work_shares::{Gate, MeetGate, OpenGate};

mod asks;
mod counts;
mod crashes;
mod groups;
mod members;
mod rooms;
mod sites;

fn main(rt: HostRuntime) -> io::Result<()> {
    answer_all(
        &rt,
        Case {
            threads: &rt,
            room: None,
        },
    )
}

/// Who starts threads, and the group, if there is one.
#[derive(Drop)]
struct Case<'a, R: Threads + Wait + Sync> {
    threads: &'a R,
    room: Option<Room>,
}

impl<R: Threads + Wait + Sync> Cases for Case<'_, R> {
    // threads may share who starts them
    ghost Ready = { λ _. IsSync R.row };

    fn answer(&mut self, rt: &HostRuntime, words: &[&str], text: &mut Text) -> Option<()> {
        let (word, rest) = words.split_first()?;
        match *word {
            "group" => self.make(rt.alloc(), rest, text),
            "block" => self.block(rt.alloc(), rest, text),
            "mixed" => self.mixed(rt.alloc(), rest, text),
            "meet" => self.meet(rt.alloc(), rest, text),
            "crash" => self.crash(rt.alloc(), rest, text),
            _ => None,
        }
    }
}

impl<R: Threads + Wait + Sync> Case<'_, R> {
    /// Makes another group.
    fn make(&mut self, alloc: Global, words: &[&str], text: &mut Text) -> Option<()> {
        let room = groups::make(alloc, words)?;
        text.add(if room.is_some() {
            "made\n"
        } else {
            "refused\n"
        });
        put(&mut self.room, room);
        Some(())
    }

    /// Runs a block of lines, and tells how all its turns were answered.
    fn block(&mut self, alloc: Global, words: &[&str], text: &mut Text) -> Option<()> {
        let (workers, lines) = words.split_first()?;
        let ran = self.run(alloc, workers, lines, &OpenGate)?;
        show_turns(self.turns(ran)?, text);
        end(ran, text);
        Some(())
    }

    /// Runs a block of lines, and tells how its batches were answered.
    fn mixed(&mut self, alloc: Global, words: &[&str], text: &mut Text) -> Option<()> {
        let (workers, lines) = words.split_first()?;
        let ran = self.run(alloc, workers, lines, &OpenGate)?;
        show_batches(self.turns(ran)?, text);
        end(ran, text);
        Some(())
    }

    /// Runs a block of lines with a gate, and tells whether the first line and the second one met there.
    fn meet(&mut self, alloc: Global, words: &[&str], text: &mut Text) -> Option<()> {
        let [workers, looks, lines @ ..] = words else {
            return None;
        };
        let gate = MeetGate::new(long_number(looks)?);
        let ran = self.run(alloc, workers, lines, &gate)?;
        text.add(if gate.met() { "met" } else { "apart" });
        end(ran, text);
        Some(())
    }

    /// Runs a block of lines.
    fn run<W: Gate + Sync>(
        &mut self,
        alloc: Global,
        workers: &str,
        lines: &[&str],
        gate: &W,
    ) -> Option<Ran> {
        let workers = workers_of(workers)?;
        match &mut self.room {
            Some(room) => room.run(self.threads, alloc, workers, lines, gate),
            None => None,
        }
    }

    /// The turns of a block.
    fn turns(&self, ran: Ran) -> Option<&[Entry]> {
        match &self.room {
            Some(room) => room.turns(ran.before),
            None => None,
        }
    }

    /// Crashes the disk, and opens the group from what is left.
    fn crash(&mut self, alloc: Global, words: &[&str], text: &mut Text) -> Option<()> {
        let [choice] = words else {
            return None;
        };
        let choice = long_number(choice)?;
        let site = self.leave()?;
        match crashes::crash(alloc, site, choice) {
            Ok(true) => text.add("kept\n"),
            Ok(false) => text.add("lost\n"),
            Err(NoMemory) => text.lose(),
        }
        Some(())
    }
    /// Takes the key server away from the group.
    fn leave(&mut self) -> Option<Site> {
        match &mut self.room {
            Some(room) => room.site.take(),
            None => None,
        }
    }
}

/// How many workers a word says.
fn workers_of(word: &str) -> Option<u8>
    ensures { IfSome result (λ workers. (1 ≤ workers) × (workers ≤ 16)) }
{
    let workers = number(word)?;
    Some(workers.max(1).min(16) as u8)
}

/// Tells what else came of a block.
fn end(ran: Ran, text: &mut Text) {
    text.add_named(" looked ", ran.looked);
    text.add(if ran.memory { " short\n" } else { " whole\n" });
}
