//! Asks single rooms of the server: its frames and its journals; the core of a group and the stores of members; and its boards and desks. Each line of
//! standard input asks one room for one thing, and says so by its first word; `frames`, `journals`, `groups`, `stores`, `repeats` and `threads` say which
//! lines are theirs, and what each answers. An answer is one line. Its numbers, and its octets, which are in hexadecimal, have a space before each, and `-`
//! is no octets. What is refused is answered by the refusal.
#![tactic(auto)]

ghost use Rattle.std.specs.Thread.{IsSync};

use case_lines::{Cases, Text, answer_all};
use frames::Known;
use gd_disk::MemDisk;
use group_terms::NoMemory;
use groups::GroupCase;
use std::io;
use std::io::ErrorKind;
use std::sync::Wait;
use std::thread::Threads;
use stores::Stores;
use threads::{looks, turns};

mod frames;
mod groups;
mod journals;
mod repeats;
mod stores;
mod threads;

fn main(rt: HostRuntime) -> io::Result<()> {
    match Stores::new(rt.alloc()) {
        Ok(stores) => answer_all(
            &rt,
            Rooms {
                threads: &rt,
                known: None,
                group: GroupCase::new(MemDisk::new(rt.alloc()), 0),
                stores,
            },
        ),
        Err(NoMemory) => Err(ErrorKind::OutOfMemory.into()),
    }
}

/// The rooms: who starts threads, what is known of pushes and pulls, and the group and the stores of their cases. No journal, board or desk depends on the
/// lines before it.
#[derive(Drop)]
struct Rooms<'a, R: Threads + Wait + Sync> {
    threads: &'a R,
    known: Option<Known>,
    group: GroupCase,
    stores: Stores,
}

impl<R: Threads + Wait + Sync> Cases for Rooms<'_, R> {
    // threads may share who starts them
    ghost Ready = { λ _. IsSync R.row };

    fn answer(&mut self, rt: &HostRuntime, words: &[&str], text: &mut Text) -> Option<()> {
        let (word, rest) = words.split_first()?;
        let answered = match *word {
            "core" => self.group.answer(rt, rest, text),
            "store" => self.stores.answer(rt.alloc(), rest, text),
            "looks" => looks(self.threads, rt.alloc(), rest, text),
            "turns" => turns(self.threads, rt.alloc(), rest, text),
            word => ask(rt, &mut self.known, word, rest, text),
        };
        text.add("\n");
        answered
    }
}

/// What is asked where no line before matters but the one that says what is known.
fn ask(
    rt: &HostRuntime,
    known: &mut Option<Known>,
    word: &str,
    rest: &[&str],
    text: &mut Text,
) -> Option<()> {
    match word {
        "known" => know(known, rest, text),
        "repeat" => repeats::repeat(rt.alloc(), rest, text),
        "append" | "open" => journals::ask_file(rt, word, rest, text),
        "journal" | "group" => journals::ask_image(rt.alloc(), word, rest, text),
        word => frames::ask(rt.alloc(), known, word, rest, text),
    }
}

fn know(known: &mut Option<Known>, words: &[&str], text: &mut Text) -> Option<()> {
    *known = Known::read(words);
    text.add("known");
    Some(())
}
