//! A case: a disk, and what is said so far of the next run on it.

use crate::roll_gates::RollGate;
use crate::runs::run;
use crate::texts::{add_due, add_kept, add_run, lines_with};
use crate::trials::tried;
use case_lines::{Text, long_number, number, octets, put};
use console_run::{Ending, seed_of};
use gd_disk::MemDisk;
use gd_edges::{ChaChaDraws, TextSink, TextSource};
use group_terms::{List, NoMemory, Octets};
use std::alloc::Global;
use std::mem;
use std::sync::Wait;
use std::thread::Threads;

/// No disk has more octets.
const FARTHEST: usize = 1 << 62;

/// A case so far: a disk, and the words, the script and the gate of the next run, which calls of its source and of its sink fail, and how it may be told.
#[derive(Drop)]
pub struct Case {
    words: Vec<String>,
    script: Octets,
    source_fails: List<u64>,
    sink_fails: List<u64>,
    gate: RollGate,
    due: Vec<String>,
    /// How many batches the last run reported.
    batches: u64,
    disk: MemDisk,
}

impl Case {
    /// No word, no line, and an empty disk.
    pub fn begin(alloc: Global) -> Self {
        Case {
            words: Vec::new(alloc),
            script: List::new(alloc),
            source_fails: List::new(alloc),
            sink_fails: List::new(alloc),
            gate: RollGate::new(0, 0),
            due: Vec::new(alloc),
            batches: 0,
            disk: MemDisk::new(alloc),
        }
    }

    /// Does what a line says or asks for, and appends the answer. `None` where it asks for nothing that can be done.
    pub fn answer<T: Threads + Wait + Sync>(
        &mut self,
        rt: &T,
        alloc: Global,
        line: &str,
        text: &mut Text,
    ) -> Option<()> {
        match line.strip_prefix("> ") {
            Some(line) => self.add_line(line).ok(),
            None => self.split(rt, alloc, line, text),
        }
    }

    fn add_line(&mut self, line: &str) -> Result<(), NoMemory> {
        self.script.extend(line.as_bytes())?;
        self.script.push(b'\n')
    }

    fn split<T: Threads + Wait + Sync>(
        &mut self,
        rt: &T,
        alloc: Global,
        line: &str,
        text: &mut Text,
    ) -> Option<()> {
        let words = line.split_whitespace().collect::<Vec<_>>(alloc).ok()?;
        let answered = self.answer_words(rt, alloc, words.as_slice(), text);
        drop(words);
        answered
    }

    fn answer_words<T: Threads + Wait + Sync>(
        &mut self,
        rt: &T,
        alloc: Global,
        words: &[&str],
        text: &mut Text,
    ) -> Option<()> {
        let (word, rest) = words.split_first()?;
        match *word {
            "case" => self.begin_anew(alloc, only(rest)?, text),
            "faults" => self.plan_faults(alloc, rest),
            "disk" => self.put_image(alloc, only(rest)?),
            "source" => fill(rest, &mut self.source_fails),
            "sink" => fill(rest, &mut self.sink_fails),
            "words" => put_words(alloc, rest, &mut self.words),
            "gate" => self.make_gate(rest),
            "reached" => self.add_reached(text),
            "due" => self.add_due(alloc, only(rest)?),
            "run" => self.run(rt, alloc, only(rest)?, text),
            "crash" => self.crash(alloc, only(rest)?),
            "trial" => add_trial(rt, alloc, only(rest)?, text),
            _ => None,
        }
    }

    /// Another case.
    fn begin_anew(&mut self, alloc: Global, name: &str, text: &mut Text) -> Option<()> {
        put(self, Case::begin(alloc));
        text.add("case ");
        text.add(name);
        text.add("\n");
        Some(())
    }

    fn plan_faults(&mut self, alloc: Global, calls: &[&str]) -> Option<()> {
        let mut fails = List::new(alloc);
        let filled = fill(calls, &mut fails);
        put(&mut self.disk, MemDisk::planned(alloc, fails));
        filled
    }

    fn put_image(&mut self, alloc: Global, word: &str) -> Option<()> {
        let image = octets(alloc, word)?;
        if image.len() > FARTHEST {
            return None;
        }
        put(
            &mut self.disk,
            MemDisk::holding(alloc, List::from_vec(image)),
        );
        Some(())
    }

    fn crash(&mut self, alloc: Global, choice: &str) -> Option<()> {
        let choice = long_number(choice)?;
        let disk = mem::replace(&mut self.disk, MemDisk::new(alloc));
        put(&mut self.disk, disk.crashed(choice).ok()?);
        Some(())
    }

    fn make_gate(&mut self, words: &[&str]) -> Option<()> {
        let [calls, looks] = words else {
            return None;
        };
        let gate = RollGate::new(number(calls)?, long_number(looks)?);
        put(&mut self.gate, gate);
        Some(())
    }

    fn add_reached(&self, text: &mut Text) -> Option<()> {
        self.gate.add_to(text);
        Some(())
    }

    fn add_due(&mut self, alloc: Global, hash: &str) -> Option<()> {
        let hash = String::from_str(alloc, hash).ok()?;
        self.due.push(hash).ok()
    }

    /// Runs the console, and forgets what was said of that run.
    fn run<T: Threads + Wait + Sync>(
        &mut self,
        rt: &T,
        alloc: Global,
        detail: &str,
        text: &mut Text,
    ) -> Option<()> {
        let script = mem::replace(&mut self.script, List::new(alloc));
        let source_fails = mem::replace(&mut self.source_fails, List::new(alloc));
        let sink_fails = mem::replace(&mut self.sink_fails, List::new(alloc));
        let disk = mem::replace(&mut self.disk, MemDisk::new(alloc));
        let mut source = TextSource::new(script, source_fails);
        let mut sink = TextSink::new(alloc, sink_fails);
        let mut peers = ChaChaDraws::new(seed_of(&self.words), 1);
        let (ending, _, disk) = run(
            rt,
            alloc,
            &self.words,
            &mut source,
            &mut sink,
            disk,
            &mut peers,
            &self.gate,
        );
        let told = self.tell(alloc, detail, sink.octets(), ending, disk.image(), text);
        drop(source);
        drop(sink);
        put(&mut self.disk, disk);
        self.words.clear();
        self.due.clear();
        told
    }

    /// Tells a run in this detail.
    fn tell(
        &mut self,
        alloc: Global,
        detail: &str,
        report: &[u8],
        ending: Ending,
        journal: &[u8],
        text: &mut Text,
    ) -> Option<()> {
        let before = self.batches;
        self.batches = lines_with(report, b"epoch ");
        match detail {
            "due" => add_due(alloc, &self.due, report, ending, journal, text),
            "kept" => add_kept(alloc, report, before, text),
            _ => add_run(detail, report, ending, journal, text),
        }
    }
}

/// Whether a trial holds.
fn add_trial<T: Threads + Wait + Sync>(
    rt: &T,
    alloc: Global,
    name: &str,
    text: &mut Text,
) -> Option<()> {
    let holds = tried(rt, alloc, name)?;
    text.add("trial ");
    text.add(name);
    text.add(if holds { " holds\n" } else { " fails\n" });
    Some(())
}

/// The one word of words that have exactly one.
fn only<'a>(words: &[&'a str]) -> Option<&'a str> {
    match words {
        [only] => Some(only),
        _ => None,
    }
}

/// These numbers, in place of those of before.
fn fill(words: &[&str], numbers: &mut List<u64>) -> Option<()> {
    numbers.clear();
    for word in words {
        numbers.push(long_number(word)?).ok()?;
    }
    Some(())
}

/// These words, in place of those of before.
fn put_words(alloc: Global, words: &[&str], into: &mut Vec<String>) -> Option<()> {
    into.clear();
    for word in words {
        into.push(String::from_str(alloc, word).ok()?).ok()?;
    }
    Some(())
}
