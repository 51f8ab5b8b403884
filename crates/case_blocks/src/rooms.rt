//! A group, its members, and what runs blocks at it.
ghost use Rattle.std.specs.Prelude.{◌≤◌};

use crate::asks::lines;
use crate::members::Member;
use crate::sites::{Served, Site};
use case_lines::put;
use group_model::Entry;
use register_workers::{BlockAsk, BlockLine};
use std::alloc::Global;
use std::sync::Wait;
use std::thread::Threads;
use work_shares::Gate;

#[derive(Drop)]
pub struct Room {
    pub members: Vec<Member>,
    /// How many pulls began.
    pub pulls: u32,
    /// The key server, but while it runs a block.
    pub site: Option<Site>,
}

/// What a block left.
#[derive(Clone, Copy)]
pub struct Ran {
    /// How many entries there were before it.
    pub before: usize,
    /// How many lines looked.
    pub looked: u64,
    /// Whether memory was short.
    pub memory: bool,
}

impl Room {
    /// Runs a block of these lines by so many workers.
    pub fn run<R: Threads + Wait + Sync, W: Gate + Sync>(
        &mut self,
        rt: &R,
        alloc: Global,
        workers: u8,
        words: &[&str],
        gate: &W,
    ) -> Option<Ran>
        requires { (1 ≤ workers) × (workers ≤ 16) }
    {
        let lines = lines(alloc, words, self.members.as_mut_slice(), &mut self.pulls)?;
        let site = self.site.take()?;
        let before = site.count();
        let served = site.serve(rt, alloc, lines, workers, gate);
        Some(self.after(before, served))
    }

    /// Takes back what ran a block.
    fn after(&mut self, before: usize, served: Served) -> Ran {
        let Served {
            site,
            lines,
            memory,
        } = served;
        put(&mut self.site, Some(site));
        let looked = looks_in(lines.as_slice());
        for line in lines.into_vec() {
            take_back(line, self.members.as_mut_slice());
        }
        Ran {
            before,
            looked,
            memory,
        }
    }

    /// The entries from a place on.
    pub fn turns(&self, before: usize) -> Option<&[Entry]> {
        match &self.site {
            Some(site) => site.turns(before),
            None => None,
        }
    }
}

/// How many lines looked.
fn looks_in(lines: &[BlockLine]) -> u64 {
    lines.iter().filter(|line| line.seen.is_some()).count() as u64
}

/// Gives a member its pull back, and what it sent last.
fn take_back(line: BlockLine, members: &mut [Member]) {
    let BlockLine {
        asked,
        pull,
        sent,
        ..
    } = line;
    match asked {
        BlockAsk::Join { member } | BlockAsk::Again { member } => {
            for of in members.iter_mut() {
                if of.phase.member == member {
                    of.pull = pull;
                    of.sent = sent;
                    break;
                }
            }
        }
        _ => {}
    }
}
