//! A block of lines, which workers run side by side.
ghost use Rattle.std.specs.Prelude.{◌≡◌, ◌⊎◌, ◌≤◌, ℕ, [], All, List as Items, drop, false, length, IfOk, OnErr, OnOk};
ghost use Rattle.std.specs.List.{flat_map};
ghost use Rattle.group_peers.specs.Peers.{AreOnce};
ghost use Rattle.group_run.specs.Blocks.{Finishes, IsBlock, Point, StopsAfter, StopsShort, seen_in, taken_back};
ghost use Rattle.group_run.specs.Mails.{mail_in};
ghost use Rattle.register_workers.specs.LooksShown.{WasShown};
ghost use Rattle.group_run.specs.Private.Begun.{CanRunOn, Ends, HasEnded, HasEndedServed, HasHanded, StopsEnding, lent};
ghost use Rattle.group_run.specs.Private.Kept.{GoesToPeer};
ghost use Rattle.group_run.specs.Private.Lendings.{asks_of};
ghost use Rattle.group_terms.specs.Names.{Name};
ghost use Rattle.member_steps.specs.Members.{Members as AllMembers};
ghost use Rattle.register_workers.specs.Lines.{IsReady};
ghost use Rattle.register_workers.specs.declared.lines.BlockAsk.{BlockAsk as Ask};
ghost use Rattle.group_run.specs.Places.{AreAsked, IsServedAt, Reaches, ReachesServed, keys_of};
ghost use Rattle.server_steps.specs.Serves.{GoesOn};

use crate::GroupRun;
use crate::lefts::find_left;
use crate::lending::{hand_over, take_back};
use crate::turning::Turned;
use gd_disk::Disk;
use gd_edges::{Draws, Signer};
use group_model::{Asked, List, NoMemory};
use group_terms::GroupName;
use register_workers::{BlockAsk, BlockLine, each_line_has_its_own_turns, each_look_was_shown};
use std::alloc::Global;
use std::sync::Wait;
use std::thread::Threads;
use work_shares::Gate;

impl<D: Disk + Send + Drop, G: Signer + Send + Drop, R: Draws + Send + Drop> GroupRun<D, G, R> {
    /// Runs a block of lines, 1 to 512, in which no member is named twice: members that join are introduced, where they were not, and begin their pulls; then so
    /// many workers run the lines side by side, 1 to 16, each its own lines one after the other; then members read what came meanwhile; and at last comes what the
    /// looks at the board showed. The gate is told of each line before its first turn.
    ///
    /// Where memory runs out, the lines that have begun are ended, and the history has what was done. Then the members may have done more.
    pub fn block<P: Draws, W: Gate + Sync, T: Threads + Wait + Sync>(
        mut self,
        rt: &T,
        alloc: Global,
        draws: &mut P,
        group: &GroupName,
        asks: &[BlockAsk],
        workers: u8,
        gate: &W,
    ) -> (Self, Result<(), NoMemory>)
        requires asks { (1 ≤ length asks.now) × (length asks.now ≤ 512) }
        requires apart { AreAsked asks.now }
        requires workers { (1 ≤ workers) × (workers ≤ 16) }
        requires place { P.place_of draws.old ≡ self.members.place }
        requires rest { self.members.mail ≡ [] }
        ensures ok { OnOk result.1 (Reaches D.Disk R.Draws
            (IsBlock D.Disk G.Signer (keys_of R.Draws self (P.block_at draws.old) group.now) workers asks.now) self result.0) }
        ensures err { OnErr result.1 (ReachesServed D.Disk R.Draws
            (StopsShort D.Disk G.Signer (keys_of R.Draws self (P.block_at draws.old) group.now) workers asks.now) self result.0) }
        ensures goes_on { GoesOn R.Draws self.server result.0.server }
        ensures place { OnOk result.1 (P.place_of draws.new ≡ result.0.members.place) }
        ensures blocks { (k : ℕ) → P.block_at draws.new k ≡ P.block_at draws.old k }
        ensures rules { OnOk result.1 (result.0.server.rules ≡ self.server.rules) }
        ensures rest { OnOk result.1 (result.0.members.mail ≡ []) }
    {
        match self.begin_block(alloc, draws, group, asks) {
            Ok(lines) => self.run_lines(rt, alloc, lines, workers, gate),
            Err(short) => (self, Err(short)),
        }
    }

    /// Begins a block, and makes the lines that are handed to workers.
    fn begin_block<P: Draws>(
        &mut self,
        alloc: Global,
        draws: &mut P,
        group: &GroupName,
        asks: &[BlockAsk],
    ) -> Result<List<BlockLine>, NoMemory>
        requires asks { length asks.now ≤ 512 }
        requires apart { AreAsked asks.now }
        requires place { P.place_of draws.old ≡ self.old.members.place }
        ensures ok { IfOk result (λ lines. (workers : ℕ) → HasHanded D.Disk G.Signer R.Draws
            (keys_of R.Draws self.old (P.block_at draws.old) group.now) workers asks.now lines self.old self.new) }
        ensures few { IfOk result (λ lines. length lines ≤ 512) }
        ensures err { OnErr result ((workers : ℕ) → ReachesServed D.Disk R.Draws
            (StopsShort D.Disk G.Signer (keys_of R.Draws self.old (P.block_at draws.old) group.now) workers asks.now) self.old self.new) }
        ensures goes_on { GoesOn R.Draws self.old.server self.new.server }
        ensures place { OnOk result (P.place_of draws.new ≡ self.new.members.place) }
        ensures blocks { (k : ℕ) → P.block_at draws.new k ≡ P.block_at draws.old k }
        ensures rules { OnOk result (self.new.server.rules ≡ self.old.server.rules) }
        ensures rest { OnOk result (self.new.members.mail ≡ self.old.members.mail) }
    {
        let _ = &self.server;
        self.mark(Asked::Together {
            lines: asks.len() as u32,
        })?;
        let handed = self.begin_lines(alloc, draws, group, asks)?;
        self.members.prove_once();
        hand_over(alloc, &mut self.members, handed.as_slice())
    }

    /// Runs these lines, which were begun, and ends the block.
    fn run_lines<W: Gate + Sync, T: Threads + Wait + Sync>(
        self,
        rt: &T,
        alloc: Global,
        lines: List<BlockLine>,
        workers: u8,
        gate: &W,
    ) -> (Self, Result<(), NoMemory>)
        requires few { length lines ≤ 512 }
        requires workers { (1 ≤ workers) × (workers ≤ 16) }
        requires can { CanRunOn lines self.members }
        ensures ok { OnOk result.1 ((block : ℕ → Items ℕ) (group : Name) (asks : Items Ask) → HasEnded D.Disk R.Draws
            (Finishes D.Disk G.Signer (keys_of R.Draws self block group) workers asks) lines self result.0) }
        ensures err { OnErr result.1 ((block : ℕ → Items ℕ) (group : Name) (asks : Items Ask) → HasEndedServed D.Disk R.Draws
            (λ handed ready new. (new ≡ ready) ⊎ StopsAfter D.Disk G.Signer (keys_of R.Draws self block group) workers asks handed ready new)
            lines self result.0) }
        ensures goes_on { GoesOn R.Draws self.server result.0.server }
        ensures place { OnOk result.1 (result.0.members.place ≡ self.members.place) }
        ensures rules { OnOk result.1 (result.0.server.rules ≡ self.server.rules) }
        ensures rest { OnOk result.1 (result.0.members.mail ≡ []) }
    {
        each_line_has_its_own_turns();
        each_look_was_shown();
        let first = self.entries.items().len();
        let Turned {
            mut run,
            mut lines,
            short,
            ran,
        } = self.take_turns(rt, alloc, lines, workers, gate);
        if !ran {
            return (run, Err(NoMemory));
        }
        let ended = run.end_block(alloc, first, &mut lines, short);
        (run, ended)
    }

    /// Ends a block whose lines were run: members take back what they lent, read what came meanwhile, and what looks showed is noted.
    fn end_block(
        &mut self,
        alloc: Global,
        first: usize,
        lines: &mut List<BlockLine>,
        short: bool,
    ) -> Result<(), NoMemory>
        requires first { first ≤ length self.old.entries }
        requires ready { All IsReady lines.old }
        requires apart { AreAsked (asks_of lines.old) }
        requires rest { self.old.members.mail ≡ [] }
        requires to_peers { All (GoesToPeer self.old.members.all) (flat_map mail_in (drop first self.old.entries)) }
        requires shown { All (WasShown self.old.entries) (seen_in lines.old) }
        ensures ok { OnOk result ((before : AllMembers) (block : ℕ → Items ℕ) (group : Name) → AreOnce before.all → before.mail ≡ [] →
            self.old.members ≡ lent (asks_of lines.old) before → (ran : Point D) → IsServedAt D.Disk R.Draws self.old ran →
            (short ≡ false → ran.present ≡ taken_back lines.old (drop first self.old.entries) before) →
            Ends D.Disk G.Signer R.Draws (keys_of R.Draws self.old block group) (drop first self.old.entries) lines.old before ran self.new) }
        ensures had { OnOk result (short ≡ false) }
        ensures err { OnErr result ((before : AllMembers) (block : ℕ → Items ℕ) (group : Name) → AreOnce before.all → before.mail ≡ [] →
            self.old.members ≡ lent (asks_of lines.old) before → (ran : Point D) → IsServedAt D.Disk R.Draws self.old ran →
            (short ≡ false → ran.present ≡ taken_back lines.old (drop first self.old.entries) before) →
            StopsEnding D.Disk G.Signer R.Draws (keys_of R.Draws self.old block group) (drop first self.old.entries) lines.old before short ran self.new) }
        ensures goes_on { GoesOn R.Draws self.old.server self.new.server }
        ensures place { OnOk result (self.new.members.place ≡ self.old.members.place) }
        ensures rules { OnOk result (self.new.server.rules ≡ self.old.server.rules) }
        ensures rest { OnOk result (self.new.members.mail ≡ []) }
    {
        let lefts = find_left(alloc, &self.members, self.entries.items(), first)?;
        take_back(&mut self.members, lines);
        self.mark(Asked::Together2)?;
        if short {
            return Err(NoMemory);
        }
        self.read_all_left(alloc, lefts)?;
        self.read_the_rest(alloc)?;
        self.note_looks(lines.as_slice())
    }
}
