//! Running a script, octet by octet.
ghost use Rattle.std.specs.Prelude.{◌≡◌, ℕ, ◌+◌, ◌<◌, ◌≤◌, [], ◌∷◌, length, true, Err, IfErr, MatchResult, OnOk, None, Some};
ghost use Rattle.run_report.specs.declared.endings.Ending.TheVariants.{Whole};
ghost use Rattle.console_run.specs.Scripts.{are_octets, longest_piece, most_lines};
ghost use Rattle.console_run.specs.Private.Follows.{EndsInside, IsOpened, IsRunTo, IsRunUntil, TakesAndGoesOn, TakesAndStops, at};
ghost use Rattle.group_steps.specs.Devices.{devices};
ghost use Rattle.console_run.specs.Blocks.{after_text};
ghost use Rattle.console_run.specs.Private.Asks.{RunsLineAt};
ghost use Rattle.console_run.specs.Private.Runs.{AreFine, Ends, GoesOn, IsFine, IsPlaced, IsReady, RunsThere, Start, StopsAt, StopsAtEnd, StopsThere, StopsWithin, begun_by_text, by_text, drawn_by, open_of, room_left};

use crate::held::Held;
use crate::line_run::report_last;
use crate::open_blocks::{OpenBlock, ask_of};
use crate::tools::Tools;
use arrayvec::ArrayVec;
use gd_disk::Disk;
use gd_edges::{Draws, Failed, Signer, Sink, Source, Verifier};
use group_model::NoMemory;
use group_run::GroupRun;
use run_report::Stop;
use script_text::{Line, MOST_LINE_OCTETS, read_line};
use std::sync::Wait;
use std::thread::Threads;
use work_shares::Gate;

const MOST_LINES: u32 = 16_384;

/// How many octets the source is asked for at a time.
const PIECE: usize = 4096;

/// A run of a script: the group, the block that is open, what has come of the present line, and how many lines came before it.
#[derive(Drop)]
pub(crate) struct ScriptRun<D: Disk, G: Signer, R: Draws> {
    pub(crate) group: Held<D, G, R>,
    block: Option<OpenBlock>,
    line: ArrayVec<u8, MOST_LINE_OCTETS>,
    count: u32,
}

impl<D: Disk, G: Signer, R: Draws> ScriptRun<D, G, R> {
    /// A run before its script, with a group that was just opened.
    pub(crate) fn begin(group: GroupRun<D, G, R>) -> Self
        ensures group { result.group ≡ group }
        ensures state { result.block ≡ None }
        ensures line { result.line.items ≡ [] }
        ensures count { result.count ≡ 0 }
    {
        ScriptRun {
            group: Held::new(group),
            block: None,
            line: ArrayVec::new(),
            count: 0,
        }
    }

    /// The number of the present line, from 1.
    pub(crate) fn line_number(&self) -> u32
        requires { self.now.count ≤ most_lines }
        ensures { result ≡ self.now.count + 1 }
    {
        self.count + 1
    }

    /// The group.
    pub(crate) fn into_group(self) -> GroupRun<D, G, R>
        ensures { result ≡ self.group }
    {
        let ScriptRun {
            group,
            block: _,
            line: _,
            count: _,
        } = self;
        group.into_group()
    }
}

impl<D: Disk + Send + Drop, G: Signer + Send + Drop, R: Draws + Send + Drop> ScriptRun<D, G, R> {
    /// Runs the present line, where it stands.
    fn run_line<T: Threads + Wait + Sync, V: Verifier, P: Draws, K: Sink, W: Gate + Sync>(
        &mut self,
        tools: &Tools<'_, T, V, W>,
        peers: &mut P,
        out: &mut K,
    ) -> Result<(), Stop>
        requires ready { IsReady (at self.old (K.shows out.old) (drawn_by P.Draws peers.old)) }
        requires room { self.old.count < most_lines }
        ensures ok { OnOk result (RunsThere D.Disk R.Draws (drawn_by P.Draws peers.old)
            (by_text (devices D.Disk G.Signer V.Verifier tools.now.verifier.now) tools.now.workers (open_of self.old.block) self.old.line.items (open_of self.new.block))
            self.old.group self.new.group (K.shows out.old) (K.shows out.new)) }
        ensures stops { IfErr result (λ stop. StopsThere D.Disk R.Draws (drawn_by P.Draws peers.old)
            (begun_by_text (devices D.Disk G.Signer V.Verifier tools.now.verifier.now) tools.now.workers (open_of self.old.block) self.old.line.items) stop
            self.old.group self.new.group (K.shows out.old) (K.shows out.new)) }
        ensures faulty { result ≡ Err Stop.Line → after_text (open_of self.old.block) self.old.line.items ≡ None }
        ensures other { result ≡ Err Stop.Source → ⊥ }
        ensures placed { OnOk result (IsPlaced self.old.count self.old.block self.new.block) }
        ensures block { OnOk result (AreFine (self.old.count + 1) self.new.block) }
        ensures line { self.new.line.items ≡ self.old.line.items }
        ensures count { self.new.count ≡ self.old.count }
        ensures place { OnOk result (P.place_of peers.new ≡ self.new.group.members.place) }
        ensures blocks { (k : ℕ) → P.block_at peers.new k ≡ P.block_at peers.old k }
        ensures rules { OnOk result (length self.new.group.server.rules ≤ length self.old.group.server.rules + 1) }
        ensures rest { OnOk result (self.new.group.members.mail ≡ []) }
    {
        let Some(line) = read_line(self.line.as_slice()) else {
            return Err(Stop::Line);
        };
        match self.block.take() {
            Some(block) => { self.run_inside(tools, block, line, peers, out) }
            None => self.run_outside(tools, line, peers, out),
        }
    }

    /// Runs a line outside a block.
    fn run_outside<T, V: Verifier, P: Draws, K: Sink, W>(
        &mut self,
        tools: &Tools<'_, T, V, W>,
        line: Line,
        peers: &mut P,
        out: &mut K,
    ) -> Result<(), Stop>
        requires state { self.old.block ≡ None }
        requires room { self.old.count < most_lines }
        requires rest { self.old.group.members.mail ≡ [] }
        requires place { P.place_of peers.old ≡ self.old.group.members.place }
        requires rules { length self.old.group.server.rules < most_lines }
        ensures runs { RunsLineAt (devices D.Disk G.Signer V.Verifier tools.now.verifier.now) R.Draws (drawn_by P.Draws peers.old) tools.now.workers None line
            (open_of self.new.block) result self.old.group self.new.group (K.shows out.old) (K.shows out.new) }
        ensures placed { OnOk result (IsPlaced self.old.count None self.new.block) }
        ensures block { OnOk result (AreFine (self.old.count + 1) self.new.block) }
        ensures line { self.new.line.items ≡ self.old.line.items }
        ensures count { self.new.count ≡ self.old.count }
        ensures place { OnOk result (P.place_of peers.new ≡ self.new.group.members.place) }
        ensures blocks { (k : ℕ) → P.block_at peers.new k ≡ P.block_at peers.old k }
        ensures rules { OnOk result (length self.new.group.server.rules ≤ length self.old.group.server.rules + 1) }
        ensures rest { OnOk result (self.new.group.members.mail ≡ []) }
    {
        match line {
            Line::Together => {
                self.block = Some(OpenBlock::begin(tools.alloc, self.count));
                Ok(())
            }
            Line::End => Err(Stop::Line),
            line => self
                .group
                .run_line(tools.alloc, line, tools.verifier, peers, out),
        }
    }

    /// Takes a line into the block that is open. The line that ends it runs it.
    fn run_inside<T: Threads + Wait + Sync, V: Verifier, P: Draws, K: Sink, W: Gate + Sync>(
        &mut self,
        tools: &Tools<'_, T, V, W>,
        mut block: OpenBlock,
        line: Line,
        peers: &mut P,
        out: &mut K,
    ) -> Result<(), Stop>
        requires state { self.old.block ≡ None }
        requires block { IsFine self.old.count block }
        requires rest { self.old.group.members.mail ≡ [] }
        requires place { P.place_of peers.old ≡ self.old.group.members.place }
        ensures runs { RunsLineAt (devices D.Disk G.Signer V.Verifier tools.now.verifier.now) R.Draws (drawn_by P.Draws peers.old) tools.now.workers (Some block.asks) line
            (open_of self.new.block) result self.old.group self.new.group (K.shows out.old) (K.shows out.new) }
        ensures placed { OnOk result (IsPlaced self.old.count (Some block) self.new.block) }
        ensures block { OnOk result (AreFine (self.old.count + 1) self.new.block) }
        ensures line { self.new.line.items ≡ self.old.line.items }
        ensures count { self.new.count ≡ self.old.count }
        ensures place { OnOk result (P.place_of peers.new ≡ self.new.group.members.place) }
        ensures blocks { (k : ℕ) → P.block_at peers.new k ≡ P.block_at peers.old k }
        ensures rules { OnOk result (length self.new.group.server.rules ≤ length self.old.group.server.rules + 1) }
        ensures rest { OnOk result (self.new.group.members.mail ≡ []) }
    {
        match line {
            Line::Nothing => {
                self.block = Some(block);
                Ok(())
            }
            Line::End => {
                if block.asks.is_empty() {
                    return Err(Stop::Line);
                }
                let asks = block.asks.as_slice();
                self.group.run_block(tools, asks, peers, out)
            }
            line => {
                let Some(ask) = ask_of(&line) else {
                    return Err(Stop::Line);
                };
                match block.take(ask) {
                    Ok(()) => {
                        self.block = Some(block);
                        Ok(())
                    }
                    Err(stop) => Err(stop),
                }
            }
        }
    }

    /// Takes one octet. The line that it ends is run.
    fn take_octet<T: Threads + Wait + Sync, V: Verifier, P: Draws, K: Sink, W: Gate + Sync>(
        &mut self,
        tools: &Tools<'_, T, V, W>,
        octet: u8,
        peers: &mut P,
        out: &mut K,
    ) -> Result<(), Stop>
        requires ready { IsReady (at self.old (K.shows out.old) (drawn_by P.Draws peers.old)) }
        ensures ready { OnOk result (IsReady (at self.new (K.shows out.new) (drawn_by P.Draws peers.new))) }
        ensures goes { OnOk result (GoesOn (devices D.Disk G.Signer V.Verifier tools.now.verifier.now) R.Draws tools.now.workers (octet ∷ [])
            (at self.old (K.shows out.old) (drawn_by P.Draws peers.old)) (at self.new (K.shows out.new) (drawn_by P.Draws peers.new))) }
        ensures nearer { OnOk result (room_left (at self.new (K.shows out.new) (drawn_by P.Draws peers.new)) < room_left
            (at self.old (K.shows out.old) (drawn_by P.Draws peers.old))) }
        ensures count { self.new.count ≤ most_lines }
        ensures stops { IfErr result (λ stop. StopsAt (devices D.Disk G.Signer V.Verifier tools.now.verifier.now) R.Draws tools.now.workers octet stop
            (at self.old (K.shows out.old) (drawn_by P.Draws peers.old)) (at self.new (K.shows out.new) (drawn_by P.Draws peers.new))) }
        ensures other { result ≡ Err Stop.Source → ⊥ }
        ensures blocks { (k : ℕ) → P.block_at peers.new k ≡ P.block_at peers.old k }
    {
        if self.count == MOST_LINES {
            return Err(Stop::Line);
        }
        if octet == b'\n' {
            self.run_line(tools, peers, out)?;
            self.line.clear();
            self.count += 1;
            return Ok(());
        }
        if self.line.is_full() {
            return Err(Stop::Line);
        }
        self.line.push(octet);
        Ok(())
    }

    /// Takes a piece of the script.
    fn take_piece<T: Threads + Wait + Sync, V: Verifier, P: Draws, K: Sink, W: Gate + Sync>(
        &mut self,
        tools: &Tools<'_, T, V, W>,
        piece: &[u8],
        peers: &mut P,
        out: &mut K,
    ) -> Result<(), Stop>
        requires short { length piece.now ≤ longest_piece }
        requires ready { IsReady (at self.old (K.shows out.old) (drawn_by P.Draws peers.old)) }
        ensures ready { OnOk result (IsReady (at self.new (K.shows out.new) (drawn_by P.Draws peers.new))) }
        ensures goes { OnOk result (GoesOn (devices D.Disk G.Signer V.Verifier tools.now.verifier.now) R.Draws tools.now.workers piece.now
            (at self.old (K.shows out.old) (drawn_by P.Draws peers.old)) (at self.new (K.shows out.new) (drawn_by P.Draws peers.new))) }
        ensures nearer { OnOk result (room_left (at self.new (K.shows out.new) (drawn_by P.Draws peers.new)) + length piece.now ≤ room_left
            (at self.old (K.shows out.old) (drawn_by P.Draws peers.old))) }
        ensures count { self.new.count ≤ most_lines }
        ensures stops { IfErr result (λ stop. StopsWithin (devices D.Disk G.Signer V.Verifier tools.now.verifier.now) R.Draws tools.now.workers piece.now stop
            (at self.old (K.shows out.old) (drawn_by P.Draws peers.old)) (at self.new (K.shows out.new) (drawn_by P.Draws peers.new))) }
        ensures other { result ≡ Err Stop.Source → ⊥ }
        ensures octets { are_octets piece.now ≡ true }
        ensures blocks { (k : ℕ) → P.block_at peers.new k ≡ P.block_at peers.old k }
    {
        for octet in piece {
            self.take_octet(tools, *octet, peers, out)?;
        }
        Ok(())
    }

    /// Takes all that the source has, in pieces of at most the buffer's length.
    fn take_script<
        T: Threads + Wait + Sync,
        S: Source,
        V: Verifier,
        P: Draws,
        K: Sink,
        W: Gate + Sync,
    >(
        &mut self,
        tools: &Tools<'_, T, V, W>,
        script: &mut S,
        buffer: &mut [u8],
        peers: &mut P,
        out: &mut K,
    ) -> Result<(), Stop>
        requires buffer { 0 < length buffer.old }
        requires short { length buffer.old ≤ longest_piece }
        requires ready { IsReady (at self.old (K.shows out.old) (drawn_by P.Draws peers.old)) }
        ensures ready { OnOk result (IsReady (at self.new (K.shows out.new) (drawn_by P.Draws peers.new))) }
        ensures goes { OnOk result (TakesAndGoesOn (devices D.Disk G.Signer V.Verifier tools.now.verifier.now) R.Draws tools.now.workers
            (S.shows script.old) (S.shows script.new) (at self.old (K.shows out.old) (drawn_by P.Draws peers.old))
            (at self.new (K.shows out.new) (drawn_by P.Draws peers.new))) }
        ensures count { self.new.count ≤ most_lines }
        ensures stops { IfErr result (λ stop. TakesAndStops (devices D.Disk G.Signer V.Verifier tools.now.verifier.now) R.Draws tools.now.workers stop
            (S.shows script.old) (S.shows script.new) (at self.old (K.shows out.old) (drawn_by P.Draws peers.old))
            (at self.new (K.shows out.new) (drawn_by P.Draws peers.new))) }
        ensures blocks { (k : ℕ) → P.block_at peers.new k ≡ P.block_at peers.old k }
    {
        'pieces: loop {
            let n = match script.take(buffer) {
                Ok(n) => n,
                Err(Failed) => return Err(Stop::Source),
            };
            if n == 0 {
                return Ok(());
            }
            let (piece, _) = buffer.split_at(n);
            self.take_piece(tools, piece, peers, out)?;
        }
    }

    /// Ends the script. Where a block is open, that is told at the line that began it: the run is back there.
    fn end(&mut self) -> Result<(), Stop>
        ensures { MatchResult result (λ done. (self.old.block ≡ None) × (self.new ≡ self.old)) (λ stop. EndsInside stop self.old self.new) }
    {
        let Some(block) = &self.block else {
            return Ok(());
        };
        self.count = block.before;
        Err(Stop::Line)
    }

    /// Runs the last line, where the script ends in the middle of it.
    fn finish<T: Threads + Wait + Sync, V: Verifier, P: Draws, K: Sink, W: Gate + Sync>(
        &mut self,
        tools: &Tools<'_, T, V, W>,
        peers: &mut P,
        out: &mut K,
    ) -> Result<(), Stop>
        requires ready { IsReady (at self.old (K.shows out.old) (drawn_by P.Draws peers.old)) }
        ensures ends { OnOk result (Ends (devices D.Disk G.Signer V.Verifier tools.now.verifier.now) R.Draws tools.now.workers
            (at self.old (K.shows out.old) (drawn_by P.Draws peers.old)) (at self.new (K.shows out.new) (drawn_by P.Draws peers.new))) }
        ensures count { self.new.count ≤ most_lines }
        ensures stops { IfErr result (λ stop. StopsAtEnd (devices D.Disk G.Signer V.Verifier tools.now.verifier.now) R.Draws tools.now.workers stop
            (at self.old (K.shows out.old) (drawn_by P.Draws peers.old)) (at self.new (K.shows out.new) (drawn_by P.Draws peers.new))) }
        ensures other { result ≡ Err Stop.Source → ⊥ }
        ensures blocks { (k : ℕ) → P.block_at peers.new k ≡ P.block_at peers.old k }
    {
        if self.line.is_empty() {
            return self.end();
        }
        self.run_line(tools, peers, out)?;
        self.end()
    }

    /// Reports that the group was opened, and runs the whole script on it.
    pub(crate) fn follow<
        T: Threads + Wait + Sync,
        S: Source,
        V: Verifier,
        P: Draws,
        K: Sink,
        W: Gate + Sync,
    >(
        &mut self,
        tools: &Tools<'_, T, V, W>,
        script: &mut S,
        peers: &mut P,
        out: &mut K,
    ) -> Result<(), Stop>
        requires state { self.old.block ≡ None }
        requires line { self.old.line.items ≡ [] }
        requires count { self.old.count ≡ 0 }
        requires rest { self.old.group.members.mail ≡ [] }
        requires place { P.place_of peers.old ≡ self.old.group.members.place }
        requires rules { self.old.group.server.rules ≡ [] }
        ensures ok { OnOk result ((start : Start D G) → start.was ≡ K.shows out.old →
            IsOpened (devices D.Disk G.Signer V.Verifier tools.now.verifier.now) R.Draws (drawn_by P.Draws peers.old) start self.old.group →
            IsRunTo (devices D.Disk G.Signer V.Verifier tools.now.verifier.now) R.Draws tools.now.workers Whole start
            (S.shows script.old) (S.shows script.new) (at self.new (K.shows out.new) (drawn_by P.Draws peers.new))) }
        ensures count { self.new.count ≤ most_lines }
        ensures stops { IfErr result (λ stop. (start : Start D G) → start.was ≡ K.shows out.old →
            IsOpened (devices D.Disk G.Signer V.Verifier tools.now.verifier.now) R.Draws (drawn_by P.Draws peers.old) start self.old.group →
            IsRunUntil (devices D.Disk G.Signer V.Verifier tools.now.verifier.now) R.Draws tools.now.workers stop start
            (S.shows script.old) (S.shows script.new) (at self.new (K.shows out.new) (drawn_by P.Draws peers.new))) }
        ensures blocks { (k : ℕ) → P.block_at peers.new k ≡ P.block_at peers.old k }
    {
        report_last(tools.alloc, self.group.get(), out)?;
        let mut buffer = vec![in tools.alloc; 0; PIECE].map_err(NoMemory::from)?;
        self.take_script(tools, script, &mut buffer, peers, out)?;
        self.finish(tools, peers, out)
    }
}
