//! A group that is lent for a request, and handed over for a block.
ghost use Rattle.std.specs.Prelude.{◌≡◌, true, Some, is_some};

use crate::block_run::run_block;
use crate::line_run::run_line;
use crate::tools::Tools;
use gd_disk::Disk;
use gd_edges::{Draws, Signer, Sink, Verifier};
use group_run::GroupRun;
use register_workers::BlockAsk;
use run_report::Stop;
use script_text::Line;
use std::alloc::Global;
use std::marker::Model;
use std::sync::Wait;
use std::thread::Threads;
use work_shares::Gate;

/// A group. It is missing only while a block is run.
#[derive(Drop)]
pub(crate) struct Held<D: Disk, G: Signer, R: Draws> {
    group: Option<GroupRun<D, G, R>>,
    ghost is_there: { is_some group ≡ true },
}

impl<D: Disk, G: Signer, R: Draws> Model for Held<D, G, R> {
    ghost use Rattle.console_run.specs.Private.Theres.{the};
    ghost use Rattle.group_run.specs.Views.{View};

    ghost Value = { View D G R };

    ghost view = { λ held. the held.group held.is_there };
}

impl<D: Disk, G: Signer, R: Draws> Held<D, G, R> {
    pub(crate) fn new(group: GroupRun<D, G, R>) -> Self
        ensures { result ≡ group }
    {
        Held { group: Some(group) }
    }

    /// The group, to be looked at.
    pub(crate) fn get(&self) -> &GroupRun<D, G, R>
        ensures { result.now ≡ self.now }
    {
        self.group.as_ref().unwrap()
    }

    /// The group.
    pub(crate) fn into_group(self) -> GroupRun<D, G, R>
        ensures { result ≡ self }
    {
        let Held { group } = self;
        group.unwrap()
    }
}

impl<D: Disk + Drop, G: Signer + Drop, R: Draws + Drop> Held<D, G, R> {
    ghost use Rattle.std.specs.Prelude.{◌+◌, ◌<◌, ◌≤◌, ℕ, [], length, OnOk};
    ghost use Rattle.console_run.specs.Private.Asks.{RunsLine};
    ghost use Rattle.console_run.specs.Private.Runs.{drawn_by};
    ghost use Rattle.console_run.specs.Scripts.{most_lines};
    ghost use Rattle.group_steps.specs.Devices.{devices};

    /// Runs a line on it, outside a block.
    pub(crate) fn run_line<V: Verifier, P: Draws, K: Sink>(
        &mut self,
        alloc: Global,
        line: Line,
        verifier: &V,
        peers: &mut P,
        out: &mut K,
    ) -> Result<(), Stop>
        requires rest { self.old.members.mail ≡ [] }
        requires place { P.place_of peers.old ≡ self.old.members.place }
        requires rules { length self.old.server.rules < most_lines }
        ensures runs { RunsLine (devices D.Disk G.Signer V.Verifier verifier.now) R.Draws (drawn_by P.Draws peers.old) line result
            self.old self.new (K.shows out.old) (K.shows out.new) }
        ensures place { OnOk result (P.place_of peers.new ≡ self.new.members.place) }
        ensures blocks { (k : ℕ) → P.block_at peers.new k ≡ P.block_at peers.old k }
        ensures rules { OnOk result (length self.new.server.rules ≤ length self.old.server.rules + 1) }
        ensures rest { OnOk result (self.new.members.mail ≡ []) }
    {
        match &mut self.group {
            Some(group) => run_line(alloc, line, group, verifier, peers, out),
            None => unreachable!(),
        }
    }
}

impl<D: Disk + Send + Drop, G: Signer + Send + Drop, R: Draws + Send + Drop> Held<D, G, R> {
    ghost use Rattle.std.specs.Prelude.{◌≤◌, ℕ, [], length, OnOk};
    ghost use Rattle.console_run.specs.Private.Asks.{RunsBlock};
    ghost use Rattle.console_run.specs.Private.Runs.{begun_by_block, by_block, drawn_by};
    ghost use Rattle.group_run.specs.Places.{AreAsked};
    ghost use Rattle.group_steps.specs.Devices.{devices};

    /// Runs a block of lines on it.
    pub(crate) fn run_block<
        T: Threads + Wait + Sync,
        V: Verifier,
        P: Draws,
        K: Sink,
        W: Gate + Sync,
    >(
        &mut self,
        tools: &Tools<'_, T, V, W>,
        asks: &[BlockAsk],
        peers: &mut P,
        out: &mut K,
    ) -> Result<(), Stop>
        requires asks { (1 ≤ length asks.now) × (length asks.now ≤ 512) }
        requires apart { AreAsked asks.now }
        requires rest { self.old.members.mail ≡ [] }
        requires place { P.place_of peers.old ≡ self.old.members.place }
        ensures runs { RunsBlock (devices D.Disk G.Signer V.Verifier tools.now.verifier.now) R.Draws (drawn_by P.Draws peers.old)
            (by_block (devices D.Disk G.Signer V.Verifier tools.now.verifier.now) tools.now.workers asks.now)
            (begun_by_block (devices D.Disk G.Signer V.Verifier tools.now.verifier.now) tools.now.workers asks.now) result self.old self.new (K.shows out.old) (K.shows out.new) }
        ensures place { OnOk result (P.place_of peers.new ≡ self.new.members.place) }
        ensures blocks { (k : ℕ) → P.block_at peers.new k ≡ P.block_at peers.old k }
        ensures rules { OnOk result (self.new.server.rules ≡ self.old.server.rules) }
        ensures rest { OnOk result (self.new.members.mail ≡ []) }
    {
        let group = self.group.take().unwrap();
        let (group, ran) = run_block(tools, group, asks, peers, out);
        put_back(&mut self.group, group);
        ran
    }
}

/// Puts a group where one is missing.
fn put_back<D: Disk + Drop, G: Signer + Drop, R: Draws + Drop>(
    place: &mut Option<GroupRun<D, G, R>>,
    group: GroupRun<D, G, R>,
)
    ensures { place.new ≡ Some group }
{
    drop(place.replace(group));
}
