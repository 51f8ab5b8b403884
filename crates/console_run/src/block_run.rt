//! Running a block of lines.
ghost use Rattle.std.specs.Prelude.{◌≡◌, ◌≤◌, ℕ, [], drop, length, IfErr, OnOk};
ghost use Rattle.console_run.specs.Private.Asks.{RunsBlock};
ghost use Rattle.console_run.specs.Private.Reports.{EntriesStop};
ghost use Rattle.console_run.specs.Private.Runs.{begun_by_block, by_block, drawn_by};
ghost use Rattle.group_run.specs.Places.{AreAsked};
ghost use Rattle.group_steps.specs.Devices.{devices};
ghost use Rattle.run_report.specs.Reports.{Puts};
ghost use Rattle.script_text.specs.Report.{entries_text};

use crate::consoles::console_name;
use crate::tools::Tools;
use gd_disk::Disk;
use gd_edges::{Draws, Signer, Sink, Verifier};
use group_model::{Entry, NoMemory};
use group_run::GroupRun;
use register_workers::BlockAsk;
use run_report::{Stop, report};
use std::alloc::Global;
use std::sync::Wait;
use std::thread::Threads;
use work_shares::Gate;

/// Runs a block of lines on a group, and reports all that happened once it is done.
pub(crate) fn run_block<
    D: Disk + Send + Drop,
    G: Signer + Send + Drop,
    R: Draws + Send + Drop,
    T: Threads + Wait + Sync,
    V: Verifier,
    P: Draws,
    K: Sink,
    W: Gate + Sync,
>(
    tools: &Tools<'_, T, V, W>,
    group: GroupRun<D, G, R>,
    asks: &[BlockAsk],
    peers: &mut P,
    out: &mut K,
) -> (GroupRun<D, G, R>, Result<(), Stop>)
    requires asks { (1 ≤ length asks.now) × (length asks.now ≤ 512) }
    requires apart { AreAsked asks.now }
    requires rest { group.members.mail ≡ [] }
    requires place { P.place_of peers.old ≡ group.members.place }
    ensures runs { RunsBlock (devices D.Disk G.Signer V.Verifier tools.now.verifier.now) R.Draws (drawn_by P.Draws peers.old)
        (by_block (devices D.Disk G.Signer V.Verifier tools.now.verifier.now) tools.now.workers asks.now)
        (begun_by_block (devices D.Disk G.Signer V.Verifier tools.now.verifier.now) tools.now.workers asks.now) result.1 group result.0 (K.shows out.old) (K.shows out.new) }
    ensures place { OnOk result.1 (P.place_of peers.new ≡ result.0.members.place) }
    ensures blocks { (k : ℕ) → P.block_at peers.new k ≡ P.block_at peers.old k }
    ensures rules { OnOk result.1 (result.0.server.rules ≡ group.server.rules) }
    ensures rest { OnOk result.1 (result.0.members.mail ≡ []) }
{
    let first = group.history().len();
    let (group, ran) = group.block(
        tools.rt,
        tools.alloc,
        peers,
        &console_name(),
        asks,
        tools.workers,
        tools.gate,
    );
    match report_from(tools.alloc, group.history(), first, out) {
        Ok(()) => {}
        Err(stop) => return (group, Err(stop)),
    }
    match ran {
        Ok(()) => (group, Ok(())),
        Err(NoMemory) => (group, Err(Stop::Memory)),
    }
}

/// Reports the entries of a history from a place on.
fn report_from<K: Sink>(
    alloc: Global,
    history: &[Entry],
    first: usize,
    out: &mut K,
) -> Result<(), Stop>
    ensures ok { OnOk result (Puts (K.shows out.old) (K.shows out.new) (entries_text (drop first history.now))) }
    ensures stops { IfErr result (λ stop. EntriesStop stop (K.shows out.old) (K.shows out.new) (drop first history.now)) }
{
    match history.get(first..) {
        Some(entries) => report_all(alloc, entries, out),
        None => Ok(()),
    }
}

/// Reports entries one after the other.
fn report_all<K: Sink>(alloc: Global, entries: &[Entry], out: &mut K) -> Result<(), Stop>
    ensures ok { OnOk result (Puts (K.shows out.old) (K.shows out.new) (entries_text entries.now)) }
    ensures stops { IfErr result (λ stop. EntriesStop stop (K.shows out.old) (K.shows out.new) entries.now) }
{
    for entry in entries {
        report(alloc, entry, out)?;
    }
    Ok(())
}
