//! Running one line of a script.
ghost use Rattle.std.specs.Prelude.{◌≡◌, ◌+◌, ◌<◌, ◌≤◌, ℕ, List, [], ◌∷◌, ◌++◌, false, true, length, Err, IfErr, MatchResult, OnOk};
ghost use Rattle.group_model.specs.Answers.{ran_out};
ghost use Rattle.group_model.specs.declared.entries.Entry.{Entry};
ghost use Rattle.group_peers.specs.Peers.{was_introduced};
ghost use Rattle.script_text.specs.Report.{entry_text};
ghost use Rattle.script_text.specs.declared.lines.Line.TheVariants as lines;
ghost use Rattle.console_run.specs.Scripts.{most_lines};
ghost use Rattle.run_report.specs.Reports.{Puts};
ghost use Rattle.group_run.specs.Stays.{RulesStay};
ghost use Rattle.console_run.specs.Private.Asks.{RunsLine};
ghost use Rattle.console_run.specs.Private.Mail.{begun_by_mail, by_mail};
ghost use Rattle.console_run.specs.Private.Reports.{EntryStops};
ghost use Rattle.group_steps.specs.Devices.{devices};
ghost use Rattle.console_run.specs.Private.Runs.{Drawing, Runs, Stops, drawn_by};

use crate::consoles::console_name;
use gd_disk::Disk;
use gd_edges::{Draws, Signer, Sink, Verifier};
use group_model::MemberName;
use group_run::GroupRun;
use group_terms::{Pattern, Rule};
use run_report::{Stop, report};
use script_text::Line;
use std::alloc::Global;

/// Runs a line on a group, outside a block, and reports what happens.
pub(crate) fn run_line<D: Disk, G: Signer, V: Verifier, R: Draws, P: Draws, K: Sink>(
    alloc: Global,
    line: Line,
    group: &mut GroupRun<D, G, R>,
    verifier: &V,
    peers: &mut P,
    out: &mut K,
) -> Result<(), Stop>
    requires rest { group.old.members.mail ≡ [] }
    requires place { P.place_of peers.old ≡ group.old.members.place }
    requires rules { length group.old.server.rules < most_lines }
    ensures runs { RunsLine (devices D.Disk G.Signer V.Verifier verifier.now) R.Draws (drawn_by P.Draws peers.old) line result
        group.old group.new (K.shows out.old) (K.shows out.new) }
    ensures place { OnOk result (P.place_of peers.new ≡ group.new.members.place) }
    ensures blocks { (k : ℕ) → P.block_at peers.new k ≡ P.block_at peers.old k }
    ensures rules { OnOk result (length group.new.server.rules ≤ length group.old.server.rules + 1) }
    ensures rest { OnOk result (group.new.members.mail ≡ []) }
{
    let asked = match line {
        Line::Nothing => return Ok(()),
        Line::Together => return Ok(()),
        Line::End => return Ok(()),
        Line::Allow { pattern } => group.add_rule(rule(true, pattern)),
        Line::Deny { pattern } => group.add_rule(rule(false, pattern)),
        Line::Join { member } => return run_join(alloc, &member, group, verifier, peers, out),
        Line::Again { member } => return run_again(alloc, &member, group, verifier, out),
        Line::Lose { member } => group.lose(&member),
        Line::Leave { member } => group.leave(&member),
        Line::Batch => return run_batch(alloc, group, verifier, out),
        Line::Deliver { member, sequence } => group.deliver(verifier, &member, sequence),
        Line::DeliverAll => return deliver_all(alloc, group, verifier, out),
        Line::Key { member } => group.key(&member),
        Line::Derive { epoch, members } => group.derive(alloc, epoch, members),
        Line::Halt => group.halt(),
        Line::Reopen => group.reopen(alloc),
        Line::Show => group.show(alloc),
        Line::Now => group.look(),
    };
    asked?;
    report_last(alloc, group, out)
}

/// A rule that allows or denies names that match.
fn rule(allow: bool, pattern: Pattern) -> Rule
    ensures { result ≡ record { allow = allow; pattern = pattern } }
{
    Rule { allow, pattern }
}

/// Runs a pull of a member, whose phase 1 SA is introduced where it was not.
fn run_join<D: Disk, G: Signer, V: Verifier, R: Draws, P: Draws, K: Sink>(
    alloc: Global,
    member: &MemberName,
    group: &mut GroupRun<D, G, R>,
    verifier: &V,
    peers: &mut P,
    out: &mut K,
) -> Result<(), Stop>
    requires rest { group.old.members.mail ≡ [] }
    requires place { P.place_of peers.old ≡ group.old.members.place }
    ensures runs { RunsLine (devices D.Disk G.Signer V.Verifier verifier.now) R.Draws (drawn_by P.Draws peers.old) (lines.Join member.now) result
        group.old group.new (K.shows out.old) (K.shows out.new) }
    ensures place { OnOk result (P.place_of peers.new ≡ group.new.members.place) }
    ensures blocks { (k : ℕ) → P.block_at peers.new k ≡ P.block_at peers.old k }
    ensures rules { OnOk result (group.new.server.rules ≡ group.old.server.rules) }
    ensures rest { OnOk result (group.new.members.mail ≡ []) }
{
    if group.was_introduced(member) {
        return run_pull(alloc, member, group, verifier, peers, out);
    }
    group.introduce(peers, member)?;
    report_last(alloc, group, out)?;
    if !group.was_introduced(member) {
        return Ok(());
    }
    group.pull(alloc, peers, member, &console_name())?;
    report_last(alloc, group, out)?;
    read_mail(alloc, group, verifier, out)
}

/// Runs a pull of a member whose phase 1 SA was introduced before.
fn run_pull<D: Disk, G: Signer, V: Verifier, R: Draws, P: Draws, K: Sink>(
    alloc: Global,
    member: &MemberName,
    group: &mut GroupRun<D, G, R>,
    verifier: &V,
    peers: &mut P,
    out: &mut K,
) -> Result<(), Stop>
    requires rest { group.old.members.mail ≡ [] }
    requires place { P.place_of peers.old ≡ group.old.members.place }
    requires introduced { was_introduced group.old.members.all member.now ≡ true }
    ensures runs { RunsLine (devices D.Disk G.Signer V.Verifier verifier.now) R.Draws (drawn_by P.Draws peers.old) (lines.Join member.now) result
        group.old group.new (K.shows out.old) (K.shows out.new) }
    ensures place { OnOk result (P.place_of peers.new ≡ group.new.members.place) }
    ensures blocks { (k : ℕ) → P.block_at peers.new k ≡ P.block_at peers.old k }
    ensures rules { OnOk result (group.new.server.rules ≡ group.old.server.rules) }
    ensures rest { OnOk result (group.new.members.mail ≡ []) }
{
    group.pull(alloc, peers, member, &console_name())?;
    report_last(alloc, group, out)?;
    read_mail(alloc, group, verifier, out)
}

/// Lets a member send its last datagram again.
fn run_again<D: Disk, G: Signer, V: Verifier, R: Draws, K: Sink>(
    alloc: Global,
    member: &MemberName,
    group: &mut GroupRun<D, G, R>,
    verifier: &V,
    out: &mut K,
) -> Result<(), Stop>
    requires { group.old.members.mail ≡ [] }
    ensures runs { (peers : Drawing) → RunsLine (devices D.Disk G.Signer V.Verifier verifier.now) R.Draws peers (lines.Again member.now) result
        group.old group.new (K.shows out.old) (K.shows out.new) }
    ensures stays { OnOk result (RulesStay group.old group.new) }
    ensures rest { OnOk result (group.new.members.mail ≡ []) }
{
    group.again(alloc, member)?;
    report_last(alloc, group, out)?;
    read_mail(alloc, group, verifier, out)
}

/// Closes the batch, and its fourth messages come to the members who come in with it.
fn run_batch<D: Disk, G: Signer, V: Verifier, R: Draws, K: Sink>(
    alloc: Global,
    group: &mut GroupRun<D, G, R>,
    verifier: &V,
    out: &mut K,
) -> Result<(), Stop>
    requires { group.old.members.mail ≡ [] }
    ensures runs { (peers : Drawing) → RunsLine (devices D.Disk G.Signer V.Verifier verifier.now) R.Draws peers lines.Batch result
        group.old group.new (K.shows out.old) (K.shows out.new) }
    ensures stays { OnOk result (RulesStay group.old group.new) }
    ensures rest { OnOk result (group.new.members.mail ≡ []) }
{
    group.batch(alloc)?;
    report_last(alloc, group, out)?;
    read_mail(alloc, group, verifier, out)
}

/// Members read what is on its way to them, and what they send is served, until nothing is left.
fn read_mail<D: Disk, G: Signer, V: Verifier, R: Draws, K: Sink>(
    alloc: Global,
    group: &mut GroupRun<D, G, R>,
    verifier: &V,
    out: &mut K,
) -> Result<(), Stop>
    ensures runs { (peers : Drawing) → MatchResult result
        (λ _. Runs D.Disk R.Draws peers (by_mail (devices D.Disk G.Signer V.Verifier verifier.now)) group.old group.new (K.shows out.old) (K.shows out.new))
        (λ stop. Stops D.Disk R.Draws peers (begun_by_mail (devices D.Disk G.Signer V.Verifier verifier.now)) stop group.old group.new
        (K.shows out.old) (K.shows out.new)) }
    ensures known { result ≡ Err Stop.Line → ⊥ }
    ensures stays { OnOk result (RulesStay group.old group.new) }
    ensures rest { OnOk result (group.new.members.mail ≡ []) }
{
    'mail: while group.read_next(alloc)? {
        report_last(alloc, group, out)?;
    }
    Ok(())
}

/// Gives each present member the pushes that it missed.
fn deliver_all<D: Disk, G: Signer, V: Verifier, R: Draws, K: Sink>(
    alloc: Global,
    group: &mut GroupRun<D, G, R>,
    verifier: &V,
    out: &mut K,
) -> Result<(), Stop>
    requires { group.old.members.mail ≡ [] }
    ensures runs { (peers : Drawing) → RunsLine (devices D.Disk G.Signer V.Verifier verifier.now) R.Draws peers lines.DeliverAll result
        group.old group.new (K.shows out.old) (K.shows out.new) }
    ensures stays { OnOk result (RulesStay group.old group.new) }
    ensures rest { OnOk result (group.new.members.mail ≡ []) }
{
    if group.needs_reopen() {
        group.refuse_deliveries()?;
        return report_last(alloc, group, out);
    }
    let mut last = None;
    'deliveries: while let Some(delivery) = group.next_delivery(last) {
        group.deliver(verifier, &delivery.member, delivery.number)?;
        report_last(alloc, group, out)?;
        last = Some(delivery);
    }
    Ok(())
}

/// Reports the last entry of a group. Where memory ran out in it, the run ends.
pub(crate) fn report_last<D: Disk, G: Signer, R: Draws, K: Sink>(
    alloc: Global,
    group: &GroupRun<D, G, R>,
    out: &mut K,
) -> Result<(), Stop>
    ensures ok { OnOk result ((front : List Entry) (entry : Entry) → group.now.entries ≡ front ++ entry ∷ [] →
        Puts (K.shows out.old) (K.shows out.new) (entry_text entry) × (ran_out entry.answer ≡ false)) }
    ensures breaks { IfErr result (λ stop. (front : List Entry) (entry : Entry) → group.now.entries ≡ front ++ entry ∷ [] →
        EntryStops stop (K.shows out.old) (K.shows out.new) entry) }
{
    let Some(entry) = group.last() else {
        return Ok(());
    };
    report(alloc, entry, out)?;
    if entry.answer.ran_out() {
        return Err(Stop::Memory);
    }
    Ok(())
}
