//! The console: words, a script, and a report.
ghost use Rattle.std.specs.Prelude.{◌≡◌, ◌≤◌, ℕ, [], None, Some, false, map, string_bytes, IfOk, IfErr, IsSome};
ghost use Rattle.std.specs.Option.{option_map_or};
ghost use Rattle.command_words.specs.Commands.{IsWithin, command_of};
ghost use Rattle.group_run.specs.Openings.{FailsToOpen, Opens};
ghost use Rattle.group_model.specs.declared.entries.Asked.TheVariants.{Create};
ghost use Rattle.group_steps.specs.Devices.{Keying, devices, keying};
ghost use Rattle.group_steps.specs.Runs.{no_run, outset_of};
ghost use Rattle.server_steps.specs.Openings.{IsCreation};
ghost use Rattle.console_run.specs.Causes.{Given};
ghost use Rattle.console_run.specs.Names.{console_name};
ghost use Rattle.console_run.specs.Promises.{Promises, most_phases, reads_source, request_of, start_of, streams_of};
ghost use Rattle.console_run.specs.Private.Follows.{IsOpened, RunsKeepPromises, RunsScript};
ghost use Rattle.console_run.specs.Private.Openings.{step_of};
ghost use Rattle.console_run.specs.Private.Runs.{Start, drawn_by};

use crate::script_run::ScriptRun;
use crate::soaks::run_soak;
use crate::tools::Tools;
use command_words::{Command, Opening, read_words, take_words};
use gd_disk::Disk;
use gd_edges::{Draws, Signer, Sink, Source, Verifier};
use group_model::{Entry, List};
use group_run::{GroupRun, NewGroup, Parts, Unopened};
use group_steps::{
    a_crash_leaves_a_moment_of_the_history, a_group_grows_by_what_is_sent,
    a_history_leaves_a_valid_list, each_moment_ends_a_history, faults_are_counted,
    mail_is_of_the_group,
};
use group_terms::{GroupName, NoMemory};
use law_store_steps::{
    a_due_push_is_taken_in_a_history, a_reply_is_kept_in_a_history,
    an_own_fourth_message_is_taken_in_a_history, any_other_push_is_refused_in_a_history,
    each_store_is_one_of_the_group,
};
use rekey_plan::a_batch_encrypts_few;
use run_report::{Finished, end_script, end_unopened, end_without_group};
use std::alloc::Global;
use std::sync::Wait;
use std::thread::Threads;
use sym_closure::{a_history_serves_its_members, members_derive, no_others_derive};
use tree_store::a_file_has_one_group;
use work_shares::Gate;

/// How many phase 1 SAs may be introduced.
const MOST_PHASES: u32 = 1024;

/// The depth of the tree of a soak.
const SOAK_DEPTH: u8 = 7;

/// Runs a group (GDOI, RFC 6407) from a script, in its journal on the disk, and reports each entry of its history and then how the run ended.
///
/// The words make a group, `--new DEPTH`, or open the one of the disk, `--open`; or they ask for a soak, `--soak NUMBER`: the script that is made of the number
/// (`soak_script`) is run on a new group of depth 7, and its summary is reported, with the last line. `--limit NUMBER` says how far epochs and sequence numbers of
/// a group that is made may go; `--seed NUMBER` is for who makes the draws (`seed_of`); `--workers NUMBER` says how many workers run the lines of a block side by
/// side. Words of another form touch neither the source, the disk nor the members' draws.
///
/// The script has lines of at most 200 octets, at most 16,384 of them. A line that is not of the grammar, or may not stand where it stands, is told at its own
/// number once it is over, and a line past a limit at the first octet past it. The lines before it are run; of what comes from there on at most 4,096 octets
/// are taken.
///
/// A block, from `together` to `end`, has 1 to 512 lines out of `join`, `again`, `leave`, `batch` and `now`, and names no member twice. It is run at its end, and
/// reported once all of it is done. So nothing is run of a block that has a fault, which is told at the faulty line, nor of one without an end, which
/// is told at its `together`.
///
/// Where the source fails, the lines that came whole are run, but for those of a block that is open. Where the group is not opened, nothing of the script is
/// taken. A request that runs out of memory ends the run, but in a block whose turns have begun the other lines are still run first; where something may have been
/// done by then, it is in the history as refused for that, and else it has no entry.
///
/// What is written is the report of the history, or the summary of a soak, and the last line of the ending that was due. Where the sink fails or memory runs out,
/// it is a part of that from its start: all that the opening and the lines before the one begun last gave is reported, unless it is a soak.
///
/// `Promises` says this of the history, the report, the source, the sink and the disk. It says also which step each entry is, what a crash leaves, and whom the
/// keys serve.
pub fn console<
    T: Threads + Wait + Sync,
    S: Source,
    K: Sink,
    D: Disk + Send + Drop,
    G: Signer + Send + Drop,
    V: Verifier,
    R: Draws + Send + Drop,
    P: Draws,
    W: Gate + Sync,
>(
    rt: &T,
    alloc: Global,
    words: &[String],
    script: &mut S,
    out: &mut K,
    disk: D,
    signer: G,
    verifier: &V,
    draws: R,
    peers: &mut P,
    gate: &W,
) -> Finished<D>
    ensures run { (given : Given) × Promises (devices D.Disk G.Signer V.Verifier verifier.now)
        (keying signer (R.block_at draws) (P.block_at peers.old) console_name)
        (command_of (map string_bytes words.now))
        (streams_of given (S.shows script.old) (S.shows script.new) (K.shows out.old) (K.shows out.new))
        (R.place_of draws) (P.place_of peers.old) result.ending result.history disk result.disk }
    ensures untouched { reads_source (command_of (map string_bytes words.now)) ≡ false → script.new ≡ script.old }
    ensures undrawn { command_of (map string_bytes words.now) ≡ None → peers.new ≡ peers.old }
    ensures blocks { (k : ℕ) → P.block_at peers.new k ≡ P.block_at peers.old k }
{
    a_run_keeps_its_promises::<D, G, V>();
    let Some(command) = read_words(words) else {
        return end_without_group(alloc, disk, out);
    };
    let tools = Tools {
        rt,
        alloc,
        workers: command.workers,
        verifier,
        gate,
    };
    let parts = Parts {
        disk,
        signer,
        draws,
    };
    match command.opening {
        Opening::Soak { number } => run_soak(&tools, number, words, out, parts, peers),
        Opening::New { .. } | Opening::Open => {
            run_words(&tools, words, script, out, parts, peers)
        }
    }
}

/// What is promised of a run whose group was opened as a command asks, or could not be.
fn a_run_keeps_its_promises<D: Disk, G: Signer, V: Verifier>()
    ensures { (verifier : V) (by : Keying G) → RunsKeepPromises (devices D.Disk G.Signer V.Verifier verifier) by }
{
    a_history_leaves_a_valid_list::<D, G, V>();
    each_moment_ends_a_history::<D, G, V>();
    a_group_grows_by_what_is_sent::<D, G, V>();
    a_crash_leaves_a_moment_of_the_history::<D, G, V>();
    faults_are_counted::<D, G, V>();
    mail_is_of_the_group::<D, G, V>();
    each_store_is_one_of_the_group::<D, G, V>();
    a_reply_is_kept_in_a_history::<D, G, V>();
    an_own_fourth_message_is_taken_in_a_history::<D, G, V>();
    a_due_push_is_taken_in_a_history::<D, G, V>();
    any_other_push_is_refused_in_a_history::<D, G, V>();
    a_file_has_one_group();
    no_others_derive();
    members_derive();
    a_batch_encrypts_few();
    a_history_serves_its_members();
}

/// The number of `--seed`, for who makes the draws; 0 where that is absent, or the words are of another form.
pub fn seed_of(words: &[String]) -> u64
    ensures { result ≡ option_map_or (λ command. command.seed) (command_of (map string_bytes words.now)) 0 }
{
    match read_words(words) {
        Some(command) => command.seed,
        None => 0,
    }
}

/// Runs a script on the group that words of the grammar ask for.
pub(crate) fn run_words<
    T: Threads + Wait + Sync,
    S: Source,
    K: Sink,
    D: Disk + Send + Drop,
    G: Signer + Send + Drop,
    V: Verifier,
    R: Draws + Send + Drop,
    P: Draws,
    W: Gate + Sync,
>(
    tools: &Tools<'_, T, V, W>,
    words: &[String],
    script: &mut S,
    out: &mut K,
    parts: Parts<D, G, R>,
    peers: &mut P,
) -> Finished<D>
    requires { IsSome (command_of (map string_bytes words.now)) }
    ensures runs { (command : Command) → command_of (map string_bytes words.now) ≡ Some command →
        RunsScript (devices D.Disk G.Signer V.Verifier tools.now.verifier.now) (keying parts.signer (R.block_at parts.draws) (P.block_at peers.old) console_name)
        tools.now.workers (request_of command.opening) (start_of command parts.disk (R.place_of parts.draws) (P.place_of peers.old))
        (S.shows script.old) (S.shows script.new) (K.shows out.old) (K.shows out.new) result.ending result.history result.disk }
    ensures blocks { (k : ℕ) → P.block_at peers.new k ≡ P.block_at peers.old k }
{
    match take_words(tools.alloc, words) {
        Ok(command) => run_command(tools, command, script, out, parts, peers),
        Err(NoMemory) => end_unopened(tools.alloc, List::new(tools.alloc), parts.disk, out),
    }
}

/// Opens the group that a command asks for, and runs a script on it.
fn run_command<
    T: Threads + Wait + Sync,
    S: Source,
    K: Sink,
    D: Disk + Send + Drop,
    G: Signer + Send + Drop,
    V: Verifier,
    R: Draws + Send + Drop,
    P: Draws,
    W: Gate + Sync,
>(
    tools: &Tools<'_, T, V, W>,
    command: Command,
    script: &mut S,
    out: &mut K,
    parts: Parts<D, G, R>,
    peers: &mut P,
) -> Finished<D>
    requires { IsWithin command }
    ensures runs { RunsScript (devices D.Disk G.Signer V.Verifier tools.now.verifier.now) (keying parts.signer (R.block_at parts.draws) (P.block_at peers.old) console_name)
        tools.now.workers (request_of command.opening) (start_of command parts.disk (R.place_of parts.draws) (P.place_of peers.old))
        (S.shows script.old) (S.shows script.new) (K.shows out.old) (K.shows out.new) result.ending result.history result.disk }
    ensures blocks { (k : ℕ) → P.block_at peers.new k ≡ P.block_at peers.old k }
{
    match open_group(tools.alloc, command, parts, peers.place()) {
        Ok(group) => run_script(tools, group, script, out, peers),
        Err(Unopened { history, parts }) => { end_unopened(tools.alloc, history, parts.disk, out) }
    }
}

/// Makes a group, or opens that of the disk.
fn open_group<D: Disk, G: Signer, R: Draws>(
    alloc: Global,
    command: Command,
    parts: Parts<D, G, R>,
    members_place: u64,
) -> Result<GroupRun<D, G, R>, Unopened<D, G, R>>
    requires { IsWithin command }
    ensures ok { IfOk result (Opens D.Disk R.Draws (step_of D.Disk G.Signer parts.signer (R.block_at parts.draws) command.opening)
        (request_of command.opening) (start_of command parts.disk (R.place_of parts.draws) members_place)) }
    ensures goes_on { IfOk result (λ run. (run.server.core.signer ≡ parts.signer) × ((k : ℕ) → R.block_at run.server.core.draws k ≡ R.block_at parts.draws k)) }
    ensures begins { IfOk result (λ run. (run.server.rules ≡ []) × (run.members.mail ≡ []) × (run.members.place ≡ members_place)) }
    ensures err { IfErr result (λ unopened. FailsToOpen D.Disk (step_of D.Disk G.Signer parts.signer (R.block_at parts.draws) command.opening)
        (request_of command.opening) (start_of command parts.disk (R.place_of parts.draws) members_place) unopened.history unopened.parts.disk) }
{
    match command.opening {
        Opening::New { depth } => make_group(alloc, parts, depth, command.limit, members_place),
        Opening::Soak { .. } => make_group(alloc, parts, SOAK_DEPTH, command.limit, members_place),
        Opening::Open => GroupRun::open(alloc, parts, MOST_PHASES, members_place),
    }
}

/// Makes the console's group, of this depth and with this limit.
fn make_group<D: Disk, G: Signer, R: Draws>(
    alloc: Global,
    parts: Parts<D, G, R>,
    depth: u8,
    limit: u32,
    members_place: u64,
) -> Result<GroupRun<D, G, R>, Unopened<D, G, R>>
    requires shallow { 1 ≤ depth }
    requires not_deep { depth ≤ 9 }
    requires limited { 1 ≤ limit }
    ensures ok { IfOk result (Opens D.Disk R.Draws (IsCreation D.Disk (R.block_at parts.draws) depth) (Create depth)
        (no_run (outset_of parts.disk console_name limit (R.place_of parts.draws) members_place most_phases))) }
    ensures begins { IfOk result (λ run. (run.server.rules ≡ []) × (run.members.mail ≡ []) × (run.members.place ≡ members_place)) }
    ensures goes_on { IfOk result (λ run. (run.server.core.signer ≡ parts.signer) × ((k : ℕ) → R.block_at run.server.core.draws k ≡ R.block_at parts.draws k)) }
    ensures err { IfErr result (λ unopened. FailsToOpen D.Disk (IsCreation D.Disk (R.block_at parts.draws) depth) (Create depth)
        (no_run (outset_of parts.disk console_name limit (R.place_of parts.draws) members_place most_phases)) unopened.history unopened.parts.disk) }
{
    let group = NewGroup {
        depth,
        name: console_name(),
        limit,
    };
    GroupRun::create(alloc, parts, &group, MOST_PHASES, members_place)
}

/// The name of the console's group.
pub(crate) fn console_name() -> GroupName
    ensures { result ≡ console_name }
{
    GroupName::read(b"console").unwrap()
}

/// Runs a script on a group that was opened.
fn run_script<
    T: Threads + Wait + Sync,
    S: Source,
    K: Sink,
    D: Disk + Send + Drop,
    G: Signer + Send + Drop,
    V: Verifier,
    R: Draws + Send + Drop,
    P: Draws,
    W: Gate + Sync,
>(
    tools: &Tools<'_, T, V, W>,
    group: GroupRun<D, G, R>,
    script: &mut S,
    out: &mut K,
    peers: &mut P,
) -> Finished<D>
    requires rest { group.members.mail ≡ [] }
    requires place { P.place_of peers.old ≡ group.members.place }
    requires rules { group.server.rules ≡ [] }
    ensures runs { (start : Start D G) → start.was ≡ K.shows out.old → IsOpened (devices D.Disk G.Signer V.Verifier tools.now.verifier.now) R.Draws
        (drawn_by P.Draws peers.old) start group →
        RunsScript (devices D.Disk G.Signer V.Verifier tools.now.verifier.now) start.by tools.now.workers start.request start.run
        (S.shows script.old) (S.shows script.new) (K.shows out.old) (K.shows out.new) result.ending result.history result.disk }
    ensures blocks { (k : ℕ) → P.block_at peers.new k ≡ P.block_at peers.old k }
{
    let mut run = ScriptRun::begin(group);
    let followed = run.follow(tools, script, peers, out);
    let line = run.line_number();
    let (history, disk) = take_apart(run);
    end_script(tools.alloc, followed, line, history, disk, out)
}

/// Takes a run apart into its history and its disk.
fn take_apart<D: Disk, G: Signer + Drop, R: Draws + Drop>(
    run: ScriptRun<D, G, R>,
) -> (List<Entry>, D)
    ensures history { result.0 ≡ run.group.entries }
    ensures disk { result.1 ≡ run.group.server.core.disk }
{
    let (history, parts) = run.into_group().into_parts();
    (history, parts.disk)
}
