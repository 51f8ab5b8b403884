//! The soak: the script that is made of a number is run as any other, and its summary is reported.
ghost use Rattle.std.specs.Prelude.{◌≡◌, ℕ, [], map, string_bytes, IsSome, Some};
ghost use Rattle.command_words.specs.Commands.{command_of};
ghost use Rattle.command_words.specs.declared.commands.Command.{Command};
ghost use Rattle.group_steps.specs.Devices.{devices, keying};
ghost use Rattle.console_run.specs.Names.{console_name};
ghost use Rattle.console_run.specs.Promises.{request_of, start_of};
ghost use Rattle.console_run.specs.Private.Follows.{RunsSoak};

use crate::consoles::run_words;
use crate::tools::Tools;
use gd_disk::Disk;
use gd_edges::{Draws, Failed, Signer, Sink, Source, TextSource, Verifier};
use group_model::{List, NoMemory, Octets};
use group_run::Parts;
use run_report::{Finished, end_soak, end_unopened};
use script_text::soak_script;
use std::alloc::Global;
use std::sync::Wait;
use std::thread::Threads;
use work_shares::Gate;

/// A text in memory, read as a source that never fails.
#[derive(Drop)]
struct SureSource {
    text: TextSource,
    ghost never_fails: { text.fails ≡ [] },
}

impl SureSource {
    fn new(alloc: Global, text: Octets) -> Self
        ensures { result.text.left ≡ text }
    {
        SureSource {
            text: TextSource::new(text, List::new(alloc)),
        }
    }
}

impl Source for SureSource {
    ghost use Rattle.std.specs.Prelude.{◌≡◌, ◌<◌, ◌≤◌, ℕ, length, take, Some, Ok, IfOk, OnOk, OnErr};
    ghost use Rattle.std.specs.Io.KnownBytes.{Consumes, Keeps, IsAtEnd};
    ghost use Rattle.group_terms.specs.Faults.{Rose};

    ghost shows = { λ source. record { octets = Some source.text.left; faults = 0 } };

    fn take(&mut self, into: &mut [u8]) -> Result<usize, Failed>
        requires { 0 < length into.old }
        ensures count { IfOk result (λ n. n ≤ length into.new) }
        ensures moved { IfOk result
            (λ n. Consumes (Some self.old.text.left) (Some self.new.text.left) (take n into.new)) }
        ensures end { result ≡ Ok 0 → IsAtEnd (Some self.old.text.left) }
        ensures failed { OnErr result (Keeps (Some self.old.text.left) (Some self.new.text.left)) }
        ensures cause { OnErr result (Rose 0 0) }
        ensures no_fault { OnOk result (◌≡◌ {A = ℕ} 0 0) }
        ensures counted { 0 ≤ 0 }
    {
        self.text.take(into)
    }
}

/// A sink that takes all octets and keeps none.
#[derive(Drop)]
struct NullSink;

impl Sink for NullSink {
    ghost use Rattle.std.specs.Prelude.{◌≡◌, ◌<◌, ◌≤◌, ℕ, None, length, take, IfOk, OnOk, OnErr};
    ghost use Rattle.std.specs.Io.KnownBytes.{Appends, Keeps};
    ghost use Rattle.group_terms.specs.Faults.{Rose};

    ghost shows = { λ sink. record { octets = None; faults = 0 } };

    fn put(&mut self, piece: &[u8]) -> Result<usize, Failed>
        requires { 0 < length piece.now }
        ensures count { IfOk result (λ n. (0 < n) × (n ≤ length piece.now)) }
        ensures appended { IfOk result (λ n. Appends None None (take n piece.now)) }
        ensures failed { OnErr result (Keeps None None) }
        ensures cause { OnErr result (Rose 0 0) }
        ensures no_fault { OnOk result (◌≡◌ {A = ℕ} 0 0) }
        ensures counted { 0 ≤ 0 }
    {
        Ok(piece.len())
    }
}

/// Runs the soak of a number, for which these words ask.
pub(crate) fn run_soak<
    T: Threads + Wait + Sync,
    K: Sink,
    D: Disk + Send + Drop,
    G: Signer + Send + Drop,
    V: Verifier,
    R: Draws + Send + Drop,
    P: Draws,
    W: Gate + Sync,
>(
    tools: &Tools<'_, T, V, W>,
    number: u64,
    words: &[String],
    out: &mut K,
    parts: Parts<D, G, R>,
    peers: &mut P,
) -> Finished<D>
    requires { IsSome (command_of (map string_bytes words.now)) }
    ensures runs { (command : Command) → command_of (map string_bytes words.now) ≡ Some command →
        RunsSoak (devices D.Disk G.Signer V.Verifier tools.now.verifier.now) (keying parts.signer (R.block_at parts.draws) (P.block_at peers.old) console_name)
        tools.now.workers number (request_of command.opening) (start_of command parts.disk (R.place_of parts.draws) (P.place_of peers.old))
        (K.shows out.old) (K.shows out.new) result.ending result.history result.disk }
    ensures blocks { (k : ℕ) → P.block_at peers.new k ≡ P.block_at peers.old k }
{
    match soak_script(tools.alloc, number) {
        Ok(text) => {
            let mut script = SureSource::new(tools.alloc, text);
            let run = run_words(tools, words, &mut script, &mut NullSink, parts, peers);
            end_soak(tools.alloc, number, run, out)
        }
        Err(NoMemory) => {
            let run = end_unopened(
                tools.alloc,
                List::new(tools.alloc),
                parts.disk,
                &mut NullSink,
            );
            end_soak(tools.alloc, number, run, out)
        }
    }
}
