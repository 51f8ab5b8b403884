//! Reading a source to its end.
ghost use Rattle.std.specs.Prelude.{◌≡◌, ◌⊎◌, [], ◌<◌, ◌≤◌, ◌^◌, ◌++◌, length, IfOk, IfErr, OnOk};
ghost use Rattle.group_terms.specs.Faults.{Rose};
ghost use Rattle.journal_listing.specs.Lists.{TakesAll};
ghost use Rattle.run_report.specs.declared.endings.Ending.TheVariants.{Source as SourceEnding, Memory};

use gd_disk::ends_too_far;
use gd_edges::{Failed, Source};
use group_terms::{List, NoMemory, Octets};
use run_report::Ending;
use std::alloc::Global;

/// How many octets the source is asked for at a time.
const PIECE: usize = 65_536;

/// All octets that a source has; or the ending where it fails, or where memory runs out.
pub(crate) fn take_all<S: Source>(alloc: Global, source: &mut S) -> Result<Octets, Ending>
    ensures all { IfOk result (TakesAll (S.shows source.old) (S.shows source.new)) }
    ensures failed { IfErr result (λ ending.
        ((ending ≡ SourceEnding) × Rose (S.shows source.old).faults (S.shows source.new).faults) ⊎ (ending ≡ Memory)) }
{
    let mut octets = List::new(alloc);
    let mut piece = vec![in alloc; 0; PIECE].map_err(|_| Ending::Memory)?;
    take_pieces(source, &mut piece, &mut octets)?;
    Ok(octets)
}

/// Puts all octets that a source has at the end of a text, in pieces of at most the buffer's length.
fn take_pieces<S: Source>(
    source: &mut S,
    buffer: &mut [u8],
    octets: &mut Octets,
) -> Result<(), Ending>
    requires buffer { 0 < length buffer.old }
    requires none { octets.old ≡ [] }
    ensures all { OnOk result (TakesAll (S.shows source.old) (S.shows source.new) octets.new) }
    ensures failed { IfErr result (λ ending.
        ((ending ≡ SourceEnding) × Rose (S.shows source.old).faults (S.shows source.new).faults) ⊎ (ending ≡ Memory)) }
{
    'pieces: loop {
        let n = match source.take(buffer) {
            Ok(n) => n,
            Err(Failed) => return Err(Ending::Source),
        };
        if n == 0 {
            return Ok(());
        }
        let (piece, _) = buffer.split_at(n);
        match append_near(octets, piece) {
            Ok(()) => {}
            Err(NoMemory) => return Err(Ending::Memory),
        }
    }
}

/// Puts octets at the end of others, where they do not end past the farthest place of a disk.
fn append_near(octets: &mut Octets, piece: &[u8]) -> Result<(), NoMemory>
    requires { length octets.old ≤ 2 ^ 62 }
    ensures all { OnOk result (octets.new ≡ octets.old ++ piece.now) }
    ensures near { OnOk result (length octets.new ≤ 2 ^ 62) }
{
    if ends_too_far(octets.len() as u64, piece) {
        return Err(NoMemory);
    }
    octets.extend(piece)
}
