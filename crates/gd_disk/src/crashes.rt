//! What a crash leaves of a disk in memory.
ghost use Rattle.std.specs.Prelude.{◌≡◌, ◌%◌, ◌≤◌, length, reverse, IfOk};
ghost use Rattle.gd_disk.specs.Disks.{Torn, Cut};
ghost use Rattle.gd_disk.specs.Media.{MayLeave, synced_image};
ghost use Rattle.gd_disk.specs.declared.crashes.Crash.TheVariants.{Nothing, All};
ghost use Rattle.gd_disk.specs.declared.crashes.Fate.TheVariants.{Lost};

use crate::events::Event;
use crate::octets::{lay, replace};
use group_terms::{List, NoMemory, Octets};
use rand_chacha::ChaCha8Rng;
use rand_core::{Rng, SeedableRng};
use std::alloc::Global;

/// Which part of what was not synced a crash leaves on the disk.
#[derive(Clone, Copy)]
pub(crate) enum Crash {
    Nothing,
    All,
    First,
    Halves,
    /// Each range is there, filled with this octet.
    Filled(u8),
    Last,
    /// Each range is there, with octets drawn from this seed.
    Drawn(u64),
}

/// What a crash leaves of one write or cut.
#[derive(Clone, Copy)]
pub(crate) enum Fate {
    Lost,
    Whole,
    Half,
    Filled(u8),
    Drawn(u64),
}

impl Crash {
    /// The crash of a number, of which there are eight. The last of them draws by the whole number.
    pub(crate) fn of(choice: u64) -> Self
        ensures nothing { choice % 8 ≡ 0 → result ≡ Nothing }
        ensures all { choice % 8 ≡ 1 → result ≡ All }
    {
        match choice % 8 {
            0 => Crash::Nothing,
            1 => Crash::All,
            2 => Crash::First,
            3 => Crash::Halves,
            4 => Crash::Filled(0xff),
            5 => Crash::Last,
            6 => Crash::Filled(0),
            _ => Crash::Drawn(choice),
        }
    }

    fn fate(self, is_first: bool, is_last: bool) -> Fate
        ensures { self ≡ Nothing → result ≡ Lost }
    {
        let is_whole = match self {
            Crash::Halves => return Fate::Half,
            Crash::Filled(octet) => return Fate::Filled(octet),
            Crash::Drawn(seed) => return Fate::Drawn(seed),
            Crash::Nothing => false,
            Crash::All => true,
            Crash::First => is_first,
            Crash::Last => is_last,
        };
        if is_whole { Fate::Whole } else { Fate::Lost }
    }
}

/// What a crash leaves of octets to which these events were done, the oldest first.
pub(crate) fn surviving(
    alloc: Global,
    octets: Octets,
    events: &[Event],
    crash: Crash,
) -> Result<Octets, NoMemory>
    ensures left { IfOk result (λ c. MayLeave octets (reverse events.now) c) }
    ensures nothing { crash ≡ Nothing →
        IfOk result (λ c. c ≡ synced_image octets (reverse events.now)) }
    ensures all { crash ≡ All → IfOk result (λ c. c ≡ octets) }
{
    match crash {
        Crash::All => Ok(octets),
        _ => left(alloc, octets, events, crash, true),
    }
}

/// What a crash leaves, event by event, where the last of them is the newest or others came after it.
fn left(
    alloc: Global,
    octets: Octets,
    events: &[Event],
    crash: Crash,
    is_last: bool,
) -> Result<Octets, NoMemory>
    ensures left { IfOk result (λ c. MayLeave octets (reverse events.now) c) }
    ensures nothing { crash ≡ Nothing →
        IfOk result (λ c. c ≡ synced_image octets (reverse events.now)) }
{
    let Some((event, earlier)) = events.split_last() else {
        return Ok(octets);
    };
    let fate = crash.fate(is_synced(earlier), is_last);
    match event {
        Event::Synced => Ok(octets),
        Event::Wrote {
            at,
            octets: new,
            undo,
        } => {
            let undone = replace(alloc, octets.as_slice(), *at, new.len(), undo.as_slice())?;
            let before = left(alloc, undone, earlier, crash, false)?;
            Ok(write_in_part(alloc, before, *at, new.as_slice(), fate)?)
        }
        Event::Shortened { to, undo } => {
            let mut undone = octets;
            undone.extend(undo.as_slice())?;
            let before = left(alloc, undone, earlier, crash, false)?;
            Ok(cut_in_part(before, *to, fate))
        }
    }
}

/// Whether nothing was done since the last sync.
fn is_synced(events: &[Event]) -> bool {
    matches!(events.last(), None | Some(Event::Synced))
}

/// What a crash leaves of a write.
fn write_in_part(
    alloc: Global,
    octets: Octets,
    at: usize,
    new: &[u8],
    fate: Fate,
) -> Result<Octets, NoMemory>
    ensures torn { IfOk result (λ c. Torn at (length new.now) octets c) }
    ensures lost { fate ≡ Lost → IfOk result (λ c. c ≡ octets) }
{
    match fate {
        Fate::Lost => Ok(octets),
        Fate::Whole => lay(alloc, octets.as_slice(), at, new),
        Fate::Half => lay(alloc, octets.as_slice(), at, &new[..new.len() / 2]),
        Fate::Filled(octet) => {
            let filled = List::from_vec(vec![in alloc; octet; new.len()]?);
            lay(alloc, octets.as_slice(), at, filled.as_slice())
        }
        Fate::Drawn(seed) => {
            let drawn = drawn(alloc, seed, at, new.len())?;
            lay(alloc, octets.as_slice(), at, drawn.as_slice())
        }
    }
}

/// `n` octets by chance: the stream of this place, from this seed.
fn drawn(alloc: Global, seed: u64, at: usize, n: usize) -> Result<Octets, NoMemory>
    ensures { IfOk result (λ octets. length octets ≡ n) }
{
    let mut octets = List::from_vec(vec![in alloc; 0; n]?);
    let mut generator = ChaCha8Rng::seed_from_u64(seed);
    generator.set_stream(at as u64);
    generator.fill_bytes(octets.as_mut_slice());
    Ok(octets)
}

/// What a crash leaves of a cut.
fn cut_in_part(octets: Octets, to: usize, fate: Fate) -> Octets
    ensures cut { Cut to octets result }
    ensures lost { fate ≡ Lost → result ≡ octets }
{
    let end = octets.len();
    let left = match fate {
        Fate::Lost => end,
        Fate::Half => to.max(end - end.saturating_sub(to) / 2),
        Fate::Whole | Fate::Filled(_) | Fate::Drawn(_) => to,
    };
    let mut octets = octets;
    octets.truncate(left);
    octets
}
