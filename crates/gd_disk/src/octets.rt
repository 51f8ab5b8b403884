//! The octets of a disk in memory, and the events that change them.
ghost use Rattle.std.specs.Prelude.{◌≡◌, ℕ, ◌+◌, ◌-◌, ◌≤◌, ◌∷◌, [], ◌++◌, min, max, length, take, drop, IfOk, OnOk, OnErr};
ghost use Rattle.gd_disk.specs.Disks.{IsRead, written, Torn};
ghost use Rattle.gd_disk.specs.Media.{replaced};
ghost use Rattle.gd_disk.specs.Private.Pieces.{laid};
ghost use Rattle.gd_disk.specs.declared.events.Event.TheVariants.{Wrote, Shortened, Synced};

use crate::events::Event;
use group_terms::{List, NoMemory, Octets};
use std::alloc::Global;

/// Moves the octets from a place on, as many as are there and fit, and says how many.
pub(crate) fn read_from(octets: &[u8], at: u64, into: &mut [u8]) -> usize
    ensures { IsRead octets.now at (length into.old) result into.new }
{
    moved(left_at(octets, at), into)
}

/// The octets from a place on.
fn left_at(octets: &[u8], at: u64) -> &[u8]
    ensures { result.now ≡ drop at octets.now }
{
    let at = octets.len().min(at as usize);
    &octets[at..]
}

/// Copies as many octets as there are and fit, and says how many.
fn moved(from: &[u8], into: &mut [u8]) -> usize
    ensures count { result ≡ min (length into.old) (length from.now) }
    ensures octets { take result into.new ≡ take result from.now }
{
    let n = into.len().min(from.len());
    into[..n].copy_from_slice(&from[..n]);
    n
}

/// Writes octets over what is at a place and past the end, and notes the event.
pub(crate) fn write(
    alloc: Global,
    octets: &mut Octets,
    events: &mut List<Event>,
    at: usize,
    new: &[u8],
) -> Result<(), NoMemory>
    requires { at ≤ length octets.old }
    ensures ok { OnOk result (octets.new ≡ written octets.old at new.now) }
    ensures size { OnOk result (length octets.new ≤ max (length octets.old) (at + length new.now)) }
    ensures noted { OnOk result (events.new ≡ events.old ++
        Wrote at new.now (take (length new.now) (drop at octets.old)) ∷ []) }
    ensures err { OnErr result (octets.new ≡ octets.old) }
    ensures err_events { OnErr result (events.new ≡ events.old) }
{
    let overlap = new.len().min(octets.len() - at);
    let count = events.len();
    note_write(alloc, events, at, new, &octets.as_slice()[at..at + overlap])?;
    events.keep_or_truncate(count, octets.extend(&new[overlap..]))?;
    lay_over(octets.as_mut_slice(), at, &new[..overlap]);
    Ok(())
}

/// Notes a write at a place over these octets.
fn note_write(
    alloc: Global,
    events: &mut List<Event>,
    at: usize,
    new: &[u8],
    over: &[u8],
) -> Result<(), NoMemory>
    ensures noted { OnOk result (events.new ≡ events.old ++ Wrote at new.now over.now ∷ []) }
    ensures err { OnErr result (events.new ≡ events.old) }
{
    let octets = List::copy_of(alloc, new)?;
    let undo = List::copy_of(alloc, over)?;
    events.push(Event::Wrote { at, octets, undo })
}

/// Copies a piece over the octets at a place.
fn lay_over(octets: &mut [u8], at: usize, piece: &[u8])
    requires { at + length piece.now ≤ length octets.old }
    ensures { octets.new ≡ written octets.old at piece.now }
{
    octets[at..at + piece.len()].copy_from_slice(piece);
}

/// Cuts all octets from a place on, and notes the event.
pub(crate) fn cut(
    alloc: Global,
    octets: &mut Octets,
    events: &mut List<Event>,
    to: usize,
) -> Result<(), NoMemory>
    requires { to ≤ length octets.old }
    ensures ok { OnOk result (octets.new ≡ take to octets.old) }
    ensures noted { OnOk result (events.new ≡ events.old ++
        Shortened to (drop to octets.old) ∷ []) }
    ensures err { OnErr result (octets.new ≡ octets.old) }
    ensures err_events { OnErr result (events.new ≡ events.old) }
{
    let undo = List::copy_of(alloc, &octets.as_slice()[to..])?;
    events.push(Event::Shortened { to, undo })?;
    octets.truncate(to);
    Ok(())
}

/// Notes that all was synced.
pub(crate) fn sync(events: &mut List<Event>) -> Result<(), NoMemory>
    ensures ok { OnOk result (events.new ≡ events.old ++ Synced ∷ []) }
    ensures err { OnErr result (events.new ≡ events.old) }
{
    events.push(Event::Synced)
}

/// Octets with others at a place, in place of `n` that were there.
pub(crate) fn replace(
    alloc: Global,
    octets: &[u8],
    at: usize,
    n: usize,
    others: &[u8],
) -> Result<Octets, NoMemory>
    ensures { IfOk result (λ new. new ≡ replaced octets.now at n others.now) }
{
    let mut new = List::copy_of(alloc, &octets[..octets.len().min(at)])?;
    new.extend(others)?;
    new.extend(left_at(left_at(octets, at as u64), n as u64))?;
    Ok(new)
}

/// Octets with a piece at a place, which zeros reach where the octets end before it.
pub(crate) fn lay(alloc: Global, octets: &[u8], at: usize, piece: &[u8]) -> Result<Octets, NoMemory>
    ensures laid { IfOk result (λ new. new ≡ laid octets.now at piece.now) }
    ensures torn { (n : ℕ) → length piece.now ≤ n → IfOk result (λ new. Torn at n octets.now new) }
{
    let end = octets.len().min(at);
    let mut new = List::copy_of(alloc, &octets[..end])?;
    let gap = List::from_vec(vec![in alloc; 0; at - end]?);
    new.extend(gap.as_slice())?;
    new.extend(piece)?;
    new.extend(left_at(octets, at as u64 + piece.len() as u64))?;
    Ok(new)
}
