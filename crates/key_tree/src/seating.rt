//! What a batch makes of the leaves.
ghost use Rattle.std.specs.Prelude.{◌≡◌, ◌+◌, ◌^◌, ◌<◌, ◌≤◌, ◌++◌, false, true, length, drop, map, reverse, is_none, IfOk, OnOk};
ghost use Rattle.std.specs.List.{All, count_by};
ghost use Rattle.group_terms.specs.LeafMarks.{Marked as LeafMarked};
ghost use Rattle.group_model.specs.Indexes.{IsIndexOf};
ghost use Rattle.group_model.specs.Places.{Fits, member_count};
ghost use Rattle.key_tree.specs.declared.marks.Seat.{Seat};
ghost use Rattle.key_tree.specs.Private.Seats.{IsSeating, changed_leaf, places_of};

use crate::marks::{Renewed, Seat};
use crate::seats::{leave_all, leaves_of, places, take_all};
use crate::vacant::Vacant;
use group_model::NameIndex;
use group_terms::{Change, LeafMarks, List, LkhId, NoMemory};
use std::alloc::Global;
use tree_leaves::holders::Holder;
use tree_leaves::position;

/// The leaves that change hands with a batch.
#[derive(Drop)]
pub(crate) struct Seating {
    /// One after the other.
    pub(crate) seats: List<Seat>,
    /// The leaves of those who come in, in the order of the batch.
    pub(crate) joined: List<LkhId>,
    /// Each leaf whose holder is another one then, by falling leaf.
    pub(crate) leaves: List<Renewed>,
    /// How many members there are then.
    pub(crate) members: usize,
}

/// The leaves that change hands with a batch, which has to fit. `free` are those that nobody has before it, and `members` is how many somebody has.
pub(crate) fn seat_all(
    alloc: Global,
    depth: u8,
    holders: &[Holder],
    index: &NameIndex,
    free: &LeafMarks,
    members: usize,
    batch: &[Change],
) -> Result<Seating, NoMemory>
    requires not_deep { depth ≤ 9 }
    requires leaves { length holders.now ≡ 2 ^ depth }
    requires index { IsIndexOf holders.now index.now }
    requires free { free.now ≡ record { depth = depth; leaves = map is_none holders.now } }
    requires members { members ≡ member_count holders.now }
    requires fits { Fits holders.now batch.now }
    ensures { IfOk result (IsSeating depth holders.now batch.now) }
{
    let mut seats = leave_all(alloc, holders, index, batch)?;
    let mut vacant = Vacant::new(places(alloc, seats.as_slice())?);
    let left = seats.len();
    take_all(depth, free, batch, &mut vacant, &mut seats)?;
    let came = from_place(seats.as_slice(), left);
    let leaves = changed_leaves(alloc, depth, holders.len(), came, vacant.rest())?;
    let joined = leaves_of(alloc, holders.len(), came)?;
    let members = members - left + came.len();
    Ok(Seating {
        seats,
        joined,
        leaves,
        members,
    })
}

/// The leaves that change hands from one of them on.
fn from_place(seats: &[Seat], place: usize) -> &[Seat]
    requires { place ≤ length seats.now }
    ensures { result.now ≡ drop place seats.now }
{
    &seats[place..]
}

/// The leaves that change hands, falling: those that somebody gets, and then those that were left and that nobody gets. The lowest leaf of the tree is the
/// first one. The list has room for the paths from them to the root.
fn changed_leaves(
    alloc: Global,
    depth: u8,
    first: usize,
    taken: &[Seat],
    left: &[usize],
) -> Result<List<Renewed>, NoMemory>
    requires some { 0 < first }
    requires few { first ≤ 512 }
    requires taken { All (λ (seat : Seat). seat.place < first) taken.now }
    requires left { All (λ place. place < first) left.now }
    ensures { IfOk result (λ leaves. leaves ≡ reverse (map (changed_leaf first true) (places_of taken.now) ++ map (changed_leaf first false) left.now)) }
{
    let mut leaves = List::with_room(alloc, most_renewed(depth, taken.len(), left.len()))?;
    add_taken(first, taken, &mut leaves)?;
    add_left(first, left, &mut leaves)?;
    leaves.as_mut_slice().reverse();
    Ok(leaves)
}

/// No batch that changes so many leaves renews more positions.
fn most_renewed(depth: u8, taken: usize, left: usize) -> usize {
    let paths = taken
        .saturating_add(left)
        .saturating_mul(usize::from(depth));
    paths.saturating_add(1)
}

/// Adds the leaves that somebody gets.
fn add_taken(first: usize, taken: &[Seat], leaves: &mut List<Renewed>) -> Result<(), NoMemory>
    requires some { 0 < first }
    requires few { first ≤ 512 }
    requires within { All (λ (seat : Seat). seat.place < first) taken.now }
    ensures { OnOk result (leaves.new ≡ leaves.old ++ map (changed_leaf first true) (places_of taken.now)) }
{
    for seat in taken {
        leaves.push(changed_leaf(first, true, seat.place))?;
    }
    Ok(())
}

/// Adds the leaves that were left and that nobody gets.
fn add_left(first: usize, left: &[usize], leaves: &mut List<Renewed>) -> Result<(), NoMemory>
    requires some { 0 < first }
    requires few { first ≤ 512 }
    requires within { All (λ place. place < first) left.now }
    ensures { OnOk result (leaves.new ≡ leaves.old ++ map (changed_leaf first false) left.now) }
{
    for place in left {
        leaves.push(changed_leaf(first, false, *place))?;
    }
    Ok(())
}

/// A leaf that changes hands: nobody has it then who had it before.
fn changed_leaf(first: usize, held: bool, place: usize) -> Renewed
    requires some { 0 < first }
    requires few { first ≤ 512 }
    requires within { place < first }
    ensures { result ≡ changed_leaf first held place }
{
    Renewed {
        id: position(first + place),
        held,
        stayed: false,
    }
}
