//! Leaves that change hands with a batch.
ghost use Rattle.std.specs.Prelude.{◌≡◌, ◌^◌, ◌<◌, ◌≤◌, [], ◌∷◌, ◌++◌, List as Items, length, nat_eq, false, IfOk, OnOk};
ghost use Rattle.std.specs.List.{All, IsDistinct, list_any};
ghost use Rattle.std.specs.List.Sorted.{IsPermutation};
ghost use Rattle.group_terms.specs.Changes.{leavers, joiners};
ghost use Rattle.group_values.specs.Values.{Rises};
ghost use Rattle.group_model.specs.Indexes.{IsIndexOf};
ghost use Rattle.group_model.specs.Places.{Holders, is_member};
ghost use Rattle.key_tree.specs.declared.marks.Seat.{Seat};
ghost use Rattle.key_tree.specs.Marks.{seated};
ghost use Rattle.key_tree.specs.Private.Seats.{IsLeft, IsTaken, IsVacant, leaves_taken, placements, places_of, vacancies};

use crate::marks::Seat;
use crate::vacant::Vacant;
use group_model::NameIndex;
use group_terms::{Change, LeafMarks, List, LkhId, MemberName, NoMemory};
use std::alloc::Global;
use tree_leaves::holders::Holder;
use tree_leaves::position;

/// The leaves that those leave who go out with a batch, in its order. The list has room for those of the joiners too.
pub(crate) fn leave_all(
    alloc: Global,
    holders: &[Holder],
    index: &NameIndex,
    batch: &[Change],
) -> Result<List<Seat>, NoMemory>
    requires { IsIndexOf holders.now index.now }
    ensures { IfOk result (λ seats. seats ≡ vacancies holders.now (leavers batch.now)) }
{
    let mut seats = List::with_room(alloc, batch.len())?;
    for change in batch {
        if let Change::Out { member } = change {
            leave(holders, index, member, &mut seats)?;
        }
    }
    Ok(seats)
}

/// A member leaves its leaf.
fn leave(
    holders: &[Holder],
    index: &NameIndex,
    member: &MemberName,
    seats: &mut List<Seat>,
) -> Result<(), NoMemory>
    requires { IsIndexOf holders.now index.now }
    ensures { OnOk result (seats.new ≡ seats.old ++ vacancies holders.now (member.now ∷ [])) }
{
    match index.find(holders, member) {
        Some(place) => {
            seats.push(Seat {
                place,
                holder: None,
            })?;
            Ok(())
        }
        None => Ok(()),
    }
}

/// The places of these leaves, rising, where no two are the same.
pub(crate) fn places(alloc: Global, seats: &[Seat]) -> Result<List<usize>, NoMemory>
    requires { IsDistinct nat_eq (places_of seats.now) }
    ensures rises { IfOk result (λ places. Rises places) }
    ensures same { IfOk result (λ places. IsPermutation (places_of seats.now) places) }
{
    let mut places = List::with_room(alloc, seats.len())?;
    for seat in seats {
        places.push(seat.place)?;
    }
    places.as_mut_slice().sort_unstable();
    Ok(places)
}

/// Adds the leaves that those get who come in with a batch, in its order: each the lowest one that is free then.
pub(crate) fn take_all(
    depth: u8,
    free: &LeafMarks,
    batch: &[Change],
    vacant: &mut Vacant,
    seats: &mut List<Seat>,
) -> Result<(), NoMemory>
    requires not_deep { depth ≤ 9 }
    requires same { free.now.depth ≡ depth }
    requires leaves { length free.now.leaves ≡ 2 ^ depth }
    requires vacant { IsVacant vacant.old }
    requires first { vacant.old.from ≡ 0 }
    ensures vacant { IsVacant vacant.new }
    ensures left { vacant.new.left ≡ vacant.old.left }
    ensures taken { (before left : Holders) → IsLeft before left free.now.leaves vacant.old.left → list_any (is_member before) (joiners batch.now) ≡ false →
        let came = placements left (joiners batch.now) in
        OnOk result ((seats.new ≡ seats.old ++ came) × IsTaken before left (seated left came) vacant.new.from (places_of came)) }
{
    for change in batch {
        if let Change::In { member } = change {
            take(depth, free, member, vacant, seats)?;
        }
    }
    Ok(())
}

/// Who comes in gets the lowest free leaf.
fn take(
    depth: u8,
    free: &LeafMarks,
    member: &MemberName,
    vacant: &mut Vacant,
    seats: &mut List<Seat>,
) -> Result<(), NoMemory>
    requires not_deep { depth ≤ 9 }
    requires same { free.now.depth ≡ depth }
    requires leaves { length free.now.leaves ≡ 2 ^ depth }
    requires vacant { IsVacant vacant.old }
    ensures vacant { IsVacant vacant.new }
    ensures left { vacant.new.left ≡ vacant.old.left }
    ensures taken { (before left : Holders) (came : Items Seat) → IsLeft before left free.now.leaves vacant.old.left → is_member before member.now ≡ false →
        IsTaken before left (seated left came) vacant.old.from (places_of came) →
        let found = placements (seated left came) (member.now ∷ []) in
        OnOk result ((seats.new ≡ seats.old ++ found) × IsTaken before left (seated left (came ++ found)) vacant.new.from (places_of (came ++ found))) }
{
    match vacant.next(depth, free) {
        Some(place) => {
            seats.push(Seat {
                place,
                holder: Some(*member),
            })?;
            Ok(())
        }
        None => Ok(()),
    }
}

/// The leaves that are given to somebody, in this order. The lowest leaf of the tree is the first one.
pub(crate) fn leaves_of(
    alloc: Global,
    first: usize,
    seats: &[Seat],
) -> Result<List<LkhId>, NoMemory>
    requires some { 0 < first }
    requires few { first ≤ 512 }
    requires within { All (λ (seat : Seat). seat.place < first) seats.now }
    ensures { IfOk result (λ ids. ids ≡ leaves_taken first seats.now) }
{
    let mut ids = List::with_room(alloc, seats.len())?;
    for seat in seats {
        if seat.holder.is_some() {
            ids.push(position(first + seat.place))?;
        }
    }
    Ok(ids)
}
