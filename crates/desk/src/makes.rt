//! Making a desk with its passes.
ghost use Rattle.std.specs.Prelude.{◌≡◌, ℕ, ◌+◌, ◌*◌, ◌<◌, ◌≤◌, [], ◌∷◌, length, All, IfOk, IfErr, IsErrAnd, vec_len, vec_capacity, Some};
ghost use Rattle.desk.specs.Opened.{terms_of, IsLaid};
ghost use Rattle.desk.specs.Seats.{IsSized, IsSeatOf, IsAtRest};
ghost use Rattle.desk.specs.Turned.{new_passes};
ghost use Rattle.desk.specs.Turns.{blank_shares};

use crate::bells::Bells;
use crate::plays::HandOver;
use crate::rules::{Board, Opening, Place, Top};
use crate::{Desk, Kept, Pass};
use atomic_table::{Refused, Table};
use group_terms::{List, NoMemory};
use std::alloc::{AllocFailed, Global};
use std::snapshot::Snapshot;

/// A desk, and its passes by number, from 1.
#[derive(Drop)]
pub struct DeskMade<K: Kept> {
    pub desk: Desk<K>,
    pub passes: List<Pass<K>>,
}

/// The value comes back.
#[derive(Drop)]
pub struct DeskLost<K> {
    pub kept: K,
    pub why: NoMemory,
}

fn lost<T, K: Kept>(kept: K) -> Result<T, DeskLost<K>>
    ensures { IsErrAnd result (λ lost. lost.kept ≡ kept) }
{
    Err(DeskLost {
        kept,
        why: NoMemory,
    })
}

/// The one slot of the table, with the value.
fn slot_of<K: Kept>(alloc: Global, kept: K) -> Result<Vec<Option<K>>, DeskLost<K>>
    ensures ok { IfOk result (λ slots. slots.items ≡ Some kept ∷ []) }
    ensures err { IfErr result (λ lost. lost.kept ≡ kept) }
{
    let mut slots = Vec::new(alloc);
    match slots.push(Some(kept)) {
        Ok(()) => Ok(slots),
        Err(AllocFailed { value }) => {
            slots.destroy_empty();
            lost(value.unwrap())
        }
    }
}

fn value_of<K>(mut slots: Vec<Option<K>>) -> K
    requires { (kept : K) × (slots.items ≡ Some kept ∷ []) }
    ensures { slots.items ≡ Some result ∷ [] }
{
    let kept = slots.pop().unwrap().unwrap();
    slots.destroy_empty();
    kept
}

fn lay<K: Kept>(
    alloc: Global,
    kept: K,
    passes: u32,
    turns: u64,
) -> Result<(Board<K>, Place<K>), DeskLost<K>>
    requires { passes * turns ≤ K.spare kept }
    ensures ok { IfOk result (λ laid. IsLaid K.listed K.tag kept passes turns laid.0.shared.table_id laid.0.shared.key laid.1) }
    ensures err { IfErr result (λ lost. lost.kept ≡ kept) }
{
    let about = Opening {
        kept: Snapshot::of(&kept),
        passes: u64::from(passes),
        turns,
    };
    let slots = slot_of(alloc, kept)?;
    match Table::new(alloc, &[0; 3], slots, &about) {
        Ok(laid) => Ok(laid),
        Err(Refused { slots }) => lost(value_of(slots)),
    }
}

/// Gives each pass number a pass, in the room that there is.
fn hand_over<K: Kept>(
    top: &Top<K>,
    maker: Place<K>,
    room: Vec<Pass<K>>,
    passes: u32,
) -> List<Pass<K>>
    requires table { IsSized top.now.table_id (terms_of K.listed K.tag top.now.key) × (top.now.key.passes ≡ passes) }
    requires seat { IsSeatOf top.now.table_id (terms_of K.listed K.tag top.now.key) maker }
    requires rest { IsAtRest maker }
    requires shares { (maker.me.0.shares ≡ blank_shares 1 passes) × (maker.me.0.left ≡ passes * top.now.key.turns)
        × (maker.me.0.seen ≡ K.listed top.now.key.kept.value) }
    requires room { (room.items ≡ []) × (passes ≤ vec_capacity room) }
    ensures passes { result ≡ new_passes
        (record { table = top.now.table_id; told = Some (terms_of K.listed K.tag top.now.key) }) (terms_of K.listed K.tag top.now.key) }
    ensures own { All (λ pass. pass.desk ≡
        record { table = top.now.table_id; told = Some (terms_of K.listed K.tag top.now.key) }) result }
{
    let mut maker = maker;
    let mut made = room;
    for _ in 0..passes {
        let seat = top.split_seat::<HandOver>(&mut maker);
        made.push_reserved(Pass { seat, made: 0 });
    }
    List::from_vec(made)
}

/// A desk at a value that has room for all turns.
fn made_at<K: Kept>(
    alloc: Global,
    kept: K,
    passes: u32,
    turns: u64,
) -> Result<DeskMade<K>, DeskLost<K>>
    requires passes { (1 ≤ passes) × (passes ≤ 64) }
    requires turns { (1 ≤ turns) × (turns ≤ 4096) }
    requires room { passes * turns ≤ K.spare kept }
    requires begun { length (K.listed kept) ≡ K.begun (K.tag kept) }
    ensures desk { IfOk result (λ made. made.desk.terms ≡
        record { start = K.listed kept; passes = passes; turns = turns; tag = K.tag kept }) }
    ensures passes { IfOk result (λ made. made.passes ≡ new_passes made.desk.id made.desk.terms) }
    ensures own { IfOk result (λ made. All (λ pass. pass.desk ≡ made.desk.id) made.passes) }
    ensures many { IfOk result (λ made. length made.passes ≡ passes) }
    ensures lost { IfErr result (λ lost. lost.kept ≡ kept) }
{
    let Ok(room) = Vec::with_capacity(alloc, passes as usize) else {
        return lost(kept);
    };
    let (table, maker) = lay(alloc, kept, passes, turns)?;
    let held = hand_over(&table.shared, maker, room, passes);
    let desk = Desk {
        table,
        passes,
        turns,
        bells: Bells::new(),
    };
    Ok(DeskMade { desk, passes: held })
}

impl<K: Kept> Desk<K> {
    /// A desk with 1 to 64 passes, of which each may make 1 to 4,096 turns. Room for all turns of all passes is reserved.
    /// `DeskLost` gives the value back if out of memory; it may have got room.
    pub fn new(
        alloc: Global,
        mut kept: K,
        passes: u32,
        turns: u64,
    ) -> Result<DeskMade<K>, DeskLost<K>>
        requires passes { (1 ≤ passes) × (passes ≤ 64) }
        requires turns { (1 ≤ turns) × (turns ≤ 4096) }
        requires begun { length (K.listed kept) ≡ K.begun (K.tag kept) }
        ensures desk { IfOk result (λ made. made.desk.terms ≡
            record { start = K.listed kept; passes = passes; turns = turns; tag = K.tag kept }) }
        ensures passes { IfOk result (λ made. made.passes ≡ new_passes made.desk.id made.desk.terms) }
        ensures own { IfOk result (λ made. All (λ pass. pass.desk ≡ made.desk.id) made.passes) }
        ensures many { IfOk result (λ made. length made.passes ≡ passes) }
        ensures lost { IfErr result (λ lost. K.Same kept lost.kept) }
        ensures listed { IfErr result (λ lost. (K.listed lost.kept ≡ K.listed kept) × (K.tag lost.kept ≡ K.tag kept)) }
    {
        if kept.reserve(u64::from(passes) * turns).is_err() {
            return lost(kept);
        }
        made_at(alloc, kept, passes, turns)
    }
}
