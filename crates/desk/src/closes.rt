//! Closing a desk: all passes come back, and the value is given back.
ghost use Rattle.std.specs.Prelude.{◌≡◌, ◌↔◌, ℕ, ◌<◌, ◌≤◌, List, [], ◌∷◌, length, map, All, IsErr, IfOk, IfErr};
ghost use Rattle.desk.specs.Opened.{terms_of};
ghost use Rattle.desk.specs.Seats.{IsSized, IsSeatOf, IsAtRest, HasAll, IsHome};
ghost use Rattle.desk.specs.Turned.{IsWhole};

use crate::plays::{Note, TakeIn};
use crate::rules::{Board, Place, Top};
use crate::{Calls, Desk, Kept, Pass};
use group_terms::List;

/// The value, and which entry of its history is whose.
#[derive(Drop)]
pub struct Closed<K: Kept> {
    pub kept: K,
    pub calls: Calls<K::Entry, K::Tag>,
}

/// Fewer passes came back than were made. All comes back as it was.
#[derive(Drop)]
pub struct DeskOpen<K: Kept> {
    pub desk: Desk<K>,
    pub passes: List<Pass<K>>,
    pub made: u32,
}

/// Takes all passes into one seat.
fn gather<K: Kept>(top: &Top<K>, mut passes: List<Pass<K>>) -> Place<K>
    requires table { IsSized top.now.table_id (terms_of K.listed K.tag top.now.key) }
    requires some { 0 < length passes }
    requires own { All (λ pass. pass.desk ≡
        record { table = top.now.table_id; told = Some (terms_of K.listed K.tag top.now.key) }) passes }
    ensures seat { IsSeatOf top.now.table_id (terms_of K.listed K.tag top.now.key) result × IsAtRest result }
    ensures all { HasAll passes result }
{
    let mut seat = passes.pop().unwrap().into_seat();
    while let Some(pass) = passes.pop() {
        top.join_seat::<TakeIn>(&mut seat, pass.into_seat());
    }
    passes.into_vec().destroy_empty();
    seat
}

/// Takes the value out of a table at which nobody has a seat any more but this one.
fn take_home<K: Kept>(table: Board<K>, seat: Place<K>) -> K
    requires table { IsSized table.shared.table_id (terms_of K.listed K.tag table.shared.key) }
    requires seat { IsSeatOf table.shared.table_id (terms_of K.listed K.tag table.shared.key) seat × IsAtRest seat }
    requires all { table.shared.key.passes ≤ length seat.me.0.shares }
    ensures { IsHome K.listed K.tag (terms_of K.listed K.tag table.shared.key) seat.me.0 result }
{
    let mut closed = table.close_with(seat);
    let kept = closed.take(0).unwrap();
    closed.free();
    kept
}

impl<K: Kept> Desk<K> {
    /// Gives the value back, once all passes have come back. `DeskOpen` where a pass is missing.
    pub fn close(self, passes: List<Pass<K>>) -> Result<Closed<K>, DeskOpen<K>>
        requires { All (λ pass. pass.desk ≡ self.id) passes }
        ensures ok { IfOk result (λ closed. IsWhole self.terms passes (K.listed closed.kept)) }
        ensures tag { IfOk result (λ closed. K.tag closed.kept ≡ self.terms.tag) }
        ensures calls { IfOk result (λ closed. closed.calls ≡ map (λ pass. pass.mine) passes) }
        ensures missing { IsErr result ↔ (length passes < self.terms.passes) }
        ensures err { IfErr result (λ back. (back.desk ≡ self) × (back.passes ≡ passes) × (back.made ≡ self.terms.passes)) }
    {
        if passes.len() < self.passes as usize {
            let made = self.passes;
            return Err(DeskOpen {
                desk: self,
                passes,
                made,
            });
        }
        let table = self.into_table();
        let mut seat = gather(&table.shared, passes);
        let note = table.shared.split_seat::<Note>(&mut seat).into_badge();
        let kept = take_home(table, seat);
        Ok(Closed {
            kept,
            calls: Calls { note },
        })
    }
}
