//! A pass that learns what another pass has seen.
ghost use Rattle.std.specs.Prelude.{◌≡◌, List, [], ◌∷◌};
ghost use Rattle.desk.specs.Opened.{terms_of};
ghost use Rattle.desk.specs.Views.{StartsWith};
ghost use Rattle.desk.specs.Seats.{IsSized, IsSeatOf, IsAtRest, HasHeard};

use crate::plays::{Learn, Note, TakeIn};
use crate::rules::{COUNT, Place, Top};
use crate::{Desk, Kept, Pass};

fn tell<K: Kept>(top: &Top<K>, to: &mut Place<K>, from: &mut Place<K>)
    requires table { IsSized top.now.table_id (terms_of K.listed K.tag top.now.key) }
    requires to { IsSeatOf top.now.table_id (terms_of K.listed K.tag top.now.key) to.old × IsAtRest to.old }
    requires from { IsSeatOf top.now.table_id (terms_of K.listed K.tag top.now.key) from.old × IsAtRest from.old }
    ensures to { HasHeard from.old.me.0.seen to.old to.new }
    ensures from { (from.new.table_id ≡ from.old.table_id) × (from.new.me ≡ from.old.me) }
{
    let note = top.split_seat::<Note>(from);
    top.join_seat::<TakeIn>(to, note);
    top.load::<Learn>(to, COUNT);
}

impl<K: Kept> Desk<K> {
    /// Lets a pass see what another one has seen.
    pub fn meet(&self, to: &mut Pass<K>, from: &mut Pass<K>)
        requires to { to.old.desk ≡ self.now.id }
        requires from { from.old.desk ≡ self.now.id }
        ensures seen { StartsWith to.new.seen to.old.seen × StartsWith to.new.seen from.old.seen }
        ensures to { (to.new.desk ≡ to.old.desk) × (to.new.number ≡ to.old.number) × (to.new.mine ≡ to.old.mine) }
        ensures from { from.new ≡ from.old }
    {
        tell(&self.table.shared, &mut to.seat, &mut from.seat);
    }
}
