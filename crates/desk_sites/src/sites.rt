//! Where turns are made: a desk, known by a trait.
ghost use Rattle.std.specs.Prelude.{◌≡◌, ◌↔◌, List, length, IsErr, IfOk, IfErr};
ghost use Rattle.std.specs.Thread.{IsSync};
ghost use Rattle.desk.specs.Turned.{IsTurn};
ghost use Rattle.desk.specs.Views.{Holder, Told};

use desk::{Desk, Kept, LedgerFull, Pass};
use std::sync::Wait;
use std::thread::Threads;

/// Where turns are made: a desk, known by what its turns promise. Code over a site is proved where code over a desk is not, as in closures.
pub trait Site {
    type Pass;

    /// What a turn hands in.
    type Event;

    /// What a turn adds to the history.
    type Entry;

    /// What a turn gives back.
    type Answer;

    /// What no turn changes.
    type Tag;

    // Which desk it is, and its terms.
    ghost told: { Self → Told Self.Entry Self.Tag };

    // What contracts see of a pass.
    ghost held: { Self.Pass → Holder Self.Entry Self.Tag };

    // Whether an event may be handed to a value of this tag.
    ghost Suits: { Self.Event → Self.Tag → Type 0 };

    // What a history, an event, the entry that is appended for it and the answer have to do with each other.
    ghost Relates: { List Self.Entry → Self.Event → Self.Entry → Self.Answer → Type 0 };

    /// Makes a turn, as `Desk::turn` does.
    fn turn_in<R: Threads + Wait + Sync>(
        &self,
        rt: &R,
        pass: &mut Self::Pass,
        event: Self::Event,
    ) -> Result<Self::Answer, LedgerFull>
        requires shared { IsSync R.row }
        requires own { (held pass.old).desk ≡ (told self.now).id }
        requires suits { Suits event (told self.now).terms.tag }
        ensures pass { ((held pass.new).desk ≡ (held pass.old).desk) × ((held pass.new).number ≡ (held pass.old).number) }
        ensures ok { IfOk result (λ answer. IsTurn Relates (told self.now).terms.start event answer (held pass.old) (held pass.new)) }
        ensures full { IsErr result ↔ (length (held pass.old).mine ≡ (told self.now).terms.turns) }
        ensures err { IfErr result (λ full. (full.held ≡ (told self.now).terms.turns) × (held pass.new ≡ held pass.old)) };
}

impl<K: Kept> Site for Desk<K> {
    type Pass = Pass<K>;

    type Event = K::Event;

    type Entry = K::Entry;

    type Answer = K::Answer;

    type Tag = K::Tag;

    ghost told = { λ desk. desk };

    ghost held = { λ pass. pass };

    ghost Suits = { K.Suits };

    ghost Relates = { K.Relates };

    fn turn_in<R: Threads + Wait + Sync>(
        &self,
        rt: &R,
        pass: &mut Pass<K>,
        event: K::Event,
    ) -> Result<K::Answer, LedgerFull> {
        self.turn(rt, pass, event)
    }
}
