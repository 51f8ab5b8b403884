//! A turn at the desk.
ghost use Rattle.std.specs.Prelude.{◌≡◌, ◌↔◌, length, IsErr, IfOk, IfErr};
ghost use Rattle.desk.specs.Turned.{IsTurn};

use crate::rounds::serve;
use crate::{Desk, Kept, Pass};
use std::sync::Wait;
use std::thread::Threads;

/// The pass has made all its turns; `held` is how many.
#[derive(Clone, Copy, PartialEq, Eq)]
pub struct LedgerFull {
    pub held: u64,
}

impl<K: Kept> Desk<K> {
    /// Waits for its turn, and has the value take the event in. `LedgerFull` where the pass has no turn left: nothing is done, and
    /// the event is dropped.
    pub fn turn<R: Threads + Wait + Sync>(
        &self,
        rt: &R,
        pass: &mut Pass<K>,
        event: K::Event,
    ) -> Result<K::Answer, LedgerFull>
        requires desk { pass.old.desk ≡ self.now.id }
        requires suits { K.Suits event self.now.terms.tag }
        ensures pass { (pass.new.desk ≡ pass.old.desk) × (pass.new.number ≡ pass.old.number) }
        ensures ok { IfOk result (λ answer. IsTurn K.Relates self.now.terms.start event answer pass.old pass.new) }
        ensures full { IsErr result ↔ (length pass.old.mine ≡ self.now.terms.turns) }
        ensures err { IfErr result (λ full. (full.held ≡ self.now.terms.turns) × (pass.new ≡ pass.old)) }
    {
        if pass.made == self.turns {
            return Err(LedgerFull { held: pass.made });
        }
        let answer = serve(rt, &self.table.shared, &self.bells, &mut pass.seat, event);
        pass.made += 1;
        Ok(answer)
    }
}
