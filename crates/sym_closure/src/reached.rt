//! Numbers that were reached.
ghost use Rattle.std.specs.Prelude.{◌≡◌, ◌^◌, ◌<◌, ◌≤◌, [], ◌∷◌, length, slice_get, All, Contains, Decides, IfOk, OnOk};
ghost use Rattle.sym_closure.specs.Private.Gains.{Gains};

use group_model::{List, NoMemory};
use std::alloc::Global;
use std::marker::Model;

/// Numbers below a bound, each once, in the order in which they were reached.
#[derive(Drop)]
pub(crate) struct Reached {
    order: List<usize>,
    marks: Vec<bool>,
}

impl Model for Reached {
    ghost use Rattle.std.specs.Prelude.{length};
    ghost use Rattle.sym_closure.specs.Private.Marks.{Marked, AreMarked};

    ghost Value = { Marked };

    ghost view = { λ reached. record { order = reached.order; bound = length reached.marks.items } };

    ghost invariant = { λ reached. AreMarked reached.order reached.marks.items };
}

impl Reached {
    /// No number yet.
    pub(crate) fn new(alloc: Global, bound: usize) -> Result<Self, NoMemory>
        ensures order { IfOk result (λ reached. reached.order ≡ []) }
        ensures bound { IfOk result (λ reached. reached.bound ≡ bound) }
    {
        Ok(Reached {
            order: List::new(alloc),
            marks: vec![in alloc; false; bound]?,
        })
    }

    pub(crate) fn has(&self, number: usize) -> bool
        requires { number < self.now.bound }
        ensures { Decides result (Contains self.now.order number) }
    {
        self.marks[number]
    }

    /// The number at a place; there are no more places than the bound says.
    pub(crate) fn at(&self, place: usize) -> Option<usize>
        ensures number { result ≡ slice_get self.now.order place }
        ensures below { All (λ number. number < self.now.bound) self.now.order }
        ensures few { length self.now.order ≤ self.now.bound }
        ensures fits { self.now.bound < 2 ^ 63 }
    {
        self.order.as_slice().get(place).copied()
    }

    /// The numbers.
    pub(crate) fn order(&self) -> &[usize]
        ensures { result.now ≡ self.now.order }
    {
        self.order.as_slice()
    }

    /// Puts a number at the end, unless it is there.
    pub(crate) fn add(&mut self, number: usize) -> Result<(), NoMemory>
        requires { number < self.old.bound }
        ensures gains { OnOk result (Gains self.old.order (number ∷ []) self.new.order) }
        ensures bound { self.new.bound ≡ self.old.bound }
    {
        if !self.marks[number] {
            self.order.push(number)?;
            self.marks[number] = true;
        }
        Ok(())
    }

    /// Puts the numbers at the end that are not there.
    pub(crate) fn add_all(&mut self, numbers: &[usize]) -> Result<(), NoMemory>
        requires { All (λ number. number < self.old.bound) numbers.now }
        ensures gains { OnOk result (Gains self.old.order numbers.now self.new.order) }
        ensures bound { self.new.bound ≡ self.old.bound }
    {
        for number in numbers {
            self.add(*number)?;
        }
        Ok(())
    }
}
