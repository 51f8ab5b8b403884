//! What a value promises that is kept at a desk.
ghost use Rattle.std.specs.Prelude.{◌≡◌, ℕ, ◌+◌, ◌<◌, ◌≤◌, List, [], ◌∷◌, ◌++◌, length, OnOk};
ghost use Rattle.std.specs.Thread.{IsSync};

use group_terms::NoMemory;
use std::sync::Wait;
use std::thread::Threads;

/// A value that is kept at a desk. Contracts see its history beside `spare`, for how many more entries it has room.
pub trait Kept {
    /// What a turn hands in.
    type Event: Drop;

    /// What a turn adds to the history.
    type Entry;

    /// What a turn gives back.
    type Answer;

    /// What no turn changes. No value of it is made.
    type Tag;

    // The history, from the first entry on.
    ghost listed: { Self → List Self.Entry };

    ghost spare: { Self → ℕ };

    ghost tag: { Self → Self.Tag };

    // How many entries a value of this tag had when its desk was made.
    ghost begun: { Self.Tag → ℕ };

    // Whether two values differ in their room alone.
    ghost Same: { Self → Self → Type 0 };

    // Whether an event may be handed to a value of this tag.
    ghost Suits: { Self.Event → Self.Tag → Type 0 };

    // What a history, an event, the entry that is appended for it and the answer have to do with each other.
    ghost Relates: { List Self.Entry → Self.Event → Self.Entry → Self.Answer → Type 0 };

    /// Takes an event in. `number` is the place that the desk gives to the entry, counted from the desk's making. Threads may
    /// share the runtime.
    fn take<R: Threads + Wait + Sync>(
        &mut self,
        rt: &R,
        number: u64,
        event: Self::Event,
    ) -> Self::Answer
        requires shared { IsSync R.row }
        requires room { 0 < spare self.old }
        requires number { length (listed self.old) ≡ begun (tag self.old) + number }
        requires suits { Suits event (tag self.old) }
        ensures entry { (entry : Self.Entry) × (listed self.new ≡ listed self.old ++ entry ∷ [])
            × Relates (listed self.old) event entry result }
        ensures spare { spare self.old ≤ spare self.new + 1 }
        ensures tag { tag self.new ≡ tag self.old };

    /// Makes room for so many entries, and changes nothing else.
    fn reserve(&mut self, turns: u64) -> Result<(), NoMemory>
        ensures same { Same self.old self.new }
        ensures listed { listed self.new ≡ listed self.old }
        ensures tag { tag self.new ≡ tag self.old }
        ensures spare { OnOk result (turns ≤ spare self.new) };
}
