//! Laws of the records of a journal.
ghost use Rattle.std.specs.Prelude.{◌≡◌, ◌≤◌, ◌+◌, [], ◌∷◌, ℕ, List, length, Err};
ghost use Rattle.tree_journal.specs.Records.{AreRecordsFrom, IsRecordAt, bodies_from, with_front};

/// A record at a place is the first one from there on, and the others come after it.
pub fn a_record_is_the_next_one()
    ensures { (file : List ℕ) (at : ℕ) (body : List ℕ) → IsRecordAt file at body →
        bodies_from file at ≡ with_front (body ∷ []) (bodies_from file (at + (5 + length body))) }
{}

/// Records one after the other are the first ones from there on, and the others come after them.
pub fn records_are_the_next_ones()
    ensures { (file : List ℕ) (from to : ℕ) (bodies : List (List ℕ)) → AreRecordsFrom file from bodies to →
        bodies_from file from ≡ with_front bodies (bodies_from file to) }
{}

/// Where there is no journal from a place on, the commit mark at which it breaks off is not before that place.
pub fn a_journal_breaks_off_further_on()
    ensures { (file : List ℕ) (from at : ℕ) → bodies_from file from ≡ Err at → from ≤ at }
{}
