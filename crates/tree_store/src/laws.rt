//! A law of files that have a group.
ghost use Rattle.std.specs.Prelude.{◌≡◌, ℕ, List};
ghost use Rattle.group_records.specs.declared.batches.Stored.{Stored};
ghost use Rattle.group_records.specs.declared.heads.Head.{Head};
ghost use Rattle.tree_store.specs.Groups.{IsGroup, IsNoGroup};

use tree_journal::{
    a_journal_breaks_off_further_on, a_record_is_the_next_one, records_are_the_next_ones,
};

/// A file is the journal of one group at the most, with one list of batches; and one that has a place at which it is that of none is no group's.
/// There is one such place at the most.
pub fn a_file_has_one_group()
    ensures one { (file : List ℕ) (head other : Head) (list others : List Stored) → IsGroup file head list → IsGroup file other others →
        (head ≡ other) × (list ≡ others) }
    ensures or_none { (file : List ℕ) (head : Head) (list : List Stored) (at : ℕ) → IsGroup file head list → IsNoGroup file at → ⊥ }
    ensures place { (file : List ℕ) (at other : ℕ) → IsNoGroup file at → IsNoGroup file other → at ≡ other }
{
    a_record_is_the_next_one();
    records_are_the_next_ones();
    a_journal_breaks_off_further_on();
}
