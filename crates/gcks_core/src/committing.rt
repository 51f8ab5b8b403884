//! Storing a batch that is ready.
ghost use Rattle.std.specs.Prelude.{◌≡◌, [], ◌∷◌, ◌++◌, ℕ, List, Err, IfOk, IfErr, OnOk, OnErr};
ghost use Rattle.gd_disk.specs.Disks.{Knows};
ghost use Rattle.gd_disk.specs.Moments.{shown, LeavesOnly, ReportsFaults};
ghost use Rattle.group_terms.specs.declared.changes.Change.{Change};
ghost use Rattle.group_values.specs.Values.{Made, batches_made};
ghost use Rattle.group_model.specs.declared.entries.Refusal.TheVariants.{DiskFault};
ghost use Rattle.group_records.specs.declared.heads.Head.{Head};
ghost use Rattle.tree_store.specs.Groups.{HasGroup, IsGroup, IsGroupBeforeOrAfter};
ghost use Rattle.gcks_core.specs.Private.Cores.{IsAtEnd, IsGroupOf};
ghost use Rattle.gcks_core.specs.Private.Stores.{IsStorable};
ghost use Rattle.gcks_core.specs.Stored.{stored_after, stored_list};

use crate::{CoreOutput, Prepared, Refusal};
use gd_disk::Disk;
use group_pushes::prove_values_fit;
use key_tree::KeyTree;
use tree_store::{TreeStore, a_file_has_one_group};

/// Stores a batch, and then takes it in. It takes no memory.
pub(crate) fn store_batch<D: Disk>(
    store: &mut TreeStore<D>,
    tree: &mut KeyTree,
    ready: Prepared,
) -> Result<CoreOutput, Refusal>
    requires group { (head : Head) × (list : List Made) × (changes : List Change) × IsGroupOf head tree.old list × IsAtEnd D.Disk store.old head list
        × IsStorable head tree.old changes list ready }
    ensures output { IfOk result (λ output. output ≡ ready.output) }
    ensures group { (head : Head) (list : List Made) (changes : List Change) → IsGroupOf head tree.old list → IsStorable head tree.old changes list ready →
        OnOk result (IsGroupOf head tree.new (list ++ record { changes = changes; values = ready.values } ∷ [])) }
    ensures at_end { (head : Head) (list : List Made) (changes : List Change) → IsAtEnd D.Disk store.old head list → IsStorable head tree.old changes list ready →
        OnOk result (IsAtEnd D.Disk store.new head (list ++ record { changes = changes; values = ready.values } ∷ [])) }
    ensures durable { (head : Head) (list : List Made) (changes : List Change) → HasGroup (shown D.Disk store.old.disk) head (stored_list head.depth list) →
        IsStorable head tree.old changes list ready → OnOk result ((c : List ℕ) → D.may_leave store.new.disk c →
        IsGroup c head (stored_list head.depth (list ++ record { changes = changes; values = ready.values } ∷ []))) }
    ensures any_moment { (head : Head) (list : List Made) (changes : List Change) → HasGroup (shown D.Disk store.old.disk) head (stored_list head.depth list) →
        IsStorable head tree.old changes list ready → LeavesOnly D.Disk store.old.disk store.new.disk
        (IsGroupBeforeOrAfter head (stored_list head.depth list) (stored_after head.depth (batches_made list) (record { changes = changes; values = ready.values }))) }
    ensures in_doubt { (head : Head) (list : List Made) (changes : List Change) → HasGroup (shown D.Disk store.old.disk) head (stored_list head.depth list) →
        IsStorable head tree.old changes list ready → OnErr result (Knows (shown D.Disk store.new.disk)
        (IsGroupBeforeOrAfter head (stored_list head.depth list) (stored_after head.depth (batches_made list) (record { changes = changes; values = ready.values })))) }
    ensures err { OnErr result (tree.new ≡ tree.old) }
    ensures no_other { IfErr result (λ why. why ≡ DiskFault) }
    ensures disk { ReportsFaults D.Disk (result ≡ Err DiskFault) store.old.disk store.new.disk }
{
    a_file_has_one_group();
    let Prepared {
        values,
        text,
        output,
        marked,
    } = ready;
    prove_values_fit(&values);
    match store.commit(&text) {
        Ok(()) => {
            tree.install(marked, &values);
            tree.prove_room();
            Ok(output)
        }
        Err(_) => Err(Refusal::DiskFault),
    }
}
