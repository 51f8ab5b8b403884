//! Making all that a batch makes, before it is stored.
ghost use Rattle.std.specs.Prelude.{◌≡◌, ◌⊎◌, ◌<◌, ◌≤◌, ◌^◌, ◌+◌, ◌++◌, [], ◌∷◌, ℕ, List, length, map, false, None, Some, IfOk, IfErr, OnOk, OnErr};
ghost use Rattle.std.specs.List.{All};
ghost use Rattle.gd_wire.specs.Readings.{octet_at};
ghost use Rattle.group_terms.specs.Changes.{joiners};
ghost use Rattle.group_terms.specs.Names.{Name};
ghost use Rattle.group_terms.specs.declared.paths.Keyed.{Keyed as KeyedOf};
ghost use Rattle.group_terms.specs.declared.changes.Change.{Change};
ghost use Rattle.group_values.specs.Drawing.{blocks_for, place_after, values_drawn};
ghost use Rattle.group_values.specs.Values.{KeepsLast, Made, batches_made, ids_of};
ghost use Rattle.group_model.specs.Drawn.{drawn_at};
ghost use Rattle.group_model.specs.Places.{Fits};
ghost use Rattle.key_tree.specs.Present.{StandsFor};
ghost use Rattle.group_model.specs.Refusals.{why_no_batch};
ghost use Rattle.group_model.specs.Servers.{drawn_unless};
ghost use Rattle.group_model.specs.Stayed.{sequence_at};
ghost use Rattle.key_tree.specs.Marks.{IsMarkedFor};
ghost use Rattle.group_model.specs.declared.entries.Refusal.TheVariants.{NoMemory as OutOfMemory};
ghost use Rattle.group_keys.specs.Drawn.{AreDrawn};
ghost use Rattle.group_keys.specs.Replies.{IsKeyedOf};
ghost use Rattle.group_pushes.specs.Fits.{ValuesFit};
ghost use Rattle.gcks_core.specs.Prepares.{IsReadyFor};
ghost use Rattle.gcks_core.specs.Private.Cores.{IsGroupOf};

use crate::bounds::{prove_draws_few, prove_renews_few};
use crate::{CoreOutput, Keyed, MemberName, Prepared, Refusal};
use gd_disk::Disk;
use gd_edges::{Draws, Signer};
use group_keys::keyed_after;
use group_model::{Counter, PushPair, each_leaf_has_its_place};
use group_pushes::{prove_values_fit, write_pair};
use group_terms::{Batch, BatchValues, Change, List, NoMemory, Octets, Wrap};
use group_values::draw_values;
use key_tree::{KeyTree, Marked};
use std::alloc::Global;
use tree_store::{Head, TreeStore};

/// Makes all that a batch makes; only the draws move, and these not where it is refused for another reason than being out of memory.
pub(crate) fn prepare_batch<D: Disk, G: Signer, R: Draws>(
    alloc: Global,
    tree: &KeyTree,
    batch: &Batch,
    head: &Head,
    signer: &G,
    draws: &mut R,
) -> Result<Prepared, Refusal>
    requires fits { Fits tree.now.holders batch.now }
    requires group { (list : List Made) × IsGroupOf head.now tree.now list }
    ensures answer { (list : List Made) → IsGroupOf head.now tree.now list → IfErr result (λ why. (why ≡ OutOfMemory)
        ⊎ (why_no_batch false head.now.limit (length list) (sequence_at tree.now.depth (batches_made list) (length list))
        (sequence_at tree.now.depth (batches_made list ++ batch.now ∷ []) (length list + 1)) ≡ Some why)) }
    ensures allowed { (list : List Made) → IsGroupOf head.now tree.now list → OnOk result
        (why_no_batch false head.now.limit (length list) (sequence_at tree.now.depth (batches_made list) (length list))
        (sequence_at tree.now.depth (batches_made list ++ batch.now ∷ []) (length list + 1)) ≡ None) }
    ensures ready { (list : List Made) → IsGroupOf head.now tree.now list →
        IfOk result (IsReadyFor G.Signer signer.now head.now tree.now batch.now list) }
    ensures values { (list : List Made) → IsGroupOf head.now tree.now list → IfOk result (λ prepared. prepared.values
        ≡ values_drawn (R.block_at draws.old) (R.place_of draws.old) (drawn_at tree.now.depth (batches_made list ++ batch.now ∷ []) (length list + 1))) }
    ensures fit { IfOk result (λ prepared. ValuesFit prepared.values) }
    ensures place { (list : List Made) → IsGroupOf head.now tree.now list → OnOk result (R.place_of draws.new
        ≡ place_after (blocks_for (drawn_at tree.now.depth (batches_made list ++ batch.now ∷ []) (length list + 1))) (R.place_of draws.old)) }
    ensures moved { (list : List Made) → IsGroupOf head.now tree.now list → OnErr result ((n : ℕ)
        × (n ≤ drawn_unless (why_no_batch false head.now.limit (length list) (sequence_at tree.now.depth (batches_made list) (length list))
        (sequence_at tree.now.depth (batches_made list ++ batch.now ∷ []) (length list + 1)))
        (blocks_for (drawn_at tree.now.depth (batches_made list ++ batch.now ∷ []) (length list + 1))))
        × (R.place_of draws.new ≡ place_after n (R.place_of draws.old))) }
    ensures blocks { (k : ℕ) → R.block_at draws.new k ≡ R.block_at draws.old k }
    ensures refused { IfErr result (λ why. (why ≡ OutOfMemory → ⊥) → draws.new ≡ draws.old) }
{
    let marked = mark_next(alloc, tree, batch, head.limit)?;
    let values = draw_values(alloc, draws, marked.drawn())?;
    prove_values_fit(&values);
    let ready = make_ready::<D, G>(alloc, tree, batch, head, signer, &marked, &values)?;
    Ok(ready.of(marked, values))
}

/// What the next batch makes of the tree. `Spent` where a limit forbids it.
fn mark_next(alloc: Global, tree: &KeyTree, batch: &Batch, limit: u32) -> Result<Marked, Refusal>
    requires fits { Fits tree.now.holders batch.now }
    ensures ok { IfOk result (IsMarkedFor tree.now batch.now limit) }
    ensures answer { (batches : List (List Change)) → StandsFor tree.now batches → IfErr result (λ why. (why ≡ OutOfMemory)
        ⊎ (why_no_batch false limit (length batches) (sequence_at tree.now.depth batches (length batches))
        (sequence_at tree.now.depth (batches ++ batch.now ∷ []) (length batches + 1)) ≡ Some why)) }
    ensures allowed { (batches : List (List Change)) → StandsFor tree.now batches → OnOk result
        (why_no_batch false limit (length batches) (sequence_at tree.now.depth batches (length batches))
        (sequence_at tree.now.depth (batches ++ batch.now ∷ []) (length batches + 1)) ≡ None) }
{
    match tree.prepare(alloc, batch, limit)? {
        Some(marked) => Ok(marked),
        None => Err(spent(tree, limit)),
    }
}

/// Which counter is at the limit, where the next batch would go past it.
fn spent(tree: &KeyTree, limit: u32) -> Refusal
    ensures epoch { limit ≤ tree.now.epoch → result ≡ Refusal.Spent Counter.Epoch tree.now.epoch }
    ensures sequence { tree.now.epoch < limit → result ≡ Refusal.Spent Counter.Sequence tree.now.sequence }
{
    if tree.epoch() >= limit {
        return Refusal::Spent {
            counter: Counter::Epoch,
            at: tree.epoch(),
        };
    }
    Refusal::Spent {
        counter: Counter::Sequence,
        at: tree.sequence(),
    }
}

/// What is made of a batch that was marked and the values of its keys: the record of the batch, and what it puts out.
#[derive(Drop)]
struct Ready {
    text: Octets,
    output: CoreOutput,
}

impl Ready {
    /// All that was made ready, with what it was made of.
    fn of(self, marked: Marked, values: BatchValues) -> Prepared
        ensures { result ≡ record { values = values; text = self.text; output = self.output; marked = marked } }
    {
        let Ready { text, output } = self;
        Prepared {
            values,
            text,
            output,
            marked,
        }
    }
}

/// The record of a batch whose values were drawn, and what is put out.
fn make_ready<D: Disk, G: Signer>(
    alloc: Global,
    tree: &KeyTree,
    batch: &Batch,
    head: &Head,
    signer: &G,
    marked: &Marked,
    values: &BatchValues,
) -> Result<Ready, NoMemory>
    requires fits { Fits tree.now.holders batch.now }
    requires group { (list : List Made) × IsGroupOf head.now tree.now list }
    requires marked { IsMarkedFor tree.now batch.now head.now.limit marked.now }
    requires drawn { ids_of values.now.nodes ≡ marked.now.drawn }
    requires high { 128 ≤ octet_at values.now.traffic.spi 0 }
    ensures ready { (list : List Made) → IsGroupOf head.now tree.now list →
        IfOk result (λ ready. IsReadyFor G.Signer signer.now head.now tree.now batch.now list
        (record { values = values.now; text = ready.text; output = ready.output; marked = marked.now })) }
{
    prove_draws_few(tree);
    prove_renews_few(tree, batch);
    let text = TreeStore::<D>::make_record(
        alloc,
        batch,
        marked.epoch(),
        marked.sequence(),
        values,
    )?;
    let pushes = write_pair(alloc, tree, marked, values, &head.spi, signer)?;
    let told = replies(alloc, tree, marked, values, &head.spi, batch)?;
    let output = CoreOutput {
        epoch: marked.epoch(),
        sequence: marked.sequence(),
        members: marked.members(),
        wraps: wraps_of(alloc, &pushes)?,
        pushes,
        told,
    };
    Ok(Ready { text, output })
}

/// What a pair encrypts; nothing where there is none.
fn wraps_of(alloc: Global, pushes: &Option<PushPair>) -> Result<List<Wrap>, NoMemory>
    ensures some { (pair : PushPair) → pushes.now ≡ Some pair → IfOk result (λ wraps. wraps ≡ pair.wraps) }
    ensures none { pushes.now ≡ None → IfOk result (λ wraps. wraps ≡ []) }
{
    match pushes {
        Some(pair) => List::copy_of(alloc, pair.wraps.as_slice()),
        None => Ok(List::new(alloc)),
    }
}

/// The keys for each member who comes in with a batch.
fn replies(
    alloc: Global,
    tree: &KeyTree,
    marked: &Marked,
    values: &BatchValues,
    spi: &[u8; 16],
    batch: &Batch,
) -> Result<List<(MemberName, Keyed)>, NoMemory>
    requires stands { (batches : List (List Change)) × StandsFor tree.now batches }
    requires marked { (limit : ℕ) × IsMarkedFor tree.now batch.now limit marked.now }
    ensures members { IfOk result (λ replies. map (λ (reply : Name × KeyedOf). reply.0) replies ≡ joiners batch.now) }
    ensures replies { (list : List Made) → StandsFor tree.now (batches_made list) → KeepsLast tree.now.kept list →
        AreDrawn tree.now.depth (list ++ record { changes = batch.now; values = values.now } ∷ []) →
        IfOk result (All (λ (reply : Name × KeyedOf). IsKeyedOf tree.now.depth spi.now (list ++ record { changes = batch.now; values = values.now } ∷ []) reply.0 reply.1)) }
{
    each_leaf_has_its_place();
    let mut replies = List::with_room(alloc, marked.joined().len())?;
    for change in batch.changes() {
        if let Change::In { member } = change {
            let leaf = marked.joined()[replies.len()];
            replies.push((*member, keyed_after(tree, marked, values, spi, leaf)))?;
        }
    }
    Ok(replies)
}
