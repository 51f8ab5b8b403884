//! Reading a journal from its first batch to its end.
ghost use Rattle.std.specs.Prelude.{◌≡◌, ◌≤◌, [], ◌∷◌, ◌++◌, ℕ, List, false, None, Some, Ok, Err, IfSome, IfOk, IfErr, OnOk};
ghost use Rattle.gd_disk.specs.Disks.{Knows, Only};
ghost use Rattle.gd_disk.specs.Moments.{shown, LeavesOnly, OnlyReads, ReportsFaults};
ghost use Rattle.group_values.specs.Values.{Made, batches_made};
ghost use Rattle.key_tree.specs.Marks.{IsMarkedFor};
ghost use Rattle.group_pushes.specs.Fits.{MadeFits};
ghost use Rattle.group_pushes.specs.Pairs.{IsPairIfStayed};
ghost use Rattle.group_model.specs.declared.entries.Refusal.TheVariants as refusals;
ghost use Rattle.tree_journal.specs.declared.refusals.JournalRefusal.TheVariants.{Closed, DiskFault, NotAJournal, NoMemory as OutOfMemory};
ghost use Rattle.tree_store.specs.Groups.{IsDueAfter, IsNoGroup, IsGroupTo, made_of};
ghost use Rattle.gcks_core.specs.Private.Cores.{IsGroupOf, IsAtEnd};
ghost use Rattle.gcks_core.specs.Private.Reads.{IsRead};

use crate::bounds::prove_renews_few;
use crate::{PushPair, Refusal};
use gd_disk::Disk;
use gd_edges::Signer;
use group_pushes::{prove_values_fit, write_pair};
use group_terms::NoMemory;
use key_tree::{KeyTree, Marked};
use std::alloc::Global;
use tree_journal::JournalRefusal;
use tree_store::{Due, Head, Replay, Stored, TreeStore};

/// The group that a journal has: its tree, with the values of its keys, and the pair of its last batch, if that sent one.
#[derive(Drop)]
pub(crate) struct Found {
    pub(crate) head: Head,
    pub(crate) tree: KeyTree,
    pub(crate) resent: Option<PushPair>,
}

/// Reads a store that was just opened to its end.
pub(crate) fn read_all<D: Disk, G: Signer>(
    alloc: Global,
    store: &mut TreeStore<D>,
    signer: &G,
) -> Result<Found, JournalRefusal>
    requires begun { Knows (shown D.Disk store.old.disk) (λ file. IsGroupTo file store.old.head [] store.old.at) }
    requires open { store.old.closed ≡ false }
    ensures found { IfOk result (λ found. (list : List Made) × IsGroupOf found.head found.tree list
        × IsAtEnd D.Disk store.new found.head list × IsPairIfStayed G.Signer signer.now found.head.depth found.head.spi list found.resent
        × (1 ≤ found.head.limit)) }
    ensures durable { OnOk result (Knows (shown D.Disk store.new.disk) (λ file. Only file (D.may_leave store.new.disk))) }
    ensures same { shown D.Disk store.new.disk ≡ shown D.Disk store.old.disk }
    ensures any_moment { Knows (shown D.Disk store.old.disk) (λ file. LeavesOnly D.Disk store.old.disk store.new.disk (λ c. c ≡ file)) }
    ensures broken { IfErr result (λ why. (at : ℕ) → why ≡ NotAJournal at → Knows (shown D.Disk store.old.disk) (λ file. IsNoGroup file at)) }
    ensures no_other { IfErr result (λ why. why ≡ Closed → ⊥) }
    ensures disk { ReportsFaults D.Disk (result ≡ Err DiskFault) store.old.disk store.new.disk }
{
    store.prove_at_rest();
    let head = store.head();
    let mut replay = Replay::begin(alloc, &head)?;
    while store.next_batch(alloc, &mut replay)? {
        prove_last_fits(&replay);
    }
    store.prove_at_rest();
    Ok(finish(alloc, &head, replay, signer)?)
}

/// Opens a store again, and reads it to its end.
pub(crate) fn read_again<D: Disk, G: Signer>(
    alloc: Global,
    store: &mut TreeStore<D>,
    signer: &G,
) -> Result<Found, JournalRefusal>
    ensures found { IfOk result (λ found. (list : List Made) × IsGroupOf found.head found.tree list
        × IsAtEnd D.Disk store.new found.head list × IsPairIfStayed G.Signer signer.now found.head.depth found.head.spi list found.resent
        × (1 ≤ found.head.limit)) }
    ensures durable { (result ≡ Err DiskFault → ⊥) → Knows (shown D.Disk store.new.disk) (λ file. Only file (D.may_leave store.new.disk)) }
    ensures broken { IfErr result (λ why. (at : ℕ) → why ≡ NotAJournal at → Knows (shown D.Disk store.old.disk) (λ file. IsNoGroup file at)) }
    ensures no_other { IfErr result (λ why. why ≡ Closed → ⊥) }
    ensures reads { OnlyReads D.Disk (result ≡ Err DiskFault) store.old.disk store.new.disk }
{
    store.reopen()?;
    read_all(alloc, store, signer)
}

/// The values of the batch that was read last are keys, as their types say.
fn prove_last_fits(replay: &Replay)
    ensures { IfSome replay.now.last (λ next. MadeFits (made_of next.stored)) }
{
    match replay.last() {
        Some(next) => prove_values_fit(&next.stored.values),
        None => {}
    }
}

/// What was found at the end of a journal.
fn finish<G: Signer>(
    alloc: Global,
    head: &Head,
    replay: Replay,
    signer: &G,
) -> Result<Found, NoMemory>
    requires replay { (list : List Made) × IsRead head.now replay list }
    ensures { (list : List Made) → IsRead head.now replay list →
        IfOk result (λ found. (found.head ≡ head.now) × IsGroupOf head.now found.tree list
        × IsPairIfStayed G.Signer signer.now head.now.depth head.now.spi list found.resent) }
{
    let (mut tree, last) = replay.into_parts();
    let resent = last_pair(alloc, head, &mut tree, last, signer)?;
    Ok(Found {
        head: *head,
        tree,
        resent,
    })
}

/// Puts the batch that was read last into the tree, if there is one, and gives its pair, if it sent one.
fn last_pair<G: Signer>(
    alloc: Global,
    head: &Head,
    tree: &mut KeyTree,
    last: Option<Due>,
    signer: &G,
) -> Result<Option<PushPair>, NoMemory>
    requires replay { (list : List Made) × IsRead head.now (record { tree = tree.old; last = last }) list }
    ensures group { (list : List Made) → IsRead head.now (record { tree = tree.old; last = last }) list →
        OnOk result (IsGroupOf head.now tree.new list) }
    ensures pair { (list : List Made) → IsRead head.now (record { tree = tree.old; last = last }) list →
        IfOk result (IsPairIfStayed G.Signer signer.now head.now.depth head.now.spi list) }
{
    match last {
        Some(Due { stored, marked }) => pair_of(alloc, head, tree, &stored, marked, signer),
        None => Ok(None),
    }
}

/// Puts a batch that is due into the tree, and gives its pair, if it sent one.
fn pair_of<G: Signer>(
    alloc: Global,
    head: &Head,
    tree: &mut KeyTree,
    stored: &Stored,
    marked: Marked,
    signer: &G,
) -> Result<Option<PushPair>, NoMemory>
    requires due { (before : List Made) × IsGroupOf head.now tree.old before × IsDueAfter head.now.depth head.now.limit (batches_made before) stored.now }
    requires marked { IsMarkedFor tree.old stored.now.batch head.now.limit marked }
    ensures group { (before : List Made) → IsGroupOf head.now tree.old before →
        IsDueAfter head.now.depth head.now.limit (batches_made before) stored.now →
        OnOk result (IsGroupOf head.now tree.new (before ++ made_of stored.now ∷ [])) }
    ensures pair { (before : List Made) → IsGroupOf head.now tree.old before →
        IsDueAfter head.now.depth head.now.limit (batches_made before) stored.now →
        IfOk result (IsPairIfStayed G.Signer signer.now head.now.depth head.now.spi (before ++ made_of stored.now ∷ [])) }
{
    prove_values_fit(&stored.values);
    prove_renews_few(tree, &stored.batch);
    let pair = write_pair(alloc, tree, &marked, &stored.values, &head.spi, signer)?;
    tree.install(marked, &stored.values);
    tree.prove_room();
    Ok(pair)
}

/// Why a core does not open.
pub(crate) fn refusal_of(why: JournalRefusal) -> Refusal
    ensures fault { why ≡ DiskFault → result ≡ refusals.DiskFault }
    ensures none { (at : ℕ) → why ≡ NotAJournal at → result ≡ refusals.NotAJournal at }
    ensures memory { why ≡ OutOfMemory → result ≡ refusals.NoMemory }
{
    match why {
        JournalRefusal::Closed | JournalRefusal::DiskFault => Refusal::DiskFault,
        JournalRefusal::NotAJournal { at } => Refusal::NotAJournal { at },
        JournalRefusal::NoMemory => Refusal::NoMemory,
    }
}
