//! What a member has that is told its keys and given pushes.
ghost use Rattle.std.specs.Prelude.{◌≡◌, ◌≢◌, ◌<◌, ◌≤◌, ◌+◌, ℕ, List, length, take, ◌++◌, Result, Ok, true, false};
ghost use Rattle.group_terms.specs.Names.{Name};
ghost use Rattle.group_terms.specs.declared.paths.Keyed.{Keyed};
ghost use Rattle.group_terms.specs.declared.pushes.PushRefusal.{PushRefusal};
ghost use Rattle.group_terms.specs.declared.pushes.PushRefusal.TheVariants.{Malformed, NoPath, Stale};
ghost use Rattle.group_values.specs.Values.{Made, batches_made};
ghost use Rattle.group_keys.specs.Replies.{IsKeyedOf};
ghost use Rattle.group_model.specs.Places.{holders_at, holders_of, is_member};
ghost use Rattle.group_model.specs.Stayed.{sequence_at};
ghost use Rattle.group_model.specs.Wraps.{node_wraps};
ghost use Rattle.group_model.specs.declared.entries.PushPair.{PushPair};
ghost use Rattle.kd_wire.specs.Texts.{KeyedFits};
ghost use Rattle.member_store.specs.declared.answers.Taken.{Taken};
ghost use Rattle.member_store.specs.declared.answers.Taken.TheVariants.{Root, Traffic};
ghost use Rattle.member_store.specs.Steps.{AreDueAcceptances, IsAcceptance, IsRefused};
ghost use Rattle.member_store.specs.Stores.{IsReply, Store, is_older, leaf_of, root_epoch, store_of};
ghost use Rattle.law_member_roots.specs.Groups.{ArePairsAfter, Checks, IsForOneRoot, IsKeyedGroup, IsMemberFrom, IsPairAt, datagrams_of};
ghost use Rattle.law_member_roots.specs.Reads.{GivesTraffic, GivesWraps, HasHeaderFor};
ghost use Rattle.law_member_roots.specs.Roots.{HasKeysOf, HasTrafficOf, IsAtRoot, IsStoreOf};

use gd_cipher::open_undoes_seal;
use gd_edges::{Signer, Verifier};
use group_model::first_epochs_stay;
use kd_wire::{
    jobs_of_a_push_are_updates, texts_of_jobs_are_sealed, written_texts_are_octets,
    written_texts_have_their_size,
};
use law_key_ways::each_law_holds;
use member_store::{a_refusal_changes_nothing, each_cause_has_its_refusal};
use push_msg::a_written_push_is_read;

/// A store that is made of what a member is told at an epoch is at its root, and has its traffic key; the number that it is told is that of the last push then.
pub fn a_reply_is_at_its_root()
    ensures { (depth epoch : ℕ) (spi : List ℕ) (list : List Made) (m : Name) (keyed : Keyed) →
        IsKeyedGroup depth spi list → epoch ≤ length list →
        is_member (holders_at depth (batches_made list) epoch) m ≡ true →
        IsKeyedOf depth spi (take epoch list) m keyed →
        IsReply keyed × HasKeysOf depth spi list epoch m (store_of keyed) × (keyed.sequence ≡ sequence_at depth (batches_made list) epoch) }
{
    first_epochs_stay();
    each_law_holds();
}

/// What a member is told at an epoch can be written.
pub fn a_reply_can_be_written()
    ensures { (depth epoch : ℕ) (spi : List ℕ) (list : List Made) (m : Name) (keyed : Keyed) →
        IsKeyedGroup depth spi list → epoch ≤ length list →
        is_member (holders_at depth (batches_made list) epoch) m ≡ true →
        IsKeyedOf depth spi (take epoch list) m keyed → KeyedFits keyed × (keyed.sequence < 4294967296) }
{
    first_epochs_stay();
    a_reply_is_at_its_root();
}

/// What a member is told at the last epoch is a reply of which a store can be made.
pub fn a_reply_makes_a_store()
    ensures { (depth : ℕ) (spi : List ℕ) (list : List Made) (m : Name) (keyed : Keyed) → 1 ≤ depth → depth ≤ 9 →
        is_member (holders_of depth (batches_made list)) m ≡ true → IsKeyedOf depth spi list m keyed → IsReply keyed }
{
    each_law_holds();
}

/// Later batches leave a store at the root at which it is, with the traffic key that it has.
pub fn later_batches_leave_a_root()
    ensures root { (depth epoch : ℕ) (spi : List ℕ) (list later : List Made) (m : Name) (store : Store) →
        IsAtRoot depth spi list epoch m store → IsAtRoot depth spi (list ++ later) epoch m store }
    ensures traffic { (epoch : ℕ) (list later : List Made) (store : Store) →
        HasTrafficOf list epoch store → HasTrafficOf (list ++ later) epoch store }
{
    first_epochs_stay();
    each_law_holds();
}

/// The epoch of a root is that of the store's root key. A store that has the keys of an epoch is one of the group.
pub fn a_store_at_a_root_has_its_epoch()
    ensures epoch { (depth epoch : ℕ) (spi : List ℕ) (list : List Made) (m : Name) (store : Store) →
        IsAtRoot depth spi list epoch m store → root_epoch store ≡ epoch }
    ensures of_group { (depth epoch : ℕ) (spi : List ℕ) (list : List Made) (m : Name) (store : Store) →
        HasKeysOf depth spi list epoch m store → IsStoreOf depth spi list m store }
{
    each_law_holds();
}

/// What a member is told at the epoch of its store's root, or at a later one, is not older than what the store has. So a member that missed a
/// membership push is served by a reply.
pub fn a_later_reply_is_not_older()
    ensures { (depth epoch : ℕ) (spi : List ℕ) (list : List Made) (m : Name) (keyed : Keyed) (store : Store) →
        IsStoreOf depth spi list m store → epoch ≤ length list → root_epoch store ≤ epoch →
        IsKeyedOf depth spi (take epoch list) m keyed → is_older store keyed ≡ false }
{
    first_epochs_stay();
}

/// Of the membership push of an epoch a push is read under the key that the root had at the epoch before, with the keys of what that epoch encrypts
/// between positions; of its traffic push one under the root's new key, with its traffic key. Both are for the SPI of the group.
pub fn a_sent_push_is_read<G: Signer, V: Verifier>()
    ensures membership { (signer : G) (verifier : V) (depth sent : ℕ) (spi : List ℕ) (list : List Made) (pair : PushPair) →
        IsKeyedGroup depth spi list → Checks G.Signer signer V.Verifier verifier → IsPairAt G.Signer signer depth spi list (sent + 1) pair →
        GivesWraps V.Verifier verifier spi list sent pair.first (node_wraps depth (batches_made list) (sent + 1)) pair.membership }
    ensures traffic { (signer : G) (verifier : V) (depth epoch : ℕ) (spi : List ℕ) (list : List Made) (pair : PushPair) →
        IsKeyedGroup depth spi list → Checks G.Signer signer V.Verifier verifier → IsPairAt G.Signer signer depth spi list epoch pair →
        GivesTraffic V.Verifier verifier spi list epoch (pair.first + 1) pair.traffic }
    ensures membership_header { (signer : G) (depth sent : ℕ) (spi : List ℕ) (list : List Made) (pair : PushPair) →
        IsKeyedGroup depth spi list → IsPairAt G.Signer signer depth spi list (sent + 1) pair →
        HasHeaderFor spi pair.membership }
    ensures traffic_header { (signer : G) (depth epoch : ℕ) (spi : List ℕ) (list : List Made) (pair : PushPair) →
        IsKeyedGroup depth spi list → IsPairAt G.Signer signer depth spi list epoch pair → HasHeaderFor spi pair.traffic }
{
    first_epochs_stay();
    each_law_holds();
    open_undoes_seal();
    jobs_of_a_push_are_updates();
    texts_of_jobs_are_sealed();
    written_texts_are_octets();
    written_texts_have_their_size();
    a_written_push_is_read();
}

/// At the root of an epoch a member takes the membership push of the next one over which it stays, and is then at the root of that; and it
/// takes the traffic push of its epoch, and has the traffic key. The number of either has to be greater than the last one. A store of the
/// group goes on with the next membership push, whatever traffic pushes it missed.
pub fn a_due_push_is_taken<G: Signer, V: Verifier>()
    ensures membership { (signer : G) (verifier : V) (depth epoch : ℕ) (spi : List ℕ) (list : List Made) (m : Name) (pair : PushPair)
        (store next : Store) (result : Result Taken PushRefusal) →
        IsKeyedGroup depth spi list → Checks G.Signer signer V.Verifier verifier → IsPairAt G.Signer signer depth spi list (epoch + 1) pair →
        IsAtRoot depth spi list epoch m store → is_member (holders_at depth (batches_made list) (epoch + 1)) m ≡ true →
        store.sequence < pair.first → IsAcceptance V.Verifier verifier store pair.membership result next →
        (result ≡ Ok (Root (epoch + 1))) × IsAtRoot depth spi list (epoch + 1) m next × (next.sequence ≡ pair.first)
        × (next.traffic ≡ store.traffic) × (next.traffic_epoch ≡ store.traffic_epoch) }
    ensures traffic { (signer : G) (verifier : V) (depth epoch : ℕ) (spi : List ℕ) (list : List Made) (m : Name) (pair : PushPair)
        (store next : Store) (result : Result Taken PushRefusal) →
        IsKeyedGroup depth spi list → Checks G.Signer signer V.Verifier verifier → IsPairAt G.Signer signer depth spi list epoch pair →
        IsAtRoot depth spi list epoch m store → store.sequence < pair.first + 1 →
        IsAcceptance V.Verifier verifier store pair.traffic result next →
        (result ≡ Ok (Traffic epoch)) × IsAtRoot depth spi list epoch m next × (next.sequence ≡ pair.first + 1)
        × HasTrafficOf list epoch next }
    ensures goes_on { (signer : G) (verifier : V) (depth : ℕ) (spi : List ℕ) (list : List Made) (m : Name) (pair : PushPair)
        (store next : Store) (result : Result Taken PushRefusal) →
        IsKeyedGroup depth spi list → Checks G.Signer signer V.Verifier verifier →
        IsPairAt G.Signer signer depth spi list (root_epoch store + 1) pair → IsStoreOf depth spi list m store →
        is_member (holders_at depth (batches_made list) (root_epoch store + 1)) m ≡ true →
        IsAcceptance V.Verifier verifier store pair.membership result next →
        (result ≡ Ok (Root (root_epoch store + 1))) × IsStoreOf depth spi list m next }
{
    first_epochs_stay();
    each_law_holds();
    each_cause_has_its_refusal::<V>();
    a_sent_push_is_read::<G, V>();
}

/// A push under the store's root is stale where its number is not greater than the last one; so is its traffic push that comes again.
pub fn a_repeated_push_is_stale<G: Signer, V: Verifier>()
    ensures membership { (signer : G) (verifier : V) (depth epoch : ℕ) (spi : List ℕ) (list : List Made) (m : Name) (pair : PushPair)
        (store next : Store) (result : Result Taken PushRefusal) →
        IsKeyedGroup depth spi list → Checks G.Signer signer V.Verifier verifier → IsPairAt G.Signer signer depth spi list (epoch + 1) pair →
        IsAtRoot depth spi list epoch m store → pair.first ≤ store.sequence →
        IsAcceptance V.Verifier verifier store pair.membership result next →
        IsRefused store (Stale store.sequence pair.first) result next }
    ensures traffic { (signer : G) (verifier : V) (depth epoch : ℕ) (spi : List ℕ) (list : List Made) (m : Name) (pair : PushPair)
        (store next : Store) (result : Result Taken PushRefusal) →
        IsKeyedGroup depth spi list → Checks G.Signer signer V.Verifier verifier → IsPairAt G.Signer signer depth spi list epoch pair →
        IsAtRoot depth spi list epoch m store → pair.first + 1 ≤ store.sequence →
        IsAcceptance V.Verifier verifier store pair.traffic result next →
        IsRefused store (Stale store.sequence (pair.first + 1)) result next }
{
    each_law_holds();
    each_cause_has_its_refusal::<V>();
    a_sent_push_is_read::<G, V>();
}

/// A member that does not stay over a batch finds no path to the root in the membership push of that batch.
pub fn a_member_that_left_finds_no_path<G: Signer, V: Verifier>()
    ensures { (signer : G) (verifier : V) (depth epoch : ℕ) (spi : List ℕ) (list : List Made) (m : Name) (pair : PushPair)
        (store next : Store) (result : Result Taken PushRefusal) →
        IsKeyedGroup depth spi list → Checks G.Signer signer V.Verifier verifier → IsPairAt G.Signer signer depth spi list (epoch + 1) pair →
        IsAtRoot depth spi list epoch m store → is_member (holders_at depth (batches_made list) (epoch + 1)) m ≡ false →
        store.sequence < pair.first → IsAcceptance V.Verifier verifier store pair.membership result next →
        IsRefused store (NoPath (leaf_of store.path)) result next }
{
    each_law_holds();
    each_cause_has_its_refusal::<V>();
    a_sent_push_is_read::<G, V>();
}

/// Any other push of the group is no text of a push for a store: the membership push of each epoch but the next, and the traffic push of
/// each but that of its root. So it is supposed of the keys.
pub fn a_push_under_another_root_is_malformed<G: Signer, V: Verifier>()
    ensures membership { (signer : G) (verifier : V) (depth epoch sent : ℕ) (spi : List ℕ) (list : List Made) (m : Name) (pair : PushPair)
        (store next : Store) (result : Result Taken PushRefusal) →
        IsKeyedGroup depth spi list → IsPairAt G.Signer signer depth spi list (sent + 1) pair →
        IsForOneRoot spi (V.kind_of verifier) list pair.membership sent → IsAtRoot depth spi list epoch m store → sent ≢ epoch →
        IsAcceptance V.Verifier verifier store pair.membership result next →
        (at : ℕ) × IsRefused store (Malformed at) result next }
    ensures traffic { (signer : G) (verifier : V) (depth epoch sent : ℕ) (spi : List ℕ) (list : List Made) (m : Name) (pair : PushPair)
        (store next : Store) (result : Result Taken PushRefusal) →
        IsKeyedGroup depth spi list → IsPairAt G.Signer signer depth spi list sent pair →
        IsForOneRoot spi (V.kind_of verifier) list pair.traffic sent → IsAtRoot depth spi list epoch m store → sent ≢ epoch →
        IsAcceptance V.Verifier verifier store pair.traffic result next →
        (at : ℕ) × IsRefused store (Malformed at) result next }
{
    each_law_holds();
    a_sent_push_is_read::<G, V>();
}

/// Whatever push of its group a store is given, it is at some root of the group after that, with the traffic key of some epoch; so much is
/// supposed of the keys.
pub fn a_sent_push_leaves_a_store_of_its_group<G: Signer, V: Verifier>()
    ensures membership { (signer : G) (verifier : V) (depth sent : ℕ) (spi : List ℕ) (list : List Made) (m : Name) (pair : PushPair)
        (store next : Store) (result : Result Taken PushRefusal) →
        IsKeyedGroup depth spi list → Checks G.Signer signer V.Verifier verifier → IsPairAt G.Signer signer depth spi list (sent + 1) pair →
        IsForOneRoot spi (V.kind_of verifier) list pair.membership sent → IsStoreOf depth spi list m store →
        IsAcceptance V.Verifier verifier store pair.membership result next → IsStoreOf depth spi list m next }
    ensures traffic { (signer : G) (verifier : V) (depth sent : ℕ) (spi : List ℕ) (list : List Made) (m : Name) (pair : PushPair)
        (store next : Store) (result : Result Taken PushRefusal) →
        IsKeyedGroup depth spi list → Checks G.Signer signer V.Verifier verifier → IsPairAt G.Signer signer depth spi list sent pair →
        IsForOneRoot spi (V.kind_of verifier) list pair.traffic sent → IsStoreOf depth spi list m store →
        IsAcceptance V.Verifier verifier store pair.traffic result next → IsStoreOf depth spi list m next }
{
    first_epochs_stay();
    each_law_holds();
    a_due_push_is_taken::<G, V>();
    a_repeated_push_is_stale::<G, V>();
    a_member_that_left_finds_no_path::<G, V>();
    a_push_under_another_root_is_malformed::<G, V>();
}

/// A member that is given its due pushes in order, with any refused datagrams between, has the server's traffic key.
pub fn a_member_with_its_due_pushes_has_the_traffic_key<G: Signer, V: Verifier>()
    ensures { (signer : G) (verifier : V) (depth epoch : ℕ) (spi : List ℕ) (list : List Made) (m : Name) (pairs : List PushPair)
        (store after : Store) (datagrams : List (List ℕ)) →
        IsKeyedGroup depth spi list → Checks G.Signer signer V.Verifier verifier → ArePairsAfter G.Signer signer depth spi list epoch pairs →
        IsMemberFrom depth list epoch (epoch + length pairs) m → HasKeysOf depth spi list epoch m store →
        AreDueAcceptances V.Verifier verifier store (datagrams_of pairs) datagrams after →
        HasKeysOf depth spi list (epoch + length pairs) m after }
{
    first_epochs_stay();
    a_refusal_changes_nothing::<V>();
    a_due_push_is_taken::<G, V>();
}
