//! What follows of a step of a store, said of every store and every datagram.
ghost use Rattle.std.specs.Prelude.{◌≡◌, ◌≢◌, ◌<◌, ◌≤◌, ℕ, List, Result, Ok, Err, true, false};
ghost use Rattle.gd_wire.specs.declared.headers.Header.{Header};
ghost use Rattle.group_terms.specs.declared.paths.PathKey.{PathKey};
ghost use Rattle.group_terms.specs.declared.pushes.PushRefusal.{PushRefusal};
ghost use Rattle.group_terms.specs.declared.pushes.PushRefusal.TheVariants.{OtherSpi, Malformed, BadSignature, Stale, NoPath};
ghost use Rattle.group_terms.specs.declared.wires.WireFault.{WireFault};
ghost use Rattle.kd_wire.specs.Spans.{span_arrays};
ghost use Rattle.kd_wire.specs.declared.spans.UpdateSpan.{UpdateSpan};
ghost use Rattle.push_msg.specs.declared.bodies.OpenBody.TheVariants.{Membership};
ghost use Rattle.push_msg.specs.Pushes.{header_of};
ghost use Rattle.push_msg.specs.Readings.{PushRead};
ghost use Rattle.member_store.specs.declared.answers.Taken.{Taken};
ghost use Rattle.member_store.specs.Steps.{HasFirstFault, IsAcceptance, IsRefused, ReadsPush, TakesBody, is_signed};
ghost use Rattle.member_store.specs.Stores.{Store, has_position, leaf_of};
ghost use Rattle.member_store.specs.Takings.{Takes, keys_given};

use gd_cipher::a_text_is_opened_in_one_way;
use gd_edges::Verifier;

/// A refusal leaves the store as it was.
pub fn a_refusal_changes_nothing<V: Verifier>()
    ensures { (verifier : V) (store next : Store) (datagram : List ℕ) (why : PushRefusal) →
        IsAcceptance V.Verifier verifier store datagram (Err why) next → next ≡ store }
{}

/// A datagram has one answer, and leaves one store.
pub fn a_datagram_has_one_answer<V: Verifier>()
    ensures { (verifier : V) (store next other_next : Store) (datagram : List ℕ) (result other : Result Taken PushRefusal) →
        IsAcceptance V.Verifier verifier store datagram result next → IsAcceptance V.Verifier verifier store datagram other other_next →
        (result ≡ other) × (next ≡ other_next) }
{
    a_text_is_opened_in_one_way();
}

/// Where a cause holds, its refusal is the answer, and where none does the push is taken: so each refusal comes exactly where its cause is. They
/// are in their order.
pub fn each_cause_has_its_refusal<V: Verifier>()
    ensures header { (verifier : V) (store next : Store) (datagram : List ℕ) (fault : WireFault) (result : Result Taken PushRefusal) →
        IsAcceptance V.Verifier verifier store datagram result next → header_of datagram ≡ Err fault →
        IsRefused store (Malformed fault.at) result next }
    ensures other_spi { (verifier : V) (store next : Store) (datagram : List ℕ) (head : Header) (result : Result Taken PushRefusal) →
        IsAcceptance V.Verifier verifier store datagram result next → header_of datagram ≡ Ok head → head.cookies ≢ store.spi →
        IsRefused store (OtherSpi head.cookies store.spi) result next }
    ensures malformed { (verifier : V) (store next : Store) (datagram : List ℕ) (fault : WireFault) (result : Result Taken PushRefusal) →
        IsAcceptance V.Verifier verifier store datagram result next → HasFirstFault V.Verifier verifier store datagram fault →
        IsRefused store (Malformed fault.at) result next }
    ensures bad_signature { (verifier : V) (store next : Store) (datagram : List ℕ) (read : PushRead) (result : Result Taken PushRefusal) →
        IsAcceptance V.Verifier verifier store datagram result next → ReadsPush V.Verifier verifier store datagram read →
        is_signed V.Verifier verifier store datagram read ≡ false → IsRefused store BadSignature result next }
    ensures stale { (verifier : V) (store next : Store) (datagram : List ℕ) (read : PushRead) (result : Result Taken PushRefusal) →
        IsAcceptance V.Verifier verifier store datagram result next → ReadsPush V.Verifier verifier store datagram read →
        is_signed V.Verifier verifier store datagram read ≡ true → read.number ≤ store.sequence →
        IsRefused store (Stale store.sequence read.number) result next }
    ensures taken { (verifier : V) (store next : Store) (datagram : List ℕ) (read : PushRead) (result : Result Taken PushRefusal) →
        IsAcceptance V.Verifier verifier store datagram result next → ReadsPush V.Verifier verifier store datagram read →
        is_signed V.Verifier verifier store datagram read ≡ true → store.sequence < read.number →
        TakesBody read.body store read result next }
    ensures no_path { (verifier : V) (store next : Store) (datagram : List ℕ) (read : PushRead) (made : ℕ) (span : UpdateSpan) (taken : List PathKey)
        (result : Result Taken PushRefusal) → IsAcceptance V.Verifier verifier store datagram result next →
        ReadsPush V.Verifier verifier store datagram read → is_signed V.Verifier verifier store datagram read ≡ true →
        store.sequence < read.number → read.body ≡ Membership made span →
        Takes store.path (keys_given (span_arrays span read.keys)) taken → has_position taken 1 ≡ false →
        IsRefused store (NoPath (leaf_of store.path)) result next }
{
    a_text_is_opened_in_one_way();
}
