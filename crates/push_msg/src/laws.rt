//! A push that was written is read again, and how long it is.
ghost use Rattle.std.specs.Prelude.{◌≡◌, ◌≤◌, ◌+◌, ◌*◌, ℕ, List, length};
ghost use Rattle.gd_wire.specs.Chains.{filled};
ghost use Rattle.group_terms.specs.Octets.{AreOctets};
ghost use Rattle.group_terms.specs.declared.signatures.SignKind.{SignKind};
ghost use Rattle.group_terms.specs.declared.values.NodeValue.{NodeValue};
ghost use Rattle.group_terms.specs.declared.values.TrafficValue.{TrafficValue};
ghost use Rattle.kd_wire.specs.declared.sealing.WrapJob.{WrapJob};
ghost use Rattle.kd_wire.specs.declared.spans.UpdateSpan.{UpdateSpan};
ghost use Rattle.kd_wire.specs.declared.updates.UpdateArray.{UpdateArray};
ghost use Rattle.kd_wire.specs.Spans.{span_arrays};
ghost use Rattle.kd_wire.specs.Texts.{TrafficFits, AreUpdateTexts, update_kd};
ghost use Rattle.kd_wire.specs.UpdateTexts.{AreUpdates};
ghost use Rattle.kd_wire.specs.Widths.{update_octets, update_kd_octets, traffic_kd_octets};
ghost use Rattle.push_msg.specs.declared.bodies.OpenBody.TheVariants.{Membership, Traffic};
ghost use Rattle.push_msg.specs.declared.writers.PushHead.{PushHead};
ghost use Rattle.push_msg.specs.Readings.{epoch_of};
ghost use Rattle.push_msg.specs.Texts.{membership_push, traffic_push, IsPushText};
ghost use Rattle.push_msg.specs.Written.{HeadFits, KekFits, KindFits, IsReadAs};

use kd_wire::{
    a_span_has_the_arrays_that_were_read, a_written_text_of_updates_is_read,
    a_written_traffic_key_is_read, written_texts_are_octets, written_texts_have_their_size,
};
use sa_wire::{
    written_policies_are_octets, written_policies_are_read, written_policies_have_their_size,
};

/// A push that is written is read under its own KEK, for its SPI and where the verifier checks signatures of its signer's kind: its number,
/// what it gives, and a signature of what was sent.
pub fn a_written_push_is_read()
    ensures membership { (sign : List ℕ → List ℕ) (size : ℕ) (kind : SignKind) (head : PushHead) (kek : NodeValue)
        (given : List UpdateArray) (arrays datagram : List ℕ) →
        HeadFits head → KekFits kek → KindFits kind → AreOctets arrays → length arrays ≤ 64000 → AreUpdates given arrays →
        IsPushText sign size kek (membership_push head kind arrays) datagram →
        (span : UpdateSpan) × (span_arrays span (update_kd head.spi arrays) ≡ given)
        × IsReadAs sign kind kek (membership_push head kind arrays) (Membership (epoch_of given) span) datagram }
    ensures traffic { (sign : List ℕ → List ℕ) (size : ℕ) (kind : SignKind) (head : PushHead) (kek : NodeValue)
        (traffic : TrafficValue) (datagram : List ℕ) →
        HeadFits head → KekFits kek → TrafficFits traffic →
        IsPushText sign size kek (traffic_push head traffic) datagram →
        IsReadAs sign kind kek (traffic_push head traffic) (Traffic traffic) datagram }
{
    a_span_has_the_arrays_that_were_read();
    a_written_text_of_updates_is_read();
    a_written_traffic_key_is_read();
    written_texts_are_octets();
    written_texts_have_their_size();
    written_policies_are_octets();
    written_policies_are_read();
    written_policies_have_their_size();
}

/// A push has 28 octets of header, and whole blocks for its payloads: 105 octets, the body of its key download and the signature for a
/// membership push, and 83, that body and the signature for a traffic push. With signatures of 32 octets that are 204 octets and the update
/// arrays, and 220.
pub fn written_pushes_have_their_size()
    ensures membership { (sign : List ℕ → List ℕ) (size : ℕ) (kind : SignKind) (head : PushHead) (kek : NodeValue)
        (jobs : List WrapJob) (arrays datagram : List ℕ) →
        HeadFits head → KindFits kind → AreUpdateTexts jobs arrays →
        IsPushText sign size kek (membership_push head kind arrays) datagram →
        length datagram ≡ 28 + filled (105 + update_kd_octets (length jobs) + size) }
    ensures membership_of_32 { (sign : List ℕ → List ℕ) (kind : SignKind) (head : PushHead) (kek : NodeValue)
        (jobs : List WrapJob) (arrays datagram : List ℕ) →
        HeadFits head → KindFits kind → AreUpdateTexts jobs arrays →
        IsPushText sign 32 kek (membership_push head kind arrays) datagram →
        length datagram ≡ 204 + update_octets * length jobs }
    ensures traffic { (sign : List ℕ → List ℕ) (size : ℕ) (head : PushHead) (kek : NodeValue)
        (traffic : TrafficValue) (datagram : List ℕ) →
        HeadFits head → TrafficFits traffic → IsPushText sign size kek (traffic_push head traffic) datagram →
        length datagram ≡ 28 + filled (83 + traffic_kd_octets + size) }
    ensures traffic_of_32 { (sign : List ℕ → List ℕ) (head : PushHead) (kek : NodeValue) (traffic : TrafficValue) (datagram : List ℕ) →
        HeadFits head → TrafficFits traffic → IsPushText sign 32 kek (traffic_push head traffic) datagram → length datagram ≡ 220 }
{
    written_texts_have_their_size();
    written_policies_have_their_size();
}
