//! What is written is octets, and a payload is its header and its body.
ghost use Rattle.std.specs.Prelude.{◌≡◌, ◌<◌, ℕ, List, ◌++◌, length};
ghost use Rattle.byteorder.specs.Endian.{big_bytes};
ghost use Rattle.group_terms.specs.Octets.{IsOctet, AreOctets};
ghost use Rattle.gd_wire.specs.declared.headers.Header.{Header};
ghost use Rattle.gd_wire.specs.Attributes.{short_text, long_text};
ghost use Rattle.gd_wire.specs.Chains.{Payload, PayloadsFit, payload_text, payloads_text};
ghost use Rattle.gd_wire.specs.Headers.{header_text, HeaderFits};
ghost use Rattle.gd_wire.specs.Payloads.{payload_head};

/// A payload is its header, and after that its body.
pub fn a_payload_is_its_head_and_its_body()
    ensures { (next : ℕ) (body : List ℕ) → payload_head next (length body) ++ body ≡ payload_text next body }
{}

/// Numbers, attributes, payloads and headers are octets, where what they are written of is.
pub fn written_framing_is_octets()
    ensures number { (size number : ℕ) → AreOctets (big_bytes size number) }
    ensures short { (kind number : ℕ) → AreOctets (short_text kind number) }
    ensures long { (kind : ℕ) (value : List ℕ) → AreOctets value → AreOctets (long_text kind value) }
    ensures head { (next size : ℕ) → IsOctet next → AreOctets (payload_head next size) }
    ensures payload { (next : ℕ) (body : List ℕ) → IsOctet next → AreOctets body → AreOctets (payload_text next body) }
    ensures payloads { (payloads : List Payload) → PayloadsFit payloads → AreOctets (payloads_text payloads) }
    ensures header { (header : Header) (body : List ℕ) → HeaderFits header body → AreOctets (header_text header) }
{}
