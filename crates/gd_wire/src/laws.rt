//! What is written is read again, and what is read is the one text of its fields.
ghost use Rattle.std.specs.Prelude.{◌≡◌, ◌+◌, ◌-◌, ◌%◌, ◌<◌, ◌≤◌, ℕ, List, []};
ghost use Rattle.std.specs.Prelude.{◌∷◌, ◌++◌, length, take, drop, replicate, All, Option, None, Ok};
ghost use Rattle.gd_wire.specs.declared.headers.Header.{Header};
ghost use Rattle.gd_wire.specs.declared.attributes.Attribute.{Attribute};
ghost use Rattle.gd_wire.specs.declared.attributes.AttrValue.TheVariants as Values;
ghost use Rattle.gd_wire.specs.Headers.{header_text, header, HeaderFits};
ghost use Rattle.byteorder.specs.Endian.{big_bytes};
ghost use Rattle.group_terms.specs.declared.wires.WireWhat.{WireWhat};
ghost use Rattle.gd_wire.specs.Attributes.{attribute_text, short_text, long_text};
ghost use Rattle.gd_wire.specs.Attributes.{attribute};
ghost use Rattle.gd_wire.specs.Bodies.{hash, nonce, sequence, sequence_text, signature, identification, identification_text};
ghost use Rattle.gd_wire.specs.Chains.{payload, payload_text, chain_end, body_of};
ghost use Rattle.group_terms.specs.Octets.{AreOctets};
ghost use Rattle.gd_wire.specs.declared.chains.Named.{Named};
ghost use Rattle.gd_wire.specs.declared.chains.Part.{Part};
ghost use Rattle.gd_wire.specs.Readings.{Cursor, value_of, from_start, from_place, part, octets, octet, number, long_number};
ghost use Rattle.gd_wire.specs.Chains.{Payload, first_kind, payloads_text, padded, payloads_at, kinds_of, PayloadsFit, chain};

/// A header that is written before a body that it suits is read.
pub fn a_written_header_is_read()
    ensures { (found : Header) (body : List ℕ) → HeaderFits found body →
        header found.exchange (from_start 0 (header_text found ++ body)) ≡ Ok (found, record { base = 0; at = 28; left = body }) }
{}

/// A datagram whose header was read is the text of its fields and what is left after them.
pub fn a_header_has_one_text()
    ensures { (exchange : ℕ) (datagram : List ℕ) (found : Header) (now : Cursor) → AreOctets datagram →
        header exchange (from_start 0 datagram) ≡ Ok (found, now) →
        datagram ≡ header_text found ++ now.left }
{}

/// A field that is written is read, whatever comes after it.
pub fn a_written_field_is_read()
    ensures octets { (base at : ℕ) (field later : List ℕ) →
        octets (length field) (record { base = base; at = at; left = field ++ later })
        ≡ Ok (field, record { base = base; at = at + length field; left = later }) }
    ensures octet { (base at value : ℕ) (later : List ℕ) →
        octet (record { base = base; at = at; left = value ∷ later }) ≡ Ok (value, record { base = base; at = at + 1; left = later }) }
    ensures number { (base at value : ℕ) (later : List ℕ) → value < 65536 →
        number (record { base = base; at = at; left = big_bytes 2 value ++ later })
        ≡ Ok (value, record { base = base; at = at + 2; left = later }) }
    ensures long_number { (base at value : ℕ) (later : List ℕ) → value < 4294967296 →
        long_number (record { base = base; at = at; left = big_bytes 4 value ++ later })
        ≡ Ok (value, record { base = base; at = at + 4; left = later }) }
{}

/// What is read of octets is octets: a part of them, and what is left after it.
pub fn parts_of_octets_are_octets()
    ensures { (size : ℕ) (what : WireWhat) (at : ℕ) (cursor field now : Cursor) → AreOctets cursor.left →
        part size what at cursor ≡ Ok (field, now) →
        AreOctets field.left × AreOctets now.left }
{}

/// An attribute that is written is read, whatever comes after it.
pub fn a_written_attribute_is_read()
    ensures short { (kind number base at : ℕ) (later : List ℕ) → kind < 32768 → number < 65536 →
        attribute (record { base = base; at = at; left = short_text kind number ++ later })
        ≡ Ok (record { kind = kind; value = Values.Short number; next = at + 4 }, record { base = base; at = at + 4; left = later }) }
    ensures long { (kind base at : ℕ) (value later : List ℕ) → kind < 32768 → length value < 65536 →
        attribute (record { base = base; at = at; left = long_text kind value ++ later })
        ≡ Ok (
          record { kind = kind; value = Values.Long (at + 4) (length value); next = at + 4 + length value },
          record { base = base; at = at + 4 + length value; left = later },
        ) }
{}

/// What was read as an attribute is the text of its kind and value.
pub fn an_attribute_has_one_text()
    ensures { (text : List ℕ) (at base : ℕ) (found : Attribute) (now : Cursor) → AreOctets text →
        attribute (from_place base at text) ≡ Ok (found, now) →
        drop at text ≡ attribute_text text found ++ now.left }
{}

/// The body of a HASH, a nonce, a SEQ, a SIG or an ID payload that is written is read.
pub fn a_written_body_is_read()
    ensures hash { (base at : ℕ) (octets : List ℕ) → length octets ≡ 32 →
        value_of (hash at (from_start base octets)) ≡ Ok octets }
    ensures nonce { (base at : ℕ) (octets : List ℕ) → 8 ≤ length octets → length octets ≤ 128 →
        value_of (nonce at (from_start base octets)) ≡ Ok octets }
    ensures signature { (base at : ℕ) (octets : List ℕ) → 1 ≤ length octets → length octets ≤ 512 →
        value_of (signature at (from_start base octets)) ≡ Ok octets }
    ensures sequence { (number base at : ℕ) → number < 4294967296 →
        value_of (sequence at (from_start base (sequence_text number))) ≡ Ok number }
    ensures identification { (type base : ℕ) (octets : List ℕ) →
        value_of (identification (from_start base (identification_text type octets))) ≡ Ok (type, octets) }
{}

/// A payload that is written is read wherever it is, if it is named before, and its body is found in the text; zeros end a chain.
pub fn a_written_payload_is_read()
    ensures payload { (kind next base at : ℕ) (named : Named) (body later : List ℕ) → named.kind ≡ kind → length body ≤ 65531 →
        payload kind named (record { base = base; at = at; left = payload_text next body ++ later })
        ≡ Ok (
          (record { kind = kind; at = base + at; start = at + 4; length = length body }, record { kind = next; at = base + at }),
          record { base = base; at = at + 4 + length body; left = later },
        ) }
    ensures body { (text : List ℕ) (kind next base at : ℕ) (body later : List ℕ) → drop at text ≡ payload_text next body ++ later →
        body_of text (record { kind = kind; at = base + at; start = at + 4; length = length body }) ≡ body }
    ensures end { (zeros base at named_at : ℕ) → zeros < 16 →
        value_of (chain_end (record { kind = 0; at = named_at }) (record { base = base; at = at; left = replicate zeros 0 })) ≡ Ok tt }
{}

/// Payloads that are written with fewer than 16 zeros after them are read.
pub fn written_payloads_are_read()
    ensures { (payloads : List Payload) (zeros base : ℕ) → PayloadsFit payloads → zeros < 16 →
        let text = payloads_text payloads ++ replicate zeros 0 in
        (parts : List Part) × (chain (first_kind payloads) (kinds_of payloads) (from_start base text) ≡ Ok parts)
        × (payloads_at text parts ≡ payloads) }
{}

/// A chain without fault is the text of its payloads, of the kinds that were due, with fewer than 16 zeros after; in a text of whole blocks
/// these are the zeros that fill the last one.
pub fn a_chain_has_one_text()
    ensures kinds { (text due : List ℕ) (base first : ℕ) (parts : List Part) → chain first due (from_start base text) ≡ Ok parts →
        kinds_of (payloads_at text parts) ≡ due }
    ensures text { (text due : List ℕ) (base first : ℕ) (parts : List Part) → AreOctets text →
        chain first due (from_start base text) ≡ Ok parts →
        (zeros : ℕ) × (zeros < 16) × (text ≡ payloads_text (payloads_at text parts) ++ replicate zeros 0) }
    ensures blocks { (text due : List ℕ) (base first : ℕ) (parts : List Part) → AreOctets text →
        chain first due (from_start base text) ≡ Ok parts →
        length text % 16 ≡ 0 → text ≡ padded (payloads_text (payloads_at text parts)) }
{}

/// What is read of a datagram of octets without fault can be written again: its header suits what is after it, and its
/// payloads can be written.
pub fn what_is_read_can_be_written()
    ensures header { (exchange : ℕ) (datagram : List ℕ) (found : Header) (now : Cursor) → AreOctets datagram →
        header exchange (from_start 0 datagram) ≡ Ok (found, now) →
        HeaderFits found now.left }
    ensures payloads { (text due : List ℕ) (base first : ℕ) (parts : List Part) → AreOctets text → first < 256 →
        chain first due (from_start base text) ≡ Ok parts →
        PayloadsFit (payloads_at text parts) }
{}
