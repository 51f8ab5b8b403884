//! The bodies of payloads of fixed fields, in a text in which `read_chain` found the payload. The body of a GAP payload (RFC 6407 section
//! 5.4) is any octets: `Part::body`.
ghost use Rattle.std.specs.Prelude.{◌≡◌, ◌+◌, ◌≤◌, ◌++◌, length, OnOk, OnErr, IfOk};
ghost use Rattle.gd_wire.specs.Readings.{Gives, Shows, Answers, value_of};
ghost use Rattle.gd_wire.specs.Bodies.{body_cursor, length_place, due_size, sized, hash_octets, hash, nonce, signature, sequence};
ghost use Rattle.gd_wire.specs.Bodies.{sequence_text, identification, identification_text};

use crate::attributes::append;
use crate::chains::Part;
use crate::faults::fault;
use crate::kinds::{HASH_OCTETS, SEQUENCE_OCTETS};
use crate::numbers::write_u32;
use crate::readers::Reader;
use group_terms::{NoMemory, Octets, WireFault, WireWhat};

/// Who or what a payload names (RFC 2408 section 3.8).
#[derive(Clone, Copy, PartialEq, Eq)]
pub struct Identification<'a> {
    /// The kind of the identification.
    pub id_type: u8,
    pub octets: &'a [u8],
}

impl Part {
    /// A reader of its body.
    pub fn reader<'a>(&self, text: &'a [u8]) -> Reader<'a>
        requires within { self.now.start + self.now.length ≤ length text.now }
        requires small { self.now.at + 4 + self.now.length ≤ 4294967295 }
        ensures { result ≡ body_cursor text.now self.now }
    {
        Reader::new(self.body(text), self.at + 4)
    }

    /// The hash in a HASH payload (RFC 2408 section 3.11): 32 octets; else `Length`, at the payload's length.
    pub fn hash(&self, text: &[u8]) -> Result<[u8; HASH_OCTETS], WireFault>
        requires within { self.now.start + self.now.length ≤ length text.now }
        requires small { self.now.at + 4 + self.now.length ≤ 4294967295 }
        ensures { result ≡ value_of (hash (length_place self.now) (body_cursor text.now self.now)) }
    {
        hash(&mut self.reader(text), self.at + 2)
    }

    /// The octets of a nonce (RFC 2408 section 3.13): 8 to 128 of them; else `Length`, at the payload's length.
    pub fn nonce<'a>(&self, text: &'a [u8]) -> Result<&'a [u8], WireFault>
        requires within { self.now.start + self.now.length ≤ length text.now }
        requires small { self.now.at + 4 + self.now.length ≤ 4294967295 }
        ensures answer { Answers (λ octets. octets.now) result (nonce (length_place self.now) (body_cursor text.now self.now)) }
        ensures size { IfOk result (λ octets. (8 ≤ length octets.now) × (length octets.now ≤ 128)) }
    {
        nonce(&mut self.reader(text), self.at + 2)
    }

    /// The octets of a signature (RFC 2408 section 3.12): 1 to 512 of them; else `Length`, at the payload's length.
    pub fn signature<'a>(&self, text: &'a [u8]) -> Result<&'a [u8], WireFault>
        requires within { self.now.start + self.now.length ≤ length text.now }
        requires small { self.now.at + 4 + self.now.length ≤ 4294967295 }
        ensures { Answers (λ octets. octets.now) result (signature (length_place self.now) (body_cursor text.now self.now)) }
    {
        signature(&mut self.reader(text), self.at + 2)
    }

    /// The number in a SEQ payload (RFC 6407 section 5.7), of 4 octets; else `Length`, at the payload's length.
    pub fn sequence(&self, text: &[u8]) -> Result<u32, WireFault>
        requires within { self.now.start + self.now.length ≤ length text.now }
        requires small { self.now.at + 4 + self.now.length ≤ 4294967295 }
        ensures { result ≡ value_of (sequence (length_place self.now) (body_cursor text.now self.now)) }
    {
        sequence(&mut self.reader(text), self.at + 2)
    }

    /// What an ID payload names (RFC 2408 section 3.8); else `Short`, where a field that is missing would begin. The protocol and the port
    /// are not looked at.
    pub fn identification<'a>(&self, text: &'a [u8]) -> Result<Identification<'a>, WireFault>
        requires within { self.now.start + self.now.length ≤ length text.now }
        requires small { self.now.at + 4 + self.now.length ≤ 4294967295 }
        ensures { Answers (λ found. (found.id_type, found.octets.now)) result (identification (body_cursor text.now self.now)) }
    {
        identification_of(&mut self.reader(text))
    }
}

/// Finds that just `size` octets are left; else `Length`, at a place.
#[tactic(auto, unfolding(crate::specs::Bodies::due_size))]
fn due_size(reader: &Reader, size: usize, at: u32) -> Result<(), WireFault>
    ensures { Gives result reader.now (due_size size at reader.now) }
{
    if reader.left().len() != size {
        return Err(fault(WireWhat::Length, at));
    }
    Ok(())
}

/// All octets, at least `least` and at most `most`; else `Length`, at a place.
#[tactic(auto, unfolding(crate::specs::Bodies::sized))]
fn sized<'a>(
    reader: &mut Reader<'a>,
    least: usize,
    most: usize,
    at: u32,
) -> Result<&'a [u8], WireFault>
    ensures shows { Shows (λ octets. octets.now) result reader.new (sized least most at reader.old) }
    ensures size { IfOk result (λ octets. (least ≤ length octets.now) × (length octets.now ≤ most)) }
{
    let left = reader.left().len();
    if left < least || left > most {
        return Err(fault(WireWhat::Length, at));
    }
    Ok(reader.rest())
}

#[tactic(auto, unfolding(crate::specs::Bodies::hash))]
fn hash(reader: &mut Reader, at: u32) -> Result<[u8; HASH_OCTETS], WireFault>
    ensures { Gives result reader.new (hash at reader.old) }
{
    due_size(reader, HASH_OCTETS, at)?;
    reader.array()
}

#[tactic(auto, unfolding(crate::specs::Bodies::nonce))]
fn nonce<'a>(reader: &mut Reader<'a>, at: u32) -> Result<&'a [u8], WireFault>
    ensures shows { Shows (λ octets. octets.now) result reader.new (nonce at reader.old) }
    ensures size { IfOk result (λ octets. (8 ≤ length octets.now) × (length octets.now ≤ 128)) }
{
    sized(reader, 8, 128, at)
}

#[tactic(auto, unfolding(crate::specs::Bodies::signature))]
fn signature<'a>(reader: &mut Reader<'a>, at: u32) -> Result<&'a [u8], WireFault>
    ensures { Shows (λ octets. octets.now) result reader.new (signature at reader.old) }
{
    sized(reader, 1, 512, at)
}

#[tactic(auto, unfolding(crate::specs::Bodies::sequence))]
fn sequence(reader: &mut Reader, at: u32) -> Result<u32, WireFault>
    ensures { Gives result reader.new (sequence at reader.old) }
{
    due_size(reader, SEQUENCE_OCTETS, at)?;
    reader.long_number()
}

#[tactic(auto, unfolding(crate::specs::Bodies::identification))]
fn identification_of<'a>(reader: &mut Reader<'a>) -> Result<Identification<'a>, WireFault>
    ensures { Shows (λ found. (found.id_type, found.octets.now)) result reader.new (identification reader.old) }
{
    let id_type = reader.octet()?;
    reader.octet()?;
    reader.number()?;
    Ok(Identification {
        id_type,
        octets: reader.rest(),
    })
}

/// Appends the body of a SEQ payload (RFC 6407 section 5.7).
pub fn write_sequence(number: u32, out: &mut Octets) -> Result<(), NoMemory>
    ensures ok { OnOk result (out.new ≡ out.old ++ sequence_text number) }
    ensures err { OnErr result (out.new ≡ out.old) }
{
    write_u32(number, out)
}

/// Appends the body of an ID payload (RFC 2408 section 3.8), with protocol and port zero.
pub fn write_identification(id_type: u8, octets: &[u8], out: &mut Octets) -> Result<(), NoMemory>
    ensures ok { OnOk result (out.new ≡ out.old ++ identification_text id_type octets.now) }
    ensures err { OnErr result (out.new ≡ out.old) }
{
    append(&[id_type, 0, 0, 0], octets, out)
}
