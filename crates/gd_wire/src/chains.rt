//! Payloads one after the other, and the zeros after the last one.
ghost use Rattle.std.specs.Prelude.{◌≡◌, ℕ, List, ◌+◌, ◌-◌, ◌%◌, ◌≤◌, ◌<◌, ◌++◌, [], ◌∷◌, length, replicate, OnOk, OnErr, IfOk, IfErr, All};
ghost use Rattle.gd_wire.specs.Readings.{Cursor, Gives, value_of, from_start};
ghost use Rattle.gd_wire.specs.Chains.{due_named, named_first, payload, chain_end, chain, payload_text};
ghost use Rattle.gd_wire.specs.Chains.{PartFits, GoesThrough, body_of};
ghost use Rattle.gd_wire.specs.Payloads.{payload_head};

use crate::attributes::append;
use crate::faults::fault;
use crate::kinds::{BLOCK_OCTETS, HEADER_OCTETS, PAYLOAD_HEAD_OCTETS};
use crate::readers::Reader;
use arrayvec::ArrayVec;
use group_terms::{NoMemory, Octets, WireFault, WireWhat};
use std::marker::Model;

/// How many payloads a chain has at the most.
pub const MOST_PAYLOADS: usize = 8;

/// Where the header of a datagram names the kind of the first payload.
const FIRST: u32 = 16;

/// Where a payload is.
#[derive(Clone, Copy, Default, PartialEq, Eq)]
pub struct Part {
    pub kind: u8,
    /// The place of its generic header in the datagram.
    pub at: u32,
    /// Where its body begins in the text, and how many octets that has.
    pub start: usize,
    pub length: usize,
}

impl Part {
    /// Its body, in the text in which it was found.
    pub fn body<'a>(&self, text: &'a [u8]) -> &'a [u8]
        requires { self.now.start + self.now.length ≤ length text.now }
        ensures { result.now ≡ body_of text.now self.now }
    {
        &text[self.start..][..self.length]
    }
}

/// The payloads of a chain, in their order: at most 8.
#[derive(Drop)]
pub struct Chain {
    parts: ArrayVec<Part, MOST_PAYLOADS>,
}

impl Model for Chain {
    ghost use Rattle.std.specs.Prelude.{List};
    ghost use Rattle.gd_wire.specs.declared.chains.Part.{Part};

    ghost Value = { List Part };

    ghost view = { λ chain. chain.parts.items };
}

impl Chain {
    fn new() -> Self
        ensures { result ≡ [] }
    {
        Chain {
            parts: ArrayVec::new(),
        }
    }

    fn push(&mut self, part: Part)
        requires { length self.old < MOST_PAYLOADS }
        ensures { self.new ≡ self.old ++ part ∷ [] }
    {
        self.parts.push(part);
    }

    /// The payloads.
    pub fn parts(&self) -> &[Part]
        ensures { result.now ≡ self.now }
    {
        self.parts.as_slice()
    }
}

/// What is wrong with a chain first, and the payloads up to there.
#[derive(Drop)]
pub struct ChainFault {
    pub fault: WireFault,
    pub before: Chain,
}

/// Reads a chain of just these kinds of payloads, and the zeros after it (RFC 2408 section 3.2). Their bodies are not read.
///
/// `first` is the kind that the header of the datagram names, in the octet at 16; the text's first octet has the place `base` in the
/// datagram.
pub fn read_chain(first: u8, due: &[u8], text: &[u8], base: u32) -> Result<Chain, ChainFault>
    requires some { 0 < length due.now }
    requires few { length due.now ≤ MOST_PAYLOADS }
    requires small { base + length text.now ≤ 4294967295 }
    ensures answer { result ≡ chain first due.now (from_start base text.now) }
    ensures within { IfOk result (λ parts. All (PartFits text.now base) parts) }
    ensures before { IfErr result (λ error. All (PartFits text.now base) error.before) }
{
    chain_of(&mut Reader::new(text, base), first, due)
}

/// The kind that was named for the next payload, 0 for none, and the place in the datagram of the octet that names it.
#[derive(Clone, Copy, PartialEq, Eq)]
pub struct Named {
    pub kind: u8,
    pub at: u32,
}

impl Named {
    /// The kind that the header of a datagram names for the first payload.
    pub fn first(kind: u8) -> Self
        ensures { result ≡ named_first kind }
    {
        Named { kind, at: FIRST }
    }

    /// Finds that this kind was named; else `Kind`, where another one is.
    fn due(&self, kind: u8) -> Result<(), WireFault>
        ensures { (cursor : Cursor) → Gives result cursor (due_named kind self.now cursor) }
    {
        if self.kind != kind {
            let number = u16::from(self.kind);
            return Err(fault(WireWhat::Kind { number }, self.at));
        }
        Ok(())
    }
}

/// A chain of just these kinds.
fn chain_of(reader: &mut Reader, first: u8, due: &[u8]) -> Result<Chain, ChainFault>
    requires { length due.now ≤ MOST_PAYLOADS }
    ensures { result ≡ chain first due.now reader.old }
{
    let mut named = Named::first(first);
    let mut before = Chain::new();
    for kind in due {
        match next_payload(reader, *kind, named) {
            Ok((part, next)) => {
                before.push(part);
                named = next;
            }
            Err(fault) => return Err(ChainFault { fault, before }),
        }
    }
    match chain_end(reader, named) {
        Ok(()) => Ok(before),
        Err(fault) => Err(ChainFault { fault, before }),
    }
}

/// A payload of this kind, whose kind was named before (RFC 2408 section 3.2): where it is, and what it names; goes on after its body.
/// Else its first fault: `Kind` where another kind was named, `Short` where its header is not whole, `Reserved`, and `Length` where its
/// length is less than its header or leads out of the text.
pub fn payload(reader: &mut Reader, kind: u8, named: Named) -> Result<(Part, Named), WireFault>
    ensures gives { Gives result reader.new (payload kind named reader.old) }
    ensures lies { (text : List ℕ) (base : ℕ) → GoesThrough text base reader.old →
        IfOk result (λ read. PartFits text base read.0 × GoesThrough text base reader.new) }
    ensures rises { IfOk result (λ read. reader.old.at ≤ reader.new.at) }
{
    next_payload(reader, kind, named)
}

#[tactic(auto, unfolding(crate::specs::Chains::payload))]
fn next_payload(reader: &mut Reader, kind: u8, named: Named) -> Result<(Part, Named), WireFault>
    ensures { Gives result reader.new (payload kind named reader.old) }
{
    named.due(kind)?;
    let at = reader.here();
    if reader.left().len() < PAYLOAD_HEAD_OCTETS {
        return Err(fault(WireWhat::Short, at));
    }
    let next = reader.octet()?;
    reader.due_octet(0, WireWhat::Reserved)?;
    let length_at = reader.here();
    let size = usize::from(reader.number()?);
    if size < PAYLOAD_HEAD_OCTETS {
        return Err(fault(WireWhat::Length, length_at));
    }
    let start = reader.place();
    let length = size - PAYLOAD_HEAD_OCTETS;
    reader.part(length, WireWhat::Length, length_at)?;
    let part = Part {
        kind,
        at,
        start,
        length,
    };
    Ok((part, Named { kind: next, at }))
}

/// Finds that no payload was named, and that zeros alone fill a block (RFC 2409 appendix B). Else the first fault: `Kind` where one was
/// named, `Length` where 16 octets or more are left, and `Padding` at the first octet that is not zero.
#[tactic(auto, unfolding(crate::specs::Chains::chain_end))]
pub fn chain_end(reader: &Reader, named: Named) -> Result<(), WireFault>
    ensures { result ≡ value_of (chain_end named reader.now) }
{
    named.due(0)?;
    if reader.left().len() >= BLOCK_OCTETS {
        return Err(fault(WireWhat::Length, reader.here()));
    }
    reader.padding_end()
}

/// Appends a payload: the kind of the next one or 0, and a body (RFC 2408 section 3.2).
pub fn write_payload(next: u8, body: &[u8], out: &mut Octets) -> Result<(), NoMemory>
    requires { length body.now ≤ 65531 }
    ensures ok { OnOk result (out.new ≡ out.old ++ payload_text next body.now) }
    ensures err { OnErr result (out.new ≡ out.old) }
{
    append(&payload_head(next, body.len()), body, out)
}

/// Appends the header of a payload, whose body of `size` octets is appended next: the kind of the payload after it or 0, and its length
/// (RFC 2408 section 3.2).
pub fn write_payload_head(next: u8, size: usize, out: &mut Octets) -> Result<(), NoMemory>
    requires { size ≤ 65531 }
    ensures ok { OnOk result (out.new ≡ out.old ++ payload_head next size) }
    ensures err { OnErr result (out.new ≡ out.old) }
{
    out.extend(&payload_head(next, size))
}

/// Appends zeros up to the end of a block of the octets after the header of the datagram (RFC 2409 appendix B).
pub fn write_padding(out: &mut Octets) -> Result<(), NoMemory>
    requires { 28 ≤ length out.old }
    ensures ok { OnOk result (out.new ≡ out.old ++ replicate ((16 - (length out.old - 28) % 16) % 16) 0) }
    ensures err { OnErr result (out.new ≡ out.old) }
{
    let over = (out.len() - HEADER_OCTETS) % BLOCK_OCTETS;
    let zeros = (BLOCK_OCTETS - over) % BLOCK_OCTETS;
    out.extend(&[0; BLOCK_OCTETS][..zeros])?;
    Ok(())
}

/// The header of a payload whose body has `size` octets.
fn payload_head(next: u8, size: usize) -> [u8; PAYLOAD_HEAD_OCTETS]
    requires { size ≤ 65531 }
    ensures { result ≡ payload_head next size }
{
    let [high, low] = (size as u16 + 4).to_be_bytes();
    [next, 0, high, low]
}
