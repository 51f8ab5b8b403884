//! A cursor over the octets of a text: its fields are read one after the other.
ghost use Rattle.std.specs.Prelude.{◌≡◌, ◌+◌, ◌≤◌, ◌<◌, ◌==◌, ◌↔◌, [], length, not, IsTrue, IfOk, IfSome, Ok};
ghost use Rattle.std.specs.List.{position};
ghost use Rattle.gd_wire.specs.Readings.{Gives, Shows, value_of, from_start, from_place, octets_left, part, octets, rest, octet, number, long_number};
ghost use Rattle.gd_wire.specs.Readings.{due_octet, due_number, due_long_number, due_kind, due_long_kind, end, padding_end, section};

use crate::faults::fault;
use crate::kinds::PAYLOAD_HEAD_OCTETS;
use byteorder::{BigEndian, ByteOrder};
use group_terms::{WireFault, WireWhat};
use std::marker::Model;

/// What is left of a text, whose fields are read one after the other. It takes no memory.
///
/// Each call that reads gives a field and goes on after it, or tells the first fault, with its place in the datagram. Where a call tells a
/// fault the text is not read on.
#[derive(Drop)]
pub struct Reader<'a> {
    base: u32,
    at: usize,
    left: &'a [u8],
}

impl<'a> Model for Reader<'a> {
    ghost use Rattle.std.specs.Prelude.{◌+◌, ◌≤◌, length};
    ghost use Rattle.gd_wire.specs.Readings.{Cursor};

    ghost Value = { Cursor };

    ghost view = { λ reader. record { base = reader.base; at = reader.at; left = reader.left.now } };

    ghost invariant = { λ reader. reader.base + reader.at + length reader.left.now ≤ 4294967295 };
}

impl<'a> Reader<'a> {
    /// A text from its first octet on, which has the place `base` in its datagram.
    pub fn new(text: &'a [u8], base: u32) -> Self
        requires small { base + length text.now ≤ 4294967295 }
        ensures { result ≡ from_start base text.now }
    {
        Reader {
            base,
            at: 0,
            left: text,
        }
    }

    /// The place of the next octet in the text.
    pub fn place(&self) -> usize
        ensures { result ≡ self.now.at }
    {
        self.at
    }

    /// The place of the next octet in the datagram, where a fault is told.
    pub fn here(&self) -> u32
        ensures { result ≡ self.now.base + self.now.at }
    {
        self.base + self.at as u32
    }

    /// The octets that are left.
    pub fn left(&self) -> &'a [u8]
        ensures { result.now ≡ self.now.left }
    {
        self.left
    }

    /// How many octets are left.
    pub fn octets_left(&self) -> u32
        ensures { octets_left self.now ≡ Ok (result, self.now) }
    {
        self.left.len() as u32
    }

    /// Another reader of the octets that are left, at the same place.
    pub fn again(&self) -> Reader<'a>
        ensures { result ≡ self.now }
    {
        Reader {
            base: self.base,
            at: self.at,
            left: self.left,
        }
    }

    /// Whether nothing is left.
    pub fn is_at_end(&self) -> bool
        ensures { IsTrue result ↔ (self.now.left ≡ []) }
    {
        self.left.is_empty()
    }

    /// The next `size` octets, as a text of their own; else this fault at a place.
    #[tactic(auto, unfolding(crate::specs::Readings::part))]
    pub fn part(&mut self, size: usize, what: WireWhat, at: u32) -> Result<Reader<'a>, WireFault>
        ensures gives { Gives result self.new (part size what at self.old) }
        ensures size { IfOk result (λ text. length text.left ≡ size) }
    {
        if self.left.len() < size {
            return Err(fault(what, at));
        }
        let place = self.at;
        let (field, left) = self.left.split_at(size);
        self.at += size;
        self.left = left;
        Ok(Reader {
            base: self.base,
            at: place,
            left: field,
        })
    }

    /// The next `size` octets; else `Short`, where the first would be.
    #[tactic(auto, unfolding(crate::specs::Readings::octets))]
    pub fn octets(&mut self, size: usize) -> Result<&'a [u8], WireFault>
        ensures gives { Shows (λ field. field.now) result self.new (octets size self.old) }
        ensures size { IfOk result (λ field. length field.now ≡ size) }
    {
        let at = self.here();
        let field = self.part(size, WireWhat::Short, at)?;
        Ok(field.left())
    }

    /// The next `N` octets; else `Short`, where the first would be.
    pub fn array<const N: usize>(&mut self) -> Result<[u8; N], WireFault>
        ensures { Gives result self.new (octets N self.old) }
    {
        let field = self.octets(N)?;
        Ok(*field.first_chunk().unwrap())
    }

    /// All octets that are left.
    pub fn rest(&mut self) -> &'a [u8]
        ensures { rest self.old ≡ Ok (result.now, self.new) }
    {
        let (field, left) = self.left.split_at(self.left.len());
        self.at += field.len();
        self.left = left;
        field
    }

    /// The next octet; else `Short`.
    #[tactic(auto, unfolding(crate::specs::Readings::octet))]
    pub fn octet(&mut self) -> Result<u8, WireFault>
        ensures { Gives result self.new (octet self.old) }
    {
        Ok(self.octets(1)?[0])
    }

    /// The number in the next 2 octets; else `Short`.
    #[tactic(auto, unfolding(crate::specs::Readings::number))]
    pub fn number(&mut self) -> Result<u16, WireFault>
        ensures { Gives result self.new (number self.old) }
    {
        Ok(BigEndian::read_u16(self.octets(2)?))
    }

    /// The number in the next 4 octets; else `Short`.
    #[tactic(auto, unfolding(crate::specs::Readings::long_number))]
    pub fn long_number(&mut self) -> Result<u32, WireFault>
        ensures { Gives result self.new (long_number self.old) }
    {
        Ok(BigEndian::read_u32(self.octets(4)?))
    }

    /// The next octet, which has to be this one; else this fault, where it is.
    #[tactic(auto, unfolding(crate::specs::Readings::due_octet))]
    pub fn due_octet(&mut self, due: u8, what: WireWhat) -> Result<(), WireFault>
        ensures { Gives result self.new (due_octet due what self.old) }
    {
        let at = self.here();
        if self.octet()? != due {
            return Err(fault(what, at));
        }
        Ok(())
    }

    /// The number in the next 2 octets, which has to be this one; else this fault, where it begins.
    #[tactic(auto, unfolding(crate::specs::Readings::due_number))]
    pub fn due_number(&mut self, due: u16, what: WireWhat) -> Result<(), WireFault>
        ensures { Gives result self.new (due_number due what self.old) }
    {
        let at = self.here();
        if self.number()? != due {
            return Err(fault(what, at));
        }
        Ok(())
    }

    /// The number in the next 4 octets, which has to be this one; else this fault, where it begins.
    #[tactic(auto, unfolding(crate::specs::Readings::due_long_number))]
    pub fn due_long_number(&mut self, due: u32, what: WireWhat) -> Result<(), WireFault>
        ensures { Gives result self.new (due_long_number due what self.old) }
    {
        let at = self.here();
        if self.long_number()? != due {
            return Err(fault(what, at));
        }
        Ok(())
    }

    /// The kind in the next octet, which has to be one of these; else `Kind`, where it is.
    #[tactic(auto, unfolding(crate::specs::Readings::due_kind))]
    pub fn due_kind(&mut self, kinds: &[u8]) -> Result<u8, WireFault>
        ensures { Gives result self.new (due_kind kinds.now self.old) }
    {
        let at = self.here();
        let kind = self.octet()?;
        if !kinds.contains(&kind) {
            let number = u16::from(kind);
            return Err(fault(WireWhat::Kind { number }, at));
        }
        Ok(kind)
    }

    /// The kind in the next 2 octets, which has to be one of these; else `Kind`, where it begins.
    #[tactic(auto, unfolding(crate::specs::Readings::due_long_kind))]
    pub fn due_long_kind(&mut self, kinds: &[u16]) -> Result<u16, WireFault>
        ensures { Gives result self.new (due_long_kind kinds.now self.old) }
    {
        let at = self.here();
        let number = self.number()?;
        if !kinds.contains(&number) {
            return Err(fault(WireWhat::Kind { number }, at));
        }
        Ok(number)
    }

    /// Finds that nothing is left; else `Length`, at the next octet.
    #[tactic(auto, unfolding(crate::specs::Readings::end))]
    pub fn end(&self) -> Result<(), WireFault>
        ensures { Gives result self.now (end self.now) }
    {
        if !self.left.is_empty() {
            return Err(fault(WireWhat::Length, self.here()));
        }
        Ok(())
    }

    /// Finds that zeros alone are left; else `Padding`, at the first octet that is none.
    pub fn padding_end(&self) -> Result<(), WireFault>
        ensures { result ≡ value_of (padding_end self.now) }
    {
        match first_other(self.left) {
            Some(other) => Err(fault(WireWhat::Padding, self.here_after(other))),
            None => Ok(()),
        }
    }

    /// A section, whose kind has to be one of these, its own or that of the next one: the kind and the body. Else its first fault: `Short`
    /// where a field is not whole, `Kind`, `Reserved` where the reserved octet is not zero, and `Length` where the length is less than the
    /// header or leads out of the text.
    #[tactic(auto, unfolding(crate::specs::Readings::section))]
    pub fn section(&mut self, kinds: &[u8]) -> Result<(u8, Reader<'a>), WireFault>
        ensures { Gives result self.new (section kinds.now self.old) }
    {
        let kind = self.due_kind(kinds)?;
        self.due_octet(0, WireWhat::Reserved)?;
        let at = self.here();
        let size = usize::from(self.number()?);
        if size < PAYLOAD_HEAD_OCTETS {
            return Err(fault(WireWhat::Length, at));
        }
        let body = self.part(size - PAYLOAD_HEAD_OCTETS, WireWhat::Length, at)?;
        Ok((kind, body))
    }

    /// What is left of a text from a place on, the place of whose first octet in its datagram is `base`.
    pub fn at_place(text: &'a [u8], at: usize, base: u32) -> Self
        requires within { at ≤ length text.now }
        requires small { base + length text.now ≤ 4294967295 }
        ensures { result ≡ from_place base at text.now }
    {
        let (_, left) = text.split_at(at);
        Reader { base, at, left }
    }

    /// The place in the datagram of the octet after `size` more.
    pub fn here_after(&self, size: usize) -> u32
        requires { size ≤ length self.now.left }
        ensures { result ≡ self.now.base + self.now.at + size }
    {
        self.base + (self.at + size) as u32
    }
}

/// Where the first octet is that is not zero.
fn first_other(octets: &[u8]) -> Option<usize>
    ensures place { result ≡ position (λ octet. not (octet == 0)) octets.now }
    ensures within { IfSome result (λ place. place < length octets.now) }
{
    octets.iter().position(|octet| *octet != 0)
}
