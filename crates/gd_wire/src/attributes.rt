//! Data attributes.
ghost use Rattle.std.specs.Prelude.{◌≡◌, ◌+◌, ◌≤◌, ◌++◌, length, Ok, IfOk, OnOk, OnErr};
ghost use Rattle.gd_wire.specs.Attributes.{attribute_type, short_value, long_value, long_place, attribute, next_has_kind};
ghost use Rattle.gd_wire.specs.Attributes.{other_attribute, no_more_attributes};
ghost use Rattle.gd_wire.specs.Readings.{Gives, value_of, from_place};
ghost use Rattle.gd_wire.specs.Attributes.{short_text, long_text};

use crate::faults::fault;
use crate::readers::Reader;
use byteorder::{BigEndian, ByteOrder};
use group_terms::{NoMemory, Octets, WireFault, WireWhat};

/// The bit of the short form.
const SHORT_FORM: u16 = 0x8000;

/// What an attribute says (RFC 2408 section 3.3).
#[derive(Clone, Copy, PartialEq, Eq)]
pub struct Attribute {
    /// Its kind, without the bit of the form.
    pub kind: u16,
    pub value: AttrValue,
    /// The place in the text of what is after it.
    pub next: usize,
}

/// The value of an attribute.
#[derive(Clone, Copy, PartialEq, Eq)]
pub enum AttrValue {
    /// A number.
    Short { number: u16 },
    /// Octets of the text.
    Long { start: usize, length: usize },
}

/// The type of an attribute.
#[derive(Clone, Copy, PartialEq, Eq)]
pub struct AttributeType {
    pub kind: u16,
    /// Whether a number comes next, in the short form.
    pub is_short: bool,
}

/// The type of the next attribute; else `Short`.
#[tactic(auto, unfolding(crate::specs::Attributes::attribute_type))]
pub fn attribute_type(reader: &mut Reader) -> Result<AttributeType, WireFault>
    ensures { Gives result reader.new (attribute_type reader.old) }
{
    let number = reader.number()?;
    Ok(AttributeType {
        kind: number % SHORT_FORM,
        is_short: number >= SHORT_FORM,
    })
}

/// The value of an attribute in the long form, as a text of its own; else `Short`.
#[tactic(auto, unfolding(crate::specs::Attributes::long_value))]
pub fn long_value<'a>(reader: &mut Reader<'a>) -> Result<Reader<'a>, WireFault>
    ensures { Gives result reader.new (long_value reader.old) }
{
    let size = usize::from(reader.number()?);
    let at = reader.here();
    let value = reader.part(size, WireWhat::Short, at)?;
    Ok(value)
}

#[tactic(auto, unfolding(crate::specs::Attributes::short_value))]
fn short_value(reader: &mut Reader) -> Result<AttrValue, WireFault>
    ensures { Gives result reader.new (short_value reader.old) }
{
    let number = reader.number()?;
    Ok(AttrValue::Short { number })
}

#[tactic(auto, unfolding(crate::specs::Attributes::long_place))]
fn long_place(reader: &mut Reader) -> Result<AttrValue, WireFault>
    ensures { Gives result reader.new (long_place reader.old) }
{
    let value = long_value(reader)?;
    Ok(AttrValue::Long {
        start: value.place(),
        length: value.left().len(),
    })
}

/// The next attribute; else `Short`, where the first field that is missing would begin.
#[tactic(auto, unfolding(crate::specs::Attributes::attribute))]
pub fn next_attribute(reader: &mut Reader) -> Result<Attribute, WireFault>
    ensures { Gives result reader.new (attribute reader.old) }
{
    let attribute_type = attribute_type(reader)?;
    let value = if attribute_type.is_short {
        short_value(reader)?
    } else {
        long_place(reader)?
    };
    Ok(Attribute {
        kind: attribute_type.kind,
        value,
        next: reader.place(),
    })
}

/// Whether the next two octets are the type of an attribute of this kind.
pub fn next_has_kind(reader: &Reader, kind: u16) -> bool
    ensures { next_has_kind kind reader.now ≡ Ok (result, reader.now) }
{
    let left = reader.left();
    left.len() >= 2 && BigEndian::read_u16(left) % SHORT_FORM == kind
}

/// An attribute that is not awaited.
#[tactic(auto, unfolding(crate::specs::Attributes::other_attribute))]
fn other_attribute(reader: &mut Reader) -> Result<(), WireFault>
    ensures { Gives result reader.new (other_attribute reader.old) }
{
    let at = reader.here();
    let number = attribute_type(reader)?.kind;
    Err(fault(WireWhat::Kind { number }, at))
}

/// Finds that no attribute is left; else `Short` where only a part of a type is left, and `Kind` at a type.
#[tactic(auto, unfolding(crate::specs::Attributes::no_more_attributes))]
pub fn no_more_attributes(reader: &mut Reader) -> Result<(), WireFault>
    ensures { Gives result reader.new (no_more_attributes reader.old) }
{
    if reader.is_at_end() {
        return Ok(());
    }
    other_attribute(reader)
}

/// Reads the attribute at a place of a text whose first octet has the place `base` in its datagram; else `Short`, where the first field
/// that is missing would begin.
pub fn read_attribute(text: &[u8], at: usize, base: u32) -> Result<Attribute, WireFault>
    requires within { at ≤ length text.now }
    requires small { base + length text.now ≤ 4294967295 }
    ensures answer { result ≡ value_of (attribute (from_place base at text.now)) }
    ensures within { IfOk result (λ attribute. (at + 4 ≤ attribute.next) × (attribute.next ≤ length text.now)) }
{
    next_attribute(&mut Reader::at_place(text, at, base))
}

/// Appends an attribute in the short form.
pub fn write_short(kind: u16, number: u16, out: &mut Octets) -> Result<(), NoMemory>
    requires { kind ≤ 32767 }
    ensures ok { OnOk result (out.new ≡ out.old ++ short_text kind number) }
    ensures err { OnErr result (out.new ≡ out.old) }
{
    let [form, low] = (SHORT_FORM + kind).to_be_bytes();
    let [first, second] = number.to_be_bytes();
    out.extend(&[form, low, first, second])
}

/// Appends an attribute in the long form.
pub fn write_long(kind: u16, value: &[u8], out: &mut Octets) -> Result<(), NoMemory>
    requires kind { kind ≤ 32767 }
    requires value { length value.now ≤ 65535 }
    ensures ok { OnOk result (out.new ≡ out.old ++ long_text kind value.now) }
    ensures err { OnErr result (out.new ≡ out.old) }
{
    let [high, low] = kind.to_be_bytes();
    let [first, second] = (value.len() as u16).to_be_bytes();
    append(&[high, low, first, second], value, out)
}

/// Appends two pieces, or neither.
pub(crate) fn append(head: &[u8], value: &[u8], out: &mut Octets) -> Result<(), NoMemory>
    ensures ok { OnOk result (out.new ≡ out.old ++ head.now ++ value.now) }
    ensures err { OnErr result (out.new ≡ out.old) }
{
    let before = out.len();
    out.extend(head)?;
    let appended = out.extend(value);
    out.keep_or_truncate(before, appended)
}
