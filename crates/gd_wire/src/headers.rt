//! The header of a datagram.
ghost use Rattle.std.specs.Prelude.{◌≡◌, IfOk};
ghost use Rattle.gd_wire.specs.Readings.{Gives, value_of, from_start};
ghost use Rattle.gd_wire.specs.Headers.{header_text, header, header_fields, message_id, told_length};
ghost use Rattle.gd_wire.specs.Headers.{suits_exchange, is_due_length, HasPayloads};

use crate::faults::fault;
use crate::kinds::{BLOCK_OCTETS, HEADER_OCTETS, MOST_OCTETS, PULL, PUSH};
use crate::readers::Reader;
use arrayvec::ArrayVec;
use byteorder::{BigEndian, ByteOrder};
use group_terms::{WireFault, WireWhat};

/// What a header says (RFC 2408 section 3.1).
#[derive(Clone, Copy, PartialEq, Eq)]
pub struct Header {
    /// The cookies of initiator and responder.
    pub cookies: [u8; 16],
    /// The kind of the first payload.
    pub next: u8,
    /// 32 for a pull, 33 for a push.
    pub exchange: u8,
    /// The message id.
    pub message: [u8; 4],
    /// How many octets the datagram has.
    pub length: u32,
}

/// Reads the header of a datagram of this exchange; else the first fault: a header that is cut off is a fault at the datagram's end, a
/// datagram of more than 65,507 octets at that place, and anything else at its field. After a header without fault there are whole blocks.
pub fn read_header(datagram: &[u8], exchange: u8) -> Result<Header, WireFault>
    ensures answer { result ≡ value_of (header exchange (from_start 0 datagram.now)) }
    ensures sizes { IfOk result (λ header. HasPayloads datagram.now) }
{
    Ok(header_of(datagram, exchange)?)
}

#[tactic(auto, unfolding(crate::specs::Headers::header))]
fn header_of(datagram: &[u8], exchange: u8) -> Result<Header, WireFault>
    ensures { result ≡ value_of (header exchange (from_start 0 datagram.now)) }
{
    let size = datagram.len();
    if size < HEADER_OCTETS {
        return Err(fault(WireWhat::Short, size as u32));
    }
    if size > MOST_OCTETS {
        return Err(fault(WireWhat::Length, MOST_OCTETS as u32));
    }
    header_fields(&mut Reader::new(datagram, 0), exchange, size)
}

/// The fields of a header of a datagram of `size` octets.
#[tactic(auto, unfolding(crate::specs::Headers::header_fields))]
fn header_fields(reader: &mut Reader, exchange: u8, size: usize) -> Result<Header, WireFault>
    ensures { Gives result reader.new (header_fields exchange size reader.old) }
{
    let cookies = reader.array()?;
    let next = reader.octet()?;
    reader.due_octet(0x10, WireWhat::Version)?;
    let kind = reader.due_kind(&[exchange])?;
    reader.due_octet(0x01, WireWhat::Value)?;
    let message = message_id(reader, exchange)?;
    let length = told_length(reader, size)?;
    Ok(Header {
        cookies,
        next,
        exchange: kind,
        message,
        length,
    })
}

/// The message id, which has to suit the exchange; else `Value`.
#[tactic(auto, unfolding(crate::specs::Headers::message_id))]
fn message_id(reader: &mut Reader, exchange: u8) -> Result<[u8; 4], WireFault>
    ensures { Gives result reader.new (message_id exchange reader.old) }
{
    let at = reader.here();
    let message = reader.array()?;
    if !suits_exchange(exchange, BigEndian::read_u32(&message)) {
        return Err(fault(WireWhat::Value, at));
    }
    Ok(message)
}

/// The length, which has to be that of a datagram of `size` octets; else `Length`.
#[tactic(auto, unfolding(crate::specs::Headers::told_length))]
fn told_length(reader: &mut Reader, size: usize) -> Result<u32, WireFault>
    ensures { Gives result reader.new (told_length size reader.old) }
{
    let at = reader.here();
    let told = reader.long_number()?;
    if !is_due_length(told, size) {
        return Err(fault(WireWhat::Length, at));
    }
    Ok(told)
}

/// Whether a message id suits an exchange: that of a pull is not zero, that of a push is; of others nothing is asked.
fn suits_exchange(exchange: u8, message: u32) -> bool
    ensures { result ≡ suits_exchange exchange message }
{
    match exchange {
        PULL => message != 0,
        PUSH => message == 0,
        _ => true,
    }
}

/// Whether a datagram has the length in its header, and whole blocks after its header.
fn is_due_length(told: u32, long: usize) -> bool
    ensures { result ≡ is_due_length told long }
{
    told as usize == long && long > HEADER_OCTETS && (long - HEADER_OCTETS) % BLOCK_OCTETS == 0
}

/// The 28 octets of a header.
pub fn write_header(header: &Header) -> [u8; HEADER_OCTETS]
    ensures { result ≡ header_text header.now }
{
    let mut text = ArrayVec::<u8, HEADER_OCTETS>::new();
    text.try_extend_from_slice(&header.cookies).unwrap();
    text.try_extend_from_slice(&[header.next, 0x10, header.exchange, 0x01])
        .unwrap();
    text.try_extend_from_slice(&header.message).unwrap();
    text.try_extend_from_slice(&header.length.to_be_bytes())
        .unwrap();
    text.into_inner().unwrap()
}
