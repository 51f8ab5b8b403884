//! Opening a push.
ghost use Rattle.std.specs.Prelude.{◌≡◌, ◌+◌, ◌<◌, ◌≤◌, ℕ, List, [], length, Ok, Err, IsErr, IfOk, false, true};
ghost use Rattle.gd_wire.specs.Chains.{PartFits, body_of};
ghost use Rattle.gd_wire.specs.Headers.{HasPayloads};
ghost use Rattle.gd_wire.specs.declared.chains.Part.{Part};
ghost use Rattle.gd_wire.specs.declared.headers.Header.{Header};
ghost use Rattle.group_terms.specs.declared.wires.WireFault.{WireFault};
ghost use Rattle.group_terms.specs.declared.pushes.PushRefusal.TheVariants.{OtherSpi, Malformed, BadSignature, Stale};
ghost use Rattle.push_msg.specs.Pushes.{header_of, Opens, Reads, HasFault, payloads_of, digest_of, given_by};
ghost use Rattle.push_msg.specs.Readings.{PushRead};

use crate::bodies::OpenPush;
use crate::digests::digest;
use crate::reading::read_push;
use crate::rooms::Room;
use gd_cipher::a_text_is_opened_in_one_way;
use gd_edges::Verifier;
use gd_wire::kinds::{HEADER_OCTETS, PUSH};
use gd_wire::{Header, Part, read_header};
use group_terms::{NodeValue, PushRefusal};

/// Opens a push for this SPI under this KEK (RFC 6407 section 4), where `last` is the number of the last one that was accepted. It takes no
/// memory.
///
/// Refused, in this order: a datagram without the header of a push (`Malformed`, at the first fault); one with other cookies than the SPI
/// (`OtherSpi`); one whose payloads are not those of a push, or name another SPI or another kind of signature than is due (`Malformed`, at
/// the first fault); one whose signature the verifier does not accept (`BadSignature`); and one whose number is not greater than `last`
/// (`Stale`). After a refusal the room has no octets; else it has the body of the key download.
pub fn open_push<V: Verifier>(
    datagram: &[u8],
    spi: &[u8; 16],
    kek: &NodeValue,
    last: u32,
    verifier: &V,
    room: &mut Room,
) -> Result<OpenPush, PushRefusal>
    ensures header { (fault : WireFault) → header_of datagram.now ≡ Err fault → result ≡ Err (Malformed fault.at) }
    ensures other_spi { (head : Header) → header_of datagram.now ≡ Ok head → (head.cookies ≡ spi.now → ⊥) →
        result ≡ Err (OtherSpi head.cookies spi.now) }
    ensures opened { (head : Header) → header_of datagram.now ≡ Ok head → head.cookies ≡ spi.now →
        (text : List ℕ) × Opens datagram.now spi.now kek.now head text }
    ensures malformed { (fault : WireFault) → HasFault datagram.now spi.now kek.now (V.kind_of verifier.now) fault →
        result ≡ Err (Malformed fault.at) }
    ensures bad_signature { (read : PushRead) → Reads datagram.now spi.now kek.now (V.kind_of verifier.now) read →
        V.accepts verifier.now (digest_of datagram.now read) read.signature ≡ false → result ≡ Err BadSignature }
    ensures stale { (read : PushRead) → Reads datagram.now spi.now kek.now (V.kind_of verifier.now) read →
        V.accepts verifier.now (digest_of datagram.now read) read.signature ≡ true →
        read.number ≤ last → result ≡ Err (Stale last read.number) }
    ensures ok { (read : PushRead) → Reads datagram.now spi.now kek.now (V.kind_of verifier.now) read →
        V.accepts verifier.now (digest_of datagram.now read) read.signature ≡ true →
        last < read.number → (result ≡ Ok (given_by read)) × (room.new ≡ read.keys) }
    ensures refused { IsErr result → room.new ≡ [] }
{
    a_text_is_opened_in_one_way();
    room.start = 0;
    room.size = 0;
    let head = push_header(datagram, spi)?;
    room.texts.open_text(&datagram[HEADER_OCTETS..], kek);
    let text = room.texts.text();
    match examine(datagram, spi, head.next, text, last, verifier) {
        Ok((open, keys)) => {
            room.start = keys.start;
            room.size = keys.length;
            Ok(open)
        }
        Err(refusal) => Err(refusal),
    }
}

/// Reads the header of a push for this SPI.
fn push_header(datagram: &[u8], spi: &[u8; 16]) -> Result<Header, PushRefusal>
    ensures header { (fault : WireFault) → header_of datagram.now ≡ Err fault → result ≡ Err (Malformed fault.at) }
    ensures other_spi { (head : Header) → header_of datagram.now ≡ Ok head → (head.cookies ≡ spi.now → ⊥) →
        result ≡ Err (OtherSpi head.cookies spi.now) }
    ensures ok { (head : Header) → header_of datagram.now ≡ Ok head → head.cookies ≡ spi.now → result ≡ Ok head }
    ensures sizes { IfOk result (λ head. HasPayloads datagram.now) }
{
    let head = match read_header(datagram, PUSH) {
        Ok(head) => head,
        Err(fault) => return Err(PushRefusal::Malformed { at: fault.at }),
    };
    if head.cookies != *spi {
        return Err(PushRefusal::OtherSpi {
            got: head.cookies,
            kept: *spi,
        });
    }
    Ok(head)
}

/// Reads the payloads of a push, whose header named the first one, and finds that its signature is accepted and its number greater; gives
/// where the key download is, too.
fn examine<V: Verifier>(
    datagram: &[u8],
    spi: &[u8; 16],
    first: u8,
    text: &[u8],
    last: u32,
    verifier: &V,
) -> Result<(OpenPush, Part), PushRefusal>
    requires long { 28 ≤ length datagram.now }
    requires small { 28 + length text.now ≤ 65507 }
    ensures malformed { (fault : WireFault) → payloads_of spi.now (V.kind_of verifier.now) first text.now ≡ Err fault →
        result ≡ Err (Malformed fault.at) }
    ensures bad_signature { (read : PushRead) → payloads_of spi.now (V.kind_of verifier.now) first text.now ≡ Ok read →
        V.accepts verifier.now (digest_of datagram.now read) read.signature ≡ false → result ≡ Err BadSignature }
    ensures stale { (read : PushRead) → payloads_of spi.now (V.kind_of verifier.now) first text.now ≡ Ok read →
        V.accepts verifier.now (digest_of datagram.now read) read.signature ≡ true →
        read.number ≤ last → result ≡ Err (Stale last read.number) }
    ensures ok { (read : PushRead) → payloads_of spi.now (V.kind_of verifier.now) first text.now ≡ Ok read →
        V.accepts verifier.now (digest_of datagram.now read) read.signature ≡ true →
        last < read.number →
        (keys : Part) × (result ≡ Ok (given_by read, keys)) × (body_of text.now keys ≡ read.keys) }
    ensures keys { IfOk result (λ found. PartFits text.now 28 found.1) }
{
    let read = match read_push(spi, verifier.kind(), text, first) {
        Ok(read) => read,
        Err(fault) => return Err(PushRefusal::Malformed { at: fault.at }),
    };
    let signed = digest(&datagram[..HEADER_OCTETS], &text[..read.signed]);
    if !verifier.check(&signed, read.signature) {
        return Err(PushRefusal::BadSignature);
    }
    if read.sequence <= last {
        return Err(PushRefusal::Stale {
            last,
            got: read.sequence,
        });
    }
    let open = OpenPush {
        sequence: read.sequence,
        body: read.body,
    };
    Ok((open, read.keys))
}
