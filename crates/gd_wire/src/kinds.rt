//! Numbers that several messages share: the kinds of payloads, the exchanges, and sizes.

/// Policies (RFC 6407 section 5.2).
pub const SA: u8 = 1;

/// An identification (RFC 2408 section 3.8).
pub const IDENTIFICATION: u8 = 5;

/// A HASH (RFC 2408 section 3.11).
pub const HASH: u8 = 8;

/// A signature (RFC 2408 section 3.12).
pub const SIGNATURE: u8 = 9;

/// A nonce (RFC 2408 section 3.13).
pub const NONCE: u8 = 10;

/// A key download (RFC 6407 section 5.6).
pub const KD: u8 = 17;

/// A sequence number (RFC 6407 section 5.7).
pub const SEQUENCE: u8 = 18;

/// A group associated policy (RFC 6407 section 5.4).
pub const GAP: u8 = 22;

/// The exchange of a GROUPKEY-PULL (RFC 6407 section 3).
pub const PULL: u8 = 32;

/// The exchange of a GROUPKEY-PUSH (RFC 6407 section 4).
pub const PUSH: u8 = 33;

/// The octets of the header of a datagram.
pub const HEADER_OCTETS: usize = 28;

/// The octets of the header of a payload, or of a section of its body.
pub const PAYLOAD_HEAD_OCTETS: usize = 4;

/// The octets of the header of an attribute in the long form.
pub const ATTRIBUTE_HEAD_OCTETS: usize = 4;

/// The octets of the body of a SEQ payload.
pub const SEQUENCE_OCTETS: usize = 4;

/// The octets of a hash.
pub const HASH_OCTETS: usize = 32;

/// The octets of a block of the cipher.
pub const BLOCK_OCTETS: usize = 16;

/// The most octets of a datagram: as many as UDP over IPv4 holds.
pub const MOST_OCTETS: usize = 65_507;
