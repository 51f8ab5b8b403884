//! The numbers of payloads, attributes and their values in policies.
use group_terms::KEY_OCTETS;

/// The domain of interpretation of GDOI (RFC 6407 section 5.2).
pub(crate) const GDOI: u32 = 2;

/// The kinds of the payloads of policies (RFC 6407 section 5): for the KEK and for the TEK.
pub(crate) const SAK: u8 = 15;

pub(crate) const SAT: u8 = 16;

/// The attributes of the KEK (RFC 6407 section 5.3).
pub(crate) const MANAGEMENT_ALGORITHM: u16 = 1;

pub(crate) const KEK_ALGORITHM: u16 = 2;

pub(crate) const KEK_KEY_LENGTH: u16 = 3;

pub(crate) const KEK_LIFETIME: u16 = 4;

pub(crate) const SIGNATURE_HASH: u16 = 5;

pub(crate) const SIGNATURE_ALGORITHM: u16 = 6;

pub(crate) const SIGNATURE_KEY_LENGTH: u16 = 7;

/// Their values.
pub(crate) const LKH: u16 = 1;

pub(crate) const AES: u16 = 3;

pub(crate) const SHA_256: u16 = 3;

/// The attributes of the TEK (RFC 6407 section 5.5, RFC 2407 section 4.5).
pub(crate) const LIFE_TYPE: u16 = 1;

pub(crate) const LIFE_DURATION: u16 = 2;

pub(crate) const ENCAPSULATION_MODE: u16 = 4;

pub(crate) const AUTHENTICATION_ALGORITHM: u16 = 5;

pub(crate) const TEK_KEY_LENGTH: u16 = 6;

/// Their values; HMAC with SHA-256 has that of RFC 4868 section 3.
pub(crate) const SECONDS: u16 = 1;

pub(crate) const TUNNEL: u16 = 1;

pub(crate) const TRANSPORT: u16 = 2;

pub(crate) const HMAC_SHA_256: u16 = 5;

/// GDOI's number for the protocol of a TEK (RFC 6407 section 5.5), and its transform (RFC 3602 section 5.2).
pub(crate) const ESP: u8 = 1;

pub(crate) const ESP_AES: u8 = 12;

/// The bits of keys, of KEK (RFC 6407 section 5.3) and TEK (RFC 3602 section 5.3) alike.
pub(crate) const KEY_BITS: u16 = 8 * KEY_OCTETS as u16;
