//! Why octets are no text of their grammar, and where that shows.
use thiserror::Error;

/// Why octets are no text of their grammar: what is wrong first, and where.
#[derive(Clone, Copy, Debug, PartialEq, Eq, Error)]
#[error("octet {at}: {what}")]
pub struct WireFault {
    pub what: WireWhat,
    /// The place in the datagram, counted from 0.
    pub at: u32,
}

/// What is wrong.
#[derive(Clone, Copy, Debug, PartialEq, Eq, Error)]
pub enum WireWhat {
    /// The octets end before this field.
    #[error("a field that is due here is missing or cut off")]
    Short,
    /// A length that does not fit what it counts, or octets too many.
    #[error("a length that does not fit what it counts, or octets after the last field")]
    Length,
    /// A reserved field that is not zero.
    #[error("a reserved field has to be zero")]
    Reserved,
    /// A version of another kind.
    #[error("another version than is due")]
    Version,
    /// Padding that is not zero.
    #[error("padding has to be zero")]
    Padding,
    /// Another kind of payload, exchange or attribute than is due.
    #[error("kind {number}, where another kind or another form of it is due")]
    Kind { number: u16 },
    /// A field that has not its due value.
    #[error("a value that is not taken in this field")]
    Value,
}
