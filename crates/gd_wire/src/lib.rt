//! ISAKMP framing (RFC 2408): the header of a datagram, the chain of its payloads, and data attributes, read and written exactly.
#![tactic(auto)]

pub use attributes::{
    AttrValue, Attribute, AttributeType, attribute_type, long_value, next_attribute, next_has_kind,
    no_more_attributes, read_attribute, write_long, write_short,
};
pub use bodies::{Identification, write_identification, write_sequence};
pub use chains::{
    Chain, ChainFault, MOST_PAYLOADS, Named, Part, chain_end, payload, read_chain, write_padding,
    write_payload, write_payload_head,
};
pub use faults::fault;
pub use fits::{prove_are_octets, prove_has_four_octets, prove_has_two_octets};
pub use group_terms::{WireFault, WireWhat};
pub use headers::{Header, read_header, write_header};
pub use laws::{
    a_chain_has_one_text, a_header_has_one_text, a_written_attribute_is_read,
    a_written_body_is_read, a_written_field_is_read, a_written_header_is_read,
    a_written_payload_is_read, an_attribute_has_one_text, parts_of_octets_are_octets,
    what_is_read_can_be_written, written_payloads_are_read,
};
pub use numbers::{write_u16, write_u32};
pub use readers::Reader;
pub use rooms::Room;
pub use text_laws::{a_payload_is_its_head_and_its_body, written_framing_is_octets};

mod attributes;
mod bodies;
mod chains;
mod faults;
mod fits;
mod headers;
pub mod kinds;
mod laws;
mod numbers;
mod readers;
mod rooms;
mod text_laws;
