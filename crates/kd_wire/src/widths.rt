//! How many octets the parts of a key download have.
use gd_wire::kinds::{ATTRIBUTE_HEAD_OCTETS, PAYLOAD_HEAD_OCTETS};
use group_terms::{IV_OCTETS, KEY_OCTETS};

/// The dates of a key of LKH, its data, and all of it.
pub(crate) const DATES_OCTETS: usize = 8;

pub(crate) const DATA_OCTETS: usize = IV_OCTETS + KEY_OCTETS;

pub(crate) const LKH_KEY_OCTETS: usize = 8 + DATES_OCTETS + DATA_OCTETS;

/// A download array before its keys, and that with the header of its attribute.
pub(crate) const DOWNLOAD_ARRAY_HEAD: usize = 4;

pub(crate) const DOWNLOAD_HEAD: usize = ATTRIBUTE_HEAD_OCTETS + DOWNLOAD_ARRAY_HEAD;

/// An update array before its keys, one with one key, and that with the header of its attribute.
pub(crate) const UPDATE_ARRAY_HEAD: usize = 12;

pub(crate) const UPDATE_ARRAY_OCTETS: usize = UPDATE_ARRAY_HEAD + LKH_KEY_OCTETS;

pub(crate) const UPDATE_OCTETS: usize = ATTRIBUTE_HEAD_OCTETS + UPDATE_ARRAY_OCTETS;

/// The key for integrity.
pub(crate) const INTEGRITY_OCTETS: usize = 32;

/// The SPIs of rekey datagrams and of traffic, and how a packet tells their sizes.
pub(crate) const REKEY_SPI_OCTETS: usize = 16;

pub(crate) const REKEY_SPI_SIZE: u8 = REKEY_SPI_OCTETS as u8;

pub(crate) const TRAFFIC_SPI_OCTETS: usize = 4;

pub(crate) const TRAFFIC_SPI_SIZE: u8 = TRAFFIC_SPI_OCTETS as u8;

/// What comes before the attributes of a packet for keys of the tree.
pub(crate) const LKH_HEAD_OCTETS: usize = PAYLOAD_HEAD_OCTETS + 1 + REKEY_SPI_OCTETS;

/// The packet of a traffic key.
pub(crate) const TRAFFIC_OCTETS: usize = PAYLOAD_HEAD_OCTETS
    + 1
    + TRAFFIC_SPI_OCTETS
    + ATTRIBUTE_HEAD_OCTETS
    + KEY_OCTETS
    + ATTRIBUTE_HEAD_OCTETS
    + INTEGRITY_OCTETS;
