//! Names and keys of tests, and drawn numbers.
use group_model::{KeyName, LkhId, MemberName};

/// The key of a position, made at an epoch; the traffic key of the epoch for the number 0.
pub(crate) fn key(number: u16, made: u32) -> KeyName {
    match LkhId::new(number) {
        Some(id) => KeyName::Node { id, made },
        None => KeyName::Traffic { made },
    }
}

/// Who is called by a letter; `_` for what is none.
pub(crate) fn named(letter: u8) -> MemberName {
    MemberName::read(&[letter]).unwrap_or_default()
}

/// Numbers drawn by a linear congruence.
#[derive(Drop)]
pub(crate) struct Draws {
    pub(crate) state: u64,
}

impl Draws {
    /// A number from 1 to 12.
    pub(crate) fn number(&mut self) -> u16 {
        self.state = self
            .state
            .wrapping_mul(6_364_136_223_846_793_005)
            .wrapping_add(1_442_695_040_888_963_407);
        ((self.state >> 33) % 12) as u16 + 1
    }
}
