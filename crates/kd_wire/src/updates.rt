//! The keys that an update array gives.
ghost use Rattle.std.specs.Prelude.{◌≡◌};
ghost use Rattle.kd_wire.specs.Seals.{sealed_under, keys_left};

use crate::keys::given_key;
use crate::widths::DATA_OCTETS;
use gd_wire::Reader;
use group_terms::LkhId;
use std::marker::Model;

/// An update array (RFC 6407 section 5.6.3.2): the position and the epoch of the key that it names, and the keys that it gives.
#[derive(Drop)]
pub struct UpdateArray<'a> {
    pub by: LkhId,
    pub by_made: u32,
    pub keys: SealedKeys<'a>,
}

/// A key that an update array gives, and the position and the epoch of the key that seals it.
#[derive(Clone, Copy, PartialEq, Eq)]
pub struct SealedKey {
    pub by: LkhId,
    pub by_made: u32,
    pub gives: UpdateKey,
}

/// A key that an update array gives: its position, the epoch in which it was made, and its IV and octets, sealed.
#[derive(Clone, Copy, PartialEq, Eq)]
pub struct UpdateKey {
    pub id: LkhId,
    pub made: u32,
    pub sealed: [u8; DATA_OCTETS],
}

/// The keys of an update array, one after the other. The key that the array names seals the first one, and each further one is sealed by
/// the key before it.
#[derive(Drop)]
pub struct SealedKeys<'a> {
    by: LkhId,
    by_made: u32,
    count: u16,
    handle: Option<u32>,
    text: Reader<'a>,
}

impl<'a> Model for SealedKeys<'a> {
    ghost use Rattle.std.specs.Prelude.{List};
    ghost use Rattle.kd_wire.specs.declared.updates.SealedKey.{SealedKey};
    ghost use Rattle.kd_wire.specs.Seals.{sealed_under, keys_left};

    ghost Value = { List SealedKey };

    ghost view = { λ keys. sealed_under keys.by keys.by_made (keys_left keys.count keys.handle keys.text) };
}

impl<'a> SealedKeys<'a> {
    /// `count` keys of a text, after the one that seals the first of them; they have this handle, if any.
    pub(crate) fn new(
        by: LkhId,
        by_made: u32,
        count: u16,
        handle: Option<u32>,
        text: Reader<'a>,
    ) -> Self
        ensures { result ≡ sealed_under by by_made (keys_left count handle text.entry) }
    {
        SealedKeys {
            by,
            by_made,
            count,
            handle,
            text,
        }
    }
}

impl<'a> Iterator for SealedKeys<'a> {
    ghost use Rattle.std.specs.Iterator.{YieldsFirst, item_count};

    type Item = SealedKey;

    ghost next_gives = { YieldsFirst (λ keys. keys) };

    ghost remaining = { item_count (λ keys. keys) };

    fn next(&mut self) -> Option<SealedKey> {
        if self.count == 0 {
            return None;
        }
        let Ok(gives) = given_key(self.handle, &mut self.text) else {
            self.count = 0;
            return None;
        };
        let (by, by_made) = (self.by, self.by_made);
        self.count -= 1;
        self.handle = Some(gives.made);
        self.by = gives.id;
        self.by_made = gives.made;
        Some(SealedKey { by, by_made, gives })
    }
}
