//! The texts that were opened last, each with what it was opened from: all stores under one root open it once. The root key stays as long as the text.
ghost use Rattle.std.specs.Prelude.{◌≡◌, ◌%◌, ◌<◌, ◌≤◌, [], length, slice_index_or, IfSome, true};
ghost use Rattle.gd_cipher.specs.Chains.{IsOpened};

use gd_cipher::{Key128, cbc_open};
use gd_wire::Room as Octets;
use gd_wire::kinds::MOST_OCTETS;
use group_terms::{NoMemory, NodeValue};
use std::alloc::Global;
use std::marker::Model;

/// How many texts are kept.
const KEPT: usize = 64;

/// A text that was opened, the octets that it was opened from, and the key. Contracts see the text.
#[derive(Drop)]
struct OpenText {
    kek: NodeValue,
    sealed: Octets,
    octets: Octets,
}

impl Model for OpenText {
    ghost use Rattle.std.specs.Prelude.{◌≤◌, ℕ, List};
    ghost use Rattle.gd_cipher.specs.Chains.{IsOpened};

    ghost Value = { List ℕ };

    ghost view = { λ text. text.octets.octets };

    ghost invariant = { λ text. (65507 ≤ text.sealed.room) × (65507 ≤ text.octets.room)
        × IsOpened text.kek.key text.kek.iv text.sealed.octets text.octets.octets };
}

impl OpenText {
    /// No octets, opened from none.
    fn new(alloc: Global) -> Result<Self, NoMemory> {
        Ok(OpenText {
            kek: NodeValue::default(),
            sealed: Octets::new(alloc, MOST_OCTETS)?,
            octets: Octets::new(alloc, MOST_OCTETS)?,
        })
    }

    fn octets(&self) -> &[u8]
        ensures { result.now ≡ self.now }
    {
        self.octets.text()
    }

    /// Whether it was opened from these octets under this key.
    fn is_of(&self, sealed: &[u8], kek: &NodeValue) -> bool
        ensures { result ≡ true → IsOpened kek.now.key kek.now.iv sealed.now self.now }
    {
        self.kek == *kek && self.sealed.text() == sealed
    }

    /// Opens octets under a key, in place of what it was.
    fn renew(&mut self, sealed: &[u8], kek: &NodeValue)
        requires whole { length sealed.now % 16 ≡ 0 }
        requires few { length sealed.now ≤ 65507 }
        ensures { IsOpened kek.now.key kek.now.iv sealed.now self.new }
    {
        self.kek = *kek;
        self.sealed.fill(sealed);
        self.octets.fill(sealed);
        cbc_open(&Key128::new(kek.key), &kek.iv, self.octets.text_mut());
    }
}

/// The texts that were opened last, and the place of the next one. Contracts see the one that was asked for last.
#[derive(Drop)]
pub(crate) struct OpenTexts {
    texts: Vec<OpenText>,
    last: usize,
    next: usize,
}

impl Model for OpenTexts {
    ghost use Rattle.std.specs.Prelude.{◌<◌, ℕ, List, [], length, slice_index_or};

    ghost Value = { List ℕ };

    ghost view = { λ kept. slice_index_or kept.texts.items kept.last [] };

    ghost invariant = { λ kept. (kept.last < length kept.texts.items) × (kept.next < length kept.texts.items) };
}

impl OpenTexts {
    pub(crate) fn new(alloc: Global) -> Result<Self, NoMemory> {
        let mut texts = Vec::with_capacity(alloc, KEPT)?;
        texts.push(OpenText::new(alloc)?)?;
        for _ in 1..KEPT {
            texts.push(OpenText::new(alloc)?)?;
        }
        Ok(OpenTexts {
            texts,
            last: 0,
            next: 0,
        })
    }

    pub(crate) fn text(&self) -> &[u8]
        ensures { result.now ≡ self.now }
    {
        self.texts[self.last].octets()
    }

    /// Opens octets under a key, in place of the text that was opened first, unless one of them was opened from these.
    pub(crate) fn open_text(&mut self, sealed: &[u8], kek: &NodeValue)
        requires whole { length sealed.now % 16 ≡ 0 }
        requires few { length sealed.now ≤ 65507 }
        ensures { IsOpened kek.now.key kek.now.iv sealed.now self.new }
    {
        match place_of(self.texts.as_slice(), sealed, kek) {
            Some(place) => self.last = place,
            None => self.open_next(sealed, kek),
        }
    }

    fn open_next(&mut self, sealed: &[u8], kek: &NodeValue)
        requires whole { length sealed.now % 16 ≡ 0 }
        requires few { length sealed.now ≤ 65507 }
        ensures { IsOpened kek.now.key kek.now.iv sealed.now self.new }
    {
        let place = self.next;
        open_at(self.texts.as_mut_slice(), place, sealed, kek);
        self.last = place;
        self.next = (place + 1) % self.texts.len();
    }
}

/// The place of a text that was opened from these octets under this key.
fn place_of(texts: &[OpenText], sealed: &[u8], kek: &NodeValue) -> Option<usize>
    ensures within { IfSome result (λ place. place < length texts.now) }
    ensures opened { IfSome result (λ place. IsOpened kek.now.key kek.now.iv sealed.now (slice_index_or texts.now place [])) }
{
    for place in 0..texts.len() {
        if texts[place].is_of(sealed, kek) {
            return Some(place);
        }
    }
    None
}

/// Opens octets under a key, in place of a text.
fn open_at(texts: &mut [OpenText], place: usize, sealed: &[u8], kek: &NodeValue)
    requires place { place < length texts.old }
    requires whole { length sealed.now % 16 ≡ 0 }
    requires few { length sealed.now ≤ 65507 }
    ensures opened { IsOpened kek.now.key kek.now.iv sealed.now (slice_index_or texts.new place []) }
    ensures count { length texts.new ≡ length texts.old }
{
    texts[place].renew(sealed, kek);
}
