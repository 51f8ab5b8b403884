//! The attributes of an LKH packet.
ghost use Rattle.std.specs.Prelude.{◌≡◌, ◌+◌, ◌<◌, ◌≤◌, ◌==◌, ◌&&◌, ◌||◌, nat_le, None, Some, IfOk, option_map};
ghost use Rattle.gd_wire.specs.Readings.{Gives, mapped};
ghost use Rattle.kd_wire.specs.Keys.{given_keys};
ghost use Rattle.kd_wire.specs.Arrays.{long_type, signature_keys, head_size, least_keys, most_keys, array_head, sealer, update_array};
ghost use Rattle.kd_wire.specs.Arrays.{update_attribute, next_update, more_updates, updates};
ghost use Rattle.kd_wire.specs.Private.Seen.{seen_after, with_seen, found_after, seen_updates};

use crate::keys::given_key;
use crate::spans::UpdateSpan;
use crate::updates::{SealedKeys, UpdateArray, UpdateKey};
use crate::widths::{DOWNLOAD_ARRAY_HEAD, LKH_KEY_OCTETS, UPDATE_ARRAY_HEAD};
use gd_wire::{Reader, attribute_type, fault, long_value, next_attribute, next_has_kind};
use group_terms::{LkhId, WireFault, WireWhat};

/// The kinds of attributes: arrays, and one that is passed over.
pub(crate) const DOWNLOAD_ARRAY: u16 = 1;

pub(crate) const UPDATE_ARRAY: u16 = 2;

const SIGNATURE_KEY: u16 = 3;

/// The version of an array.
pub(crate) const VERSION: u8 = 1;

/// What an array is for: the keys of a path for one who comes in, or keys for some who stay.
#[derive(Clone, Copy)]
pub(crate) enum ArrayKind {
    Download,
    Update,
}

impl ArrayKind {
    /// How many octets come before the keys.
    fn head_size(self) -> usize
        ensures { result ≡ head_size self }
    {
        match self {
            ArrayKind::Download => DOWNLOAD_ARRAY_HEAD,
            ArrayKind::Update => UPDATE_ARRAY_HEAD,
        }
    }

    /// Whether it may have `count` keys.
    fn takes(self, count: u16) -> bool
        ensures { result ≡ nat_le (least_keys self) count && nat_le count (most_keys self) }
    {
        match self {
            ArrayKind::Download => 2 <= count && count <= 16,
            ArrayKind::Update => 1 <= count,
        }
    }
}

/// Reads the type of an attribute of one of these kinds, in the long form.
#[tactic(auto, unfolding(crate::specs::Arrays::long_type))]
pub(crate) fn long_type(kinds: &[u16], text: &mut Reader<'_>) -> Result<u16, WireFault>
    ensures { Gives result text.new (long_type kinds.now text.old) }
{
    let at = text.here();
    let attribute = attribute_type(text)?;
    let number = attribute.kind;
    if !kinds.contains(&number) || attribute.is_short {
        return Err(fault(WireWhat::Kind { number }, at));
    }
    Ok(number)
}

/// Passes over attributes with keys that check signatures.
#[tactic(auto, unfolding(crate::specs::Arrays::signature_keys))]
pub(crate) fn signature_keys(text: &mut Reader<'_>) -> Result<(), WireFault>
    ensures { Gives result text.new (signature_keys text.old) }
{
    for _ in 0..text.octets_left() {
        if !next_has_kind(text, SIGNATURE_KEY) {
            return Ok(());
        }
        next_attribute(text)?;
    }
    Ok(())
}

/// Reads the head of an array whose length is at this place: the number of its keys.
#[tactic(auto, unfolding(crate::specs::Arrays::array_head))]
pub(crate) fn array_head(
    kind: ArrayKind,
    length_at: u32,
    text: &mut Reader<'_>,
) -> Result<u16, WireFault>
    ensures gives { Gives result text.new (array_head kind length_at text.old) }
    ensures few { IfOk result (λ count. count ≤ most_keys kind) }
{
    let size = text.octets_left() as usize;
    text.due_octet(VERSION, WireWhat::Version)?;
    let at = text.here();
    let count = text.number()?;
    if !kind.takes(count) {
        return Err(fault(WireWhat::Value, at));
    }
    if size != kind.head_size() + LKH_KEY_OCTETS * usize::from(count) {
        return Err(fault(WireWhat::Length, length_at));
    }
    text.due_octet(0, WireWhat::Reserved)?;
    Ok(count)
}

/// Reads which key an update array names, and the epoch in which that was made.
#[tactic(auto, unfolding(crate::specs::Arrays::sealer))]
fn sealer(text: &mut Reader<'_>) -> Result<(LkhId, u32), WireFault>
    ensures { Gives result text.new (sealer text.old) }
{
    let at = text.here();
    let Some(by) = LkhId::new(text.number()?) else {
        return Err(fault(WireWhat::Value, at));
    };
    text.due_number(0, WireWhat::Reserved)?;
    Ok((by, text.long_number()?))
}

/// What has been seen of keys that updates give: the handle that the next one has to have, if any, and whether one is that of the root.
#[derive(Clone, Copy)]
pub(crate) struct Seen {
    pub(crate) handle: Option<u32>,
    has_root: bool,
}

impl Seen {
    /// The same after one more key.
    fn with(self, key: &UpdateKey) -> Self
        ensures { result ≡ record { handle = Some key.now.made; has_root = self.has_root || key.now.id == 1 } }
    {
        Seen {
            handle: Some(key.made),
            has_root: self.has_root || key.id.number() == 1,
        }
    }
}

/// Reads `count` keys that an update gives, after what has been seen.
fn given_keys(count: u16, before: Seen, text: &mut Reader<'_>) -> Result<Seen, WireFault>
    ensures { Gives result text.new (mapped (seen_after before) (given_keys count before.handle text.old)) }
{
    let mut seen = before;
    for _ in 0..count {
        let key = given_key(seen.handle, text)?;
        seen = seen.with(&key);
    }
    Ok(seen)
}

/// An array, and what has been seen of its keys.
#[derive(Drop)]
pub(crate) struct SeenArray<'a> {
    pub(crate) array: UpdateArray<'a>,
    pub(crate) seen: Seen,
}

/// Reads an update array whose length is at this place, and whose keys have this handle, if any.
#[tactic(auto, unfolding(crate::specs::Arrays::update_array))]
fn update_array<'a>(
    handle: Option<u32>,
    length_at: u32,
    text: &mut Reader<'a>,
) -> Result<SeenArray<'a>, WireFault>
    ensures { Gives result text.new (mapped (with_seen handle) (update_array handle length_at text.old)) }
{
    let count = array_head(ArrayKind::Update, length_at, text)?;
    let (by, by_made) = sealer(text)?;
    let keys = SealedKeys::new(by, by_made, count, handle, text.again());
    let before = Seen {
        handle,
        has_root: false,
    };
    let seen = given_keys(count, before, text)?;
    let array = UpdateArray { by, by_made, keys };
    Ok(SeenArray { array, seen })
}

/// Reads the attribute of an update array whose keys have this handle, if any.
#[tactic(auto, unfolding(crate::specs::Arrays::update_attribute))]
fn update_attribute<'a>(
    handle: Option<u32>,
    text: &mut Reader<'a>,
) -> Result<SeenArray<'a>, WireFault>
    ensures { Gives result text.new (mapped (with_seen handle) (update_attribute handle text.old)) }
{
    long_type(&[UPDATE_ARRAY], text)?;
    let length_at = text.here();
    let mut value = long_value(text)?;
    update_array(handle, length_at, &mut value)
}

/// Reads the next update array after one, if any.
#[tactic(auto, unfolding(crate::specs::Arrays::next_update))]
pub(crate) fn next_update<'a>(
    handle: Option<u32>,
    text: &mut Reader<'a>,
) -> Result<Option<SeenArray<'a>>, WireFault>
    ensures { Gives result text.new (mapped (option_map (with_seen handle)) (next_update handle text.old)) }
{
    signature_keys(text)?;
    if text.is_at_end() {
        return Ok(None);
    }
    Ok(Some(update_attribute(handle, text)?))
}

/// What has been found of update arrays: whether one of their keys is that of the root, the place after the last one, and how many there
/// are.
#[derive(Clone, Copy)]
struct Found {
    has_root: bool,
    end: usize,
    arrays: u32,
}

impl Found {
    /// The same after one more array, which ends at a place.
    fn with(self, has_root: bool, end: usize) -> Self
        requires { self.arrays < 4294967295 }
        ensures { result ≡ record { has_root = self.has_root || has_root; end = end; arrays = self.arrays + 1 } }
    {
        Found {
            has_root: self.has_root || has_root,
            end,
            arrays: self.arrays + 1,
        }
    }
}

/// Reads update arrays up to the end, no more than this number, whose keys have this handle, if any.
fn more_updates(
    most: u32,
    handle: Option<u32>,
    before: Found,
    text: &mut Reader<'_>,
) -> Result<Found, WireFault>
    requires { before.arrays + most ≤ 4294967295 }
    ensures { Gives result text.new (mapped (found_after before) (more_updates most handle text.old)) }
{
    let mut found = before;
    let mut handle = handle;
    for _ in 0..most {
        let Some(next) = next_update(handle, text)? else {
            return Ok(found);
        };
        handle = next.seen.handle;
        found = found.with(next.seen.has_root, text.place());
    }
    Ok(found)
}

/// Where update arrays are, and whether one of their keys is that of the root.
#[derive(Clone, Copy)]
pub(crate) struct SeenUpdates {
    pub(crate) span: UpdateSpan,
    pub(crate) has_root: bool,
}

/// Reads the update arrays of a packet up to its end.
#[tactic(auto, unfolding(crate::specs::Arrays::updates))]
pub(crate) fn updates(text: &mut Reader<'_>) -> Result<SeenUpdates, WireFault>
    ensures { Gives result text.new (mapped seen_updates (updates text.old)) }
{
    signature_keys(text)?;
    let start = text.place();
    let most = text.octets_left();
    let first = update_attribute(None, text)?;
    let before = Found {
        has_root: first.seen.has_root,
        end: text.place(),
        arrays: 1,
    };
    let found = more_updates(most.saturating_sub(1), first.seen.handle, before, text)?;
    let span = UpdateSpan {
        start,
        end: found.end,
        arrays: found.arrays,
    };
    Ok(SeenUpdates {
        span,
        has_root: found.has_root,
    })
}
