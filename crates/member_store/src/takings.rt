//! Unwrapping: which keys a member takes from a membership push.
ghost use Rattle.std.specs.Prelude.{◌≡◌, ◌≤◌, length, IfSome, IfNone, None, Some, is_some};
ghost use Rattle.std.specs.List.{find};
ghost use Rattle.gd_cipher.specs.Chains.{IsOpened};
ghost use Rattle.group_terms.specs.Octets.{iv_octets};
ghost use Rattle.group_terms.specs.declared.paths.PathKey.{PathKey};
ghost use Rattle.kd_wire.specs.Spans.{span_arrays};
ghost use Rattle.kd_wire.specs.Texts.{IsPath, data_of};
ghost use Rattle.member_store.specs.Private.Paths.{IsNewPath};
ghost use Rattle.member_store.specs.Takings.{IsUnsealed, Takes, TakesNext, can_take, is_called, keys_given, sealer_of};

use crate::dues::{DATA_OCTETS, Due, dues};
use crate::paths::{ROOT, has_position, with_keys};
use arrayvec::ArrayVec;
use gd_cipher::{Key128, cbc_open};
use group_terms::{IV_OCTETS, LONGEST_PATH, NodeValue, Path, PathKey};
use kd_wire::{SealedKey, SealedKeys, UpdateSpan, Updates};

/// The path with the keys that are taken from the arrays of a span, if that of the root is among them.
pub(crate) fn new_path(path: &Path, span: &UpdateSpan, body: &[u8]) -> Option<Path>
    ensures new { IsNewPath path.now (keys_given (span_arrays span.now body.now)) result }
    ensures path { IsPath path.now → IfSome result IsPath }
{
    let taken = keys_taken(path.keys(), span, body);
    if !has_position(taken.as_slice(), ROOT) {
        return None;
    }
    Some(with_keys(path, taken.as_slice()))
}

/// The keys of a span that are taken. The candidates for the path are gathered first, so that the arrays are read once; only where there is
/// no room for them are the arrays read anew for each key.
fn keys_taken(path: &[PathKey], span: &UpdateSpan, body: &[u8]) -> ArrayVec<PathKey, LONGEST_PATH>
    requires { length path.now ≤ LONGEST_PATH }
    ensures { Takes path.now (keys_given (span_arrays span.now body.now)) result.items }
{
    match dues(path, span.arrays(body)) {
        Some(due) => dues_taken(path, due.as_slice()),
        None => all_taken(path, span, body),
    }
}

/// The keys that are taken of these, one after the other.
fn dues_taken(path: &[PathKey], due: &[Due]) -> ArrayVec<PathKey, LONGEST_PATH>
    requires { length path.now ≤ LONGEST_PATH }
    ensures { Takes path.now due.now result.items }
{
    let mut taken = ArrayVec::new();
    for _ in path {
        let Some(key) = next_due(path, taken.as_slice(), due) else {
            return taken;
        };
        taken.push(key);
    }
    taken
}

/// The first of these keys that can be taken, opened.
fn next_due(path: &[PathKey], taken: &[PathKey], due: &[Due]) -> Option<PathKey>
    ensures some { IfSome result (λ key. TakesNext path.now taken.now due.now key) }
    ensures none { IfNone result (find (can_take path.now taken.now) due.now ≡ None) }
{
    for given in due {
        if let Some(key) = taken_key(path, taken, given.given()) {
            return Some(key);
        }
    }
    None
}

/// The keys that are taken, one after the other: each time the first that can be, until none can. There are no more of them than the path
/// has positions.
fn all_taken(path: &[PathKey], span: &UpdateSpan, body: &[u8]) -> ArrayVec<PathKey, LONGEST_PATH>
    requires { length path.now ≤ LONGEST_PATH }
    ensures { Takes path.now (keys_given (span_arrays span.now body.now)) result.items }
{
    let mut taken = ArrayVec::new();
    for _ in path {
        let Some(key) = next_key(path, taken.as_slice(), span.arrays(body)) else {
            return taken;
        };
        taken.push(key);
    }
    taken
}

/// The first key of these arrays that can be taken, opened.
fn next_key(path: &[PathKey], taken: &[PathKey], arrays: Updates<'_>) -> Option<PathKey>
    ensures some { IfSome result (λ key. TakesNext path.now taken.now (keys_given arrays.entry) key) }
    ensures none { IfNone result (find (can_take path.now taken.now) (keys_given arrays.entry) ≡ None) }
{
    for array in arrays {
        if let Some(key) = next_of(path, taken, array.keys) {
            return Some(key);
        }
    }
    None
}

/// The first of these keys that can be taken, opened.
fn next_of(path: &[PathKey], taken: &[PathKey], keys: SealedKeys<'_>) -> Option<PathKey>
    ensures some { IfSome result (λ key. TakesNext path.now taken.now keys.entry key) }
    ensures none { IfNone result (find (can_take path.now taken.now) keys.entry ≡ None) }
{
    for given in keys {
        if let Some(key) = taken_key(path, taken, &given) {
            return Some(key);
        }
    }
    None
}

/// A key that is given, opened, if it can be taken.
fn taken_key(path: &[PathKey], taken: &[PathKey], given: &SealedKey) -> Option<PathKey>
    ensures some { IfSome result (λ key. (by : PathKey) × (sealer_of path.now taken.now given.now ≡ Some by) × IsUnsealed by given.now key) }
    ensures can { is_some result ≡ can_take path.now taken.now given.now }
{
    let id = given.gives.id.number();
    if !has_position(path, id) || has_position(taken, id) {
        return None;
    }
    let by = sealer_of(path, taken, given)?;
    Some(unsealed(&by, given))
}

/// The key that seals a given one, if the member has it.
fn sealer_of(path: &[PathKey], taken: &[PathKey], given: &SealedKey) -> Option<PathKey>
    ensures { result ≡ sealer_of path.now taken.now given.now }
{
    match called(taken, given) {
        Some(by) => Some(by),
        None => called(path, given),
    }
}

/// The key among these that seals a given one.
fn called(keys: &[PathKey], given: &SealedKey) -> Option<PathKey>
    ensures { result ≡ find (is_called given.now.by given.now.by_made) keys.now }
{
    for key in keys {
        if seals(key, given) {
            return Some(*key);
        }
    }
    None
}

/// Whether a key is the one that seals a given one.
fn seals(key: &PathKey, given: &SealedKey) -> bool
    ensures { result ≡ is_called given.now.by given.now.by_made key.now }
{
    key.id.number() == given.by.number() && key.made == given.by_made
}

/// A given key, opened by the one that seals it.
fn unsealed(by: &PathKey, given: &SealedKey) -> PathKey
    ensures { IsUnsealed by.now given.now result }
{
    let value = value_of(&opened(&by.value, &given.gives.sealed));
    PathKey {
        id: given.gives.id,
        made: given.gives.made,
        value,
    }
}

/// The data of a key, opened by another one.
fn opened(by: &NodeValue, sealed: &[u8; DATA_OCTETS]) -> [u8; DATA_OCTETS]
    ensures { IsOpened by.now.key by.now.iv sealed.now result }
{
    let key = Key128::new(by.key);
    let mut data = *sealed;
    cbc_open(&key, &by.iv, &mut data);
    data
}

/// The IV and the key in the data of a key.
fn value_of(octets: &[u8; DATA_OCTETS]) -> NodeValue
    ensures octets { data_of result ≡ octets.now }
    ensures iv { length result.iv ≡ iv_octets }
{
    let (front, back) = octets.split_at(IV_OCTETS);
    let mut value = NodeValue::default();
    value.iv.copy_from_slice(front);
    value.key.copy_from_slice(back);
    value
}
