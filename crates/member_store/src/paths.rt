//! The keys of a path, by their positions.
ghost use Rattle.std.specs.Prelude.{◌≡◌, ◌<◌, length};
ghost use Rattle.std.specs.List.{find};
ghost use Rattle.member_store.specs.Stores.{has_position, is_at, leaf_of, renewed_by, root_of, with_keys};

use group_terms::{LONGEST_PATH, LkhId, Path, PathKey};

/// The position of the root (RFC 2627 section 5.4).
pub(crate) const ROOT: u16 = 1;

/// The leaf of a path.
pub(crate) fn leaf_of(path: &[PathKey]) -> LkhId
    requires { 0 < length path.now }
    ensures { result ≡ leaf_of path.now }
{
    path[0].id
}

/// The key of the root, which a path ends with.
pub(crate) fn root_of(path: &[PathKey]) -> PathKey
    requires { 0 < length path.now }
    ensures { result ≡ root_of path.now }
{
    path[path.len() - 1]
}

/// Whether one of these keys is that of a position.
pub(crate) fn has_position(keys: &[PathKey], id: u16) -> bool
    ensures { result ≡ has_position keys.now id }
{
    keys.iter().any(|key| is_at(key, id))
}

/// A path whose positions have these new keys.
pub(crate) fn with_keys(path: &Path, new: &[PathKey]) -> Path
    ensures { result ≡ with_keys path.now new.now }
{
    let keys = path.keys();
    let mut renewed = Path::new();
    for key in keys {
        renewed.push(renewed_by(new, key));
    }
    renewed
}

/// The new key of a position, or else the one that it has.
fn renewed_by(new: &[PathKey], key: &PathKey) -> PathKey
    ensures { result ≡ renewed_by new.now key.now }
{
    new_key(new, key.id.number()).unwrap_or(*key)
}

/// The key of a position among these.
fn new_key(keys: &[PathKey], id: u16) -> Option<PathKey>
    ensures { result ≡ find (is_at id) keys.now }
{
    for key in keys {
        if is_at(key, id) {
            return Some(*key);
        }
    }
    None
}

/// Whether a key is that of a position.
fn is_at(key: &PathKey, id: u16) -> bool
    ensures { result ≡ is_at id key.now }
{
    key.id.number() == id
}
