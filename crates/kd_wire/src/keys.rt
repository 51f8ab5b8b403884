//! Keys of LKH, read and written.
ghost use Rattle.std.specs.Prelude.{◌≡◌, ◌++◌, ◌≤◌, length, take, None, Some, OnOk, OnErr, if◌then◌else◌};
ghost use Rattle.gd_wire.specs.Readings.{Gives};
ghost use Rattle.kd_wire.specs.Keys.{key_type, is_above, is_on_path, path_key, path_keys, has_handle, given_key};
ghost use Rattle.kd_wire.specs.Texts.{key_head, key_text, data_of};
ghost use Rattle.kd_wire.specs.Widths.{lkh_key_octets};

use crate::updates::UpdateKey;
use crate::widths::DATES_OCTETS;
use gd_wire::{Reader, fault, write_u32};
use group_terms::{
    LONGEST_PATH, LkhId, NoMemory, NodeValue, Octets, Path, PathKey, WireFault, WireWhat,
};

/// The type of a key of AES.
const AES: u8 = 3;

/// Reads the type of a key and the reserved octet after it.
#[tactic(auto, unfolding(crate::specs::Keys::key_type))]
fn key_type(text: &mut Reader<'_>) -> Result<(), WireFault>
    ensures { Gives result text.new (key_type text.old) }
{
    text.due_octet(AES, WireWhat::Value)?;
    text.due_octet(0, WireWhat::Reserved)
}

/// Reads `count` keys of a path.
pub(crate) fn path_keys(count: u16, text: &mut Reader<'_>) -> Result<Path, WireFault>
    requires { count ≤ LONGEST_PATH }
    ensures { Gives result text.new (path_keys count None text.old) }
{
    let mut path = Path::new();
    let mut below = None;
    for k in 0..count {
        let key = path_key(count - (k + 1), below, text)?;
        below = Some(key.id);
        path.push(key);
    }
    Ok(path)
}

/// Reads a key of a path, before `more` further ones.
#[tactic(auto, unfolding(crate::specs::Keys::path_key))]
fn path_key(more: u16, below: Option<LkhId>, text: &mut Reader<'_>) -> Result<PathKey, WireFault>
    ensures { Gives result text.new (path_key more below text.old) }
{
    let at = text.here();
    let number = text.number()?;
    let Some(id) = id_on_path(more, below, number) else {
        return Err(fault(WireWhat::Value, at));
    };
    key_type(text)?;
    text.octets(DATES_OCTETS)?;
    let made = text.long_number()?;
    let iv = text.array()?;
    let key = text.array()?;
    let value = NodeValue { iv, key };
    Ok(PathKey { id, made, value })
}

/// The position of this number, where it is due on a path.
fn id_on_path(more: u16, below: Option<LkhId>, number: u16) -> Option<LkhId>
    ensures { result ≡ (if is_on_path more below number then Some number else None) }
{
    let id = LkhId::new(number)?;
    if !is_above(below, number) || (more == 0 && number != 1) {
        return None;
    }
    Some(id)
}

/// Whether a position of this number is above another one, if any.
fn is_above(below: Option<LkhId>, number: u16) -> bool
    ensures { result ≡ is_above below number }
{
    match below {
        Some(below) => number == below.number() / 2,
        None => true,
    }
}

/// Reads a key that an update gives, which has this handle, if any.
#[tactic(auto, unfolding(crate::specs::Keys::given_key))]
pub(crate) fn given_key(handle: Option<u32>, text: &mut Reader<'_>) -> Result<UpdateKey, WireFault>
    ensures { Gives result text.new (given_key handle text.old) }
{
    let at = text.here();
    let Some(id) = LkhId::new(text.number()?) else {
        return Err(fault(WireWhat::Value, at));
    };
    key_type(text)?;
    text.octets(DATES_OCTETS)?;
    let made_at = text.here();
    let made = text.long_number()?;
    if !has_handle(handle, made) {
        return Err(fault(WireWhat::Value, made_at));
    }
    let sealed = text.array()?;
    Ok(UpdateKey { id, made, sealed })
}

/// Whether a key has the handle that is asked for, if any.
fn has_handle(handle: Option<u32>, made: u32) -> bool
    ensures { result ≡ has_handle handle made }
{
    match handle {
        Some(handle) => made == handle,
        None => true,
    }
}

/// Appends a key whose data is in the clear.
pub(crate) fn append_key(key: &PathKey, out: &mut Octets) -> Result<(), NoMemory>
    ensures ok { OnOk result (out.new ≡ out.old ++ key_text key.now.id key.now.made (data_of key.now.value)) }
    ensures size { OnOk result (length (key_text key.now.id key.now.made (data_of key.now.value)) ≡ lkh_key_octets) }
    ensures err { OnErr result (take (length out.old) out.new ≡ out.old) }
{
    append_key_head(key, out)?;
    out.extend(&key.value.iv)?;
    out.extend(&key.value.key)
}

/// Appends what comes before the data of a key.
pub(crate) fn append_key_head(key: &PathKey, out: &mut Octets) -> Result<(), NoMemory>
    ensures ok { OnOk result (out.new ≡ out.old ++ key_head key.now.id key.now.made) }
    ensures err { OnErr result (take (length out.old) out.new ≡ out.old) }
{
    let [high, low] = key.id.number().to_be_bytes();
    out.extend(&[high, low, AES, 0])?;
    out.extend(&[0; DATES_OCTETS])?;
    write_u32(key.made, out)
}
