//! Keys that are sealed for those who stay.
ghost use Rattle.std.specs.Prelude.{◌≡◌, ◌++◌, List, ℕ, length, take, OnOk, OnErr};
ghost use Rattle.gd_cipher.specs.Chains.{IsSealed};
ghost use Rattle.group_terms.specs.Octets.{AreOctets, data_octets};
ghost use Rattle.kd_wire.specs.Private.Heads.{sealer_head};
ghost use Rattle.kd_wire.specs.Texts.{IsUpdate, update_text, data_of};

use crate::arrays::{UPDATE_ARRAY, VERSION};
use crate::keys::append_key_head;
use crate::widths::{DATA_OCTETS, UPDATE_ARRAY_OCTETS};
use gd_cipher::{Key128, cbc_seal};
use gd_wire::write_u32;
use group_terms::{IV_OCTETS, NoMemory, NodeValue, Octets, PathKey};

/// A key that is to be sealed under another one.
#[derive(Clone, Copy, PartialEq, Eq)]
pub struct WrapJob {
    pub by: PathKey,
    pub gives: PathKey,
}

/// Appends the update array of a job, as an attribute (RFC 6407 section 5.6.3.2): the given key's IV and octets are sealed by cipher block
/// chaining under the other key, with that key's IV.
pub fn write_update(job: &WrapJob, out: &mut Octets) -> Result<(), NoMemory>
    ensures ok { OnOk result ((text : List ℕ) × IsUpdate job.now text × (out.new ≡ out.old ++ text)) }
    ensures err { OnErr result (out.new ≡ out.old) }
{
    let before = out.len();
    let sealed = sealed(&job.by.value, &job.gives.value);
    let appended = append_update(job, &sealed, out);
    out.keep_or_truncate(before, appended)
}

/// Appends that array with this sealed data; out of memory, maybe only a part of it.
fn append_update(job: &WrapJob, sealed: &[u8], out: &mut Octets) -> Result<(), NoMemory>
    requires { length sealed.now ≡ data_octets }
    ensures ok { OnOk result (out.new ≡ out.old ++ update_text job.now sealed.now) }
    ensures octets { OnOk result (AreOctets sealed.now) }
    ensures err { OnErr result (take (length out.old) out.new ≡ out.old) }
{
    append_sealer(&job.by, out)?;
    append_key_head(&job.gives, out)?;
    out.extend(sealed)?;
    Ok(())
}

/// Appends what comes before the key, and names the one under which that is sealed.
fn append_sealer(by: &PathKey, out: &mut Octets) -> Result<(), NoMemory>
    ensures ok { OnOk result (out.new ≡ out.old ++ sealer_head by.now) }
    ensures err { OnErr result (take (length out.old) out.new ≡ out.old) }
{
    let [high, low] = (UPDATE_ARRAY_OCTETS as u16).to_be_bytes();
    out.extend(&[0, UPDATE_ARRAY as u8, high, low, VERSION, 0, 1, 0])?;
    let [high, low] = by.id.number().to_be_bytes();
    out.extend(&[high, low, 0, 0])?;
    write_u32(by.made, out)
}

/// The IV and the octets of a key, sealed under another one.
fn sealed(by: &NodeValue, gives: &NodeValue) -> [u8; DATA_OCTETS]
    ensures sealed { IsSealed by.now.key by.now.iv (data_of gives.now) result }
    ensures size { length result ≡ data_octets }
{
    let key = Key128::new(by.key);
    let mut data = data_of(gives);
    cbc_seal(&key, &by.iv, &mut data);
    data
}

/// The IV and the octets of a key.
fn data_of(value: &NodeValue) -> [u8; DATA_OCTETS]
    ensures { result ≡ data_of value.now }
{
    let mut data = [0; DATA_OCTETS];
    let (iv, key) = data.split_at_mut(IV_OCTETS);
    iv.copy_from_slice(&value.iv);
    key.copy_from_slice(&value.key);
    data
}
