//! The download array of an LKH packet, read and written.
ghost use Rattle.std.specs.Prelude.{◌≡◌, ◌*◌, ◌++◌, ◌≤◌, length, take, OnOk, OnErr};
ghost use Rattle.gd_wire.specs.Readings.{Gives};
ghost use Rattle.kd_wire.specs.Arrays.{download_array, download};
ghost use Rattle.kd_wire.specs.Private.Heads.{download_head};
ghost use Rattle.kd_wire.specs.Texts.{packet_text, download_text, path_text};
ghost use Rattle.kd_wire.specs.Widths.{lkh_key_octets};

use crate::arrays::{ArrayKind, DOWNLOAD_ARRAY, VERSION, array_head, long_type, signature_keys};
use crate::keys::{append_key, path_keys};
use crate::texts::append_lkh_head;
use crate::widths::{DOWNLOAD_ARRAY_HEAD, DOWNLOAD_HEAD, LKH_KEY_OCTETS, REKEY_SPI_OCTETS};
use gd_wire::{Reader, long_value, no_more_attributes};
use group_terms::{NoMemory, Octets, Path, PathKey, WireFault};

/// Reads a download array whose length is at this place.
#[tactic(auto, unfolding(crate::specs::Arrays::download_array))]
fn download_array(length_at: u32, text: &mut Reader<'_>) -> Result<Path, WireFault>
    ensures { Gives result text.new (download_array length_at text.old) }
{
    let count = array_head(ArrayKind::Download, length_at, text)?;
    path_keys(count, text)
}

/// Reads the download array of a packet, up to the packet's end: the keys of a path.
#[tactic(auto, unfolding(crate::specs::Arrays::download))]
pub(crate) fn download(text: &mut Reader<'_>) -> Result<Path, WireFault>
    ensures { Gives result text.new (download text.old) }
{
    signature_keys(text)?;
    long_type(&[DOWNLOAD_ARRAY], text)?;
    let length_at = text.here();
    let mut value = long_value(text)?;
    let path = download_array(length_at, &mut value)?;
    signature_keys(text)?;
    no_more_attributes(text)?;
    Ok(path)
}

/// Appends the packet with the download array of a path.
pub(crate) fn append_download(
    spi: &[u8; REKEY_SPI_OCTETS],
    keys: &[PathKey],
    out: &mut Octets,
) -> Result<(), NoMemory>
    requires { length keys.now ≤ 16 }
    ensures ok { OnOk result (out.new ≡ out.old ++ packet_text 3 spi.now (download_text keys.now)) }
    ensures err { OnErr result (take (length out.old) out.new ≡ out.old) }
{
    let count = keys.len();
    append_lkh_head(spi, DOWNLOAD_HEAD + LKH_KEY_OCTETS * count, out)?;
    append_download_head(count as u8, out)?;
    append_keys(keys, out)?;
    Ok(())
}

/// Appends what comes before `count` keys in a download array, with the header of its attribute.
fn append_download_head(count: u8, out: &mut Octets) -> Result<(), NoMemory>
    requires { count ≤ 16 }
    ensures ok { OnOk result (out.new ≡ out.old ++ download_head count) }
    ensures err { OnErr result (out.new ≡ out.old) }
{
    let size = DOWNLOAD_ARRAY_HEAD + LKH_KEY_OCTETS * usize::from(count);
    let [high, low] = (size as u16).to_be_bytes();
    out.extend(&[0, DOWNLOAD_ARRAY as u8, high, low, VERSION, 0, count, 0])
}

/// Appends keys of a path.
fn append_keys(keys: &[PathKey], out: &mut Octets) -> Result<(), NoMemory>
    ensures ok { OnOk result (out.new ≡ out.old ++ path_text keys.now) }
    ensures size { OnOk result (length (path_text keys.now) ≡ lkh_key_octets * length keys.now) }
    ensures err { OnErr result (take (length out.old) out.new ≡ out.old) }
{
    for key in keys {
        append_key(key, out)?;
    }
    Ok(())
}
