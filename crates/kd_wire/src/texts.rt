//! The text of a key download payload's body.
ghost use Rattle.std.specs.Prelude.{◌≡◌, ◌++◌, ◌≤◌, length, take, OnOk, OnErr};
ghost use Rattle.kd_wire.specs.Texts.{traffic_kd, update_kd, reply_kd, body_text, packet_head, traffic_text};

use crate::bodies::{LKH, TEK};
use crate::downloads::append_download;
use crate::traffic::{CIPHER_KEY, INTEGRITY_KEY};
use crate::widths::{
    LKH_HEAD_OCTETS, REKEY_SPI_OCTETS, REKEY_SPI_SIZE, TRAFFIC_OCTETS, TRAFFIC_SPI_SIZE,
};
use gd_wire::write_long;
use group_terms::{Keyed, NoMemory, Octets, TrafficValue};

/// Appends the body that gives a traffic key alone.
pub fn write_traffic_kd(traffic: &TrafficValue, out: &mut Octets) -> Result<(), NoMemory>
    ensures ok { OnOk result (out.new ≡ out.old ++ traffic_kd traffic.now) }
    ensures err { OnErr result (out.new ≡ out.old) }
{
    let before = out.len();
    let appended = append_traffic(1, traffic, out);
    out.keep_or_truncate(before, appended)
}

/// Appends the body that gives keys by update arrays, whose text is at most 65,000 octets, with the SPI of rekey datagrams.
pub fn write_update_kd(
    spi: &[u8; REKEY_SPI_OCTETS],
    arrays: &[u8],
    out: &mut Octets,
) -> Result<(), NoMemory>
    requires { length arrays.now ≤ 65000 }
    ensures ok { OnOk result (out.new ≡ out.old ++ update_kd spi.now arrays.now) }
    ensures err { OnErr result (out.new ≡ out.old) }
{
    let before = out.len();
    let appended = append_updates(spi, arrays, out);
    out.keep_or_truncate(before, appended)
}

/// Appends the body for a member that registers: the traffic key, the SPI of rekey datagrams, and the keys of its path.
pub fn write_reply_kd(keyed: &Keyed, out: &mut Octets) -> Result<(), NoMemory>
    ensures ok { OnOk result (out.new ≡ out.old ++ reply_kd keyed.now) }
    ensures err { OnErr result (out.new ≡ out.old) }
{
    let before = out.len();
    let appended = append_reply(keyed, out);
    out.keep_or_truncate(before, appended)
}

/// Appends a body's head, for `count` packets, and the packet of a traffic key.
fn append_traffic(count: u8, traffic: &TrafficValue, out: &mut Octets) -> Result<(), NoMemory>
    ensures ok { OnOk result (out.new ≡ out.old ++ body_text count (traffic_text traffic.now)) }
    ensures err { OnErr result (take (length out.old) out.new ≡ out.old) }
{
    let [high, low] = (TRAFFIC_OCTETS as u16).to_be_bytes();
    out.extend(&[0, count, 0, 0, TEK, 0, high, low, TRAFFIC_SPI_SIZE])?;
    out.extend(&traffic.spi)?;
    write_long(CIPHER_KEY, &traffic.cipher_key, out)?;
    write_long(INTEGRITY_KEY, &traffic.integrity_key, out)
}

fn append_updates(
    spi: &[u8; REKEY_SPI_OCTETS],
    arrays: &[u8],
    out: &mut Octets,
) -> Result<(), NoMemory>
    requires { length arrays.now ≤ 65000 }
    ensures ok { OnOk result (out.new ≡ out.old ++ update_kd spi.now arrays.now) }
    ensures err { OnErr result (take (length out.old) out.new ≡ out.old) }
{
    out.extend(&[0, 1, 0, 0])?;
    append_lkh_head(spi, arrays.len(), out)?;
    out.extend(arrays)
}

fn append_reply(keyed: &Keyed, out: &mut Octets) -> Result<(), NoMemory>
    ensures ok { OnOk result (out.new ≡ out.old ++ reply_kd keyed.now) }
    ensures err { OnErr result (take (length out.old) out.new ≡ out.old) }
{
    append_traffic(2, &keyed.traffic, out)?;
    append_download(&keyed.spi, keyed.path.keys(), out)
}

/// Appends what comes before the attributes, of this size, in a packet for keys of the tree.
pub(crate) fn append_lkh_head(
    spi: &[u8; REKEY_SPI_OCTETS],
    size: usize,
    out: &mut Octets,
) -> Result<(), NoMemory>
    requires { size ≤ 65000 }
    ensures ok { OnOk result (out.new ≡ out.old ++ packet_head 3 spi.now size) }
    ensures err { OnErr result (take (length out.old) out.new ≡ out.old) }
{
    let [high, low] = ((LKH_HEAD_OCTETS + size) as u16).to_be_bytes();
    out.extend(&[LKH, 0, high, low, REKEY_SPI_SIZE])?;
    out.extend(spi)
}
