//! Opening a datagram with the keys of a store.
ghost use Rattle.std.specs.Prelude.{◌<◌, ℕ, length};
ghost use Rattle.group_terms.specs.declared.values.TrafficValue.{TrafficValue};
ghost use Rattle.member_store.specs.Private.Openings.{HasOpening};

use crate::paths::root_of;
use gd_edges::Verifier;
use group_terms::{Path, PushRefusal};
use push_msg::{OpenPush, Room, open_push};

/// Opens a push for this SPI under the root's key of a path, after this number.
pub(crate) fn open<V: Verifier>(
    datagram: &[u8],
    spi: &[u8; 16],
    path: &Path,
    last: u32,
    verifier: &V,
    room: &mut Room,
) -> Result<OpenPush, PushRefusal>
    requires { 0 < length path.now }
    ensures { (traffic : TrafficValue) (epoch : ℕ) → HasOpening V.Verifier verifier.now
        (record { spi = spi.now; path = path.now; traffic = traffic; traffic_epoch = epoch; sequence = last }) datagram.now result room.new }
{
    let root = root_of(path.keys());
    open_push(datagram, spi, &root.value, last, verifier, room)
}
