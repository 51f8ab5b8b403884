//! What a member is told.
ghost use Rattle.std.specs.Prelude.{◌≡◌, ◌<◌, ◌≤◌, length, IfOk, IfSome};
ghost use Rattle.kd_wire.specs.Texts.{IsPath};
ghost use Rattle.member_store.specs.Stores.{IsReply, root_of};
ghost use Rattle.case_rooms.specs.Replies.{LeadsToRoot};

use case_lines::octets;
use group_terms::{Keyed, Path, PathKey, TrafficValue};
use kd_wire::{KdView, WireFault, a_body_has_one_of_three_forms, read_kd};
use std::alloc::Global;

/// The most octets of a key download.
const MOST: usize = 65_535;

/// A reply of which a store can be made: the last number, and the body of a key download in hexadecimal. `None` where it is none.
pub fn read_reply(alloc: Global, last: u32, word: &str) -> Option<Keyed>
    ensures { IfSome result IsReply }
{
    let body = octets(alloc, word)?;
    let keyed = read_body(last, body.as_slice());
    drop(body);
    keyed
}

fn read_body(last: u32, body: &[u8]) -> Option<Keyed>
    ensures { IfSome result IsReply }
{
    if body.len() > MOST {
        return None;
    }
    match read_download(body) {
        Ok(view) => keyed_of(last, view),
        Err(_) => None,
    }
}

/// Reads the body of a key download.
fn read_download(body: &[u8]) -> Result<KdView, WireFault>
    requires { length body.now ≤ MOST }
    ensures { IfOk result LeadsToRoot }
{
    a_body_has_one_of_three_forms();
    read_kd(body, 0)
}

/// What a member is told by this key download. `None` where that gives no path.
fn keyed_of(sequence: u32, view: KdView) -> Option<Keyed>
    requires { LeadsToRoot view }
    ensures { IfSome result IsReply }
{
    let (Some(traffic), Some(spi)) = (view.tek, view.lkh_spi) else {
        drop(view);
        return None;
    };
    Some(keyed(spi, view.download, traffic, sequence))
}

/// What a member with this path is told.
fn keyed(spi: [u8; 16], path: Path, traffic: TrafficValue, sequence: u32) -> Keyed
    requires { IsPath path }
    ensures { IsReply result }
{
    let epoch = root_epoch(path.keys());
    Keyed {
        epoch,
        sequence,
        spi,
        path,
        traffic,
    }
}

/// The epoch in which the key of the root was made, which a path ends with.
fn root_epoch(path: &[PathKey]) -> u32
    requires { 0 < length path.now }
    ensures { result ≡ (root_of path.now).made }
{
    path[path.len() - 1].made
}
