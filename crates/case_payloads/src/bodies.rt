//! Bodies of the SA payload and of the key download payload.
ghost use Rattle.std.specs.Prelude.{◌≤◌, length};

use crate::words::{add_number, add_shown, add_spaced};
use case_lines::Text;
use group_terms::{NoMemory, Octets};
use kd_wire::{
    KdView, Keyed, PathKey, SealedKey, UpdateArray, UpdateSpan, WrapJob, read_kd, reply_kd_size,
    traffic_kd_size, write_reply_kd, write_traffic_kd, write_update, write_update_kd,
};
use sa_wire::{PlacedSa, read_placed_sa, read_sa, sa_size, write_sa};
use std::alloc::Global;

/// The SPI of the body of wraps.
const SPI: [u8; 16] = *b"\t\x10\x17\x1e%,3:AHOV]dkr";

/// The policies of a body at a place.
pub fn policies(alloc: Global, base: u16, body: &[u8], out: &mut Octets, text: &mut Text)
    requires { length body.now ≤ 65507 }
{
    match read_placed_sa(body, u32::from(base)) {
        Ok(placed) => {
            add_placed(&placed, text);
            let policy = placed.policy();
            add_number(sa_size(&policy) as u64, text);
            if read_sa(body, u32::from(base)) != Ok(policy)
                || policy.kek.is_none() && policy.tek.is_none()
            {
                return;
            }
            if write_sa(&policy, out).is_err() {
                text.lose();
            }
        }
        Err(fault) => add_shown(alloc, &fault, text),
    }
}

/// Appends what the policies say, each with its place.
fn add_placed(placed: &PlacedSa, text: &mut Text) {
    if let Some(kek) = placed.kek {
        add_spaced(&kek.policy.spi, text);
        add_number(u64::from(kek.spi_at), text);
        add_number(u64::from(kek.policy.sign.algorithm), text);
        add_number(u64::from(kek.algorithm_at), text);
        add_number(u64::from(kek.policy.sign.key_bits), text);
        add_number(u64::from(kek.key_bits_at), text);
    }
    if let Some(tek) = placed.tek {
        add_spaced(&tek.policy.spi, text);
        add_number(u64::from(tek.spi_at), text);
    }
}

/// What a body at a place gives.
pub fn kd(alloc: Global, base: u16, body: &[u8], out: &mut Octets, text: &mut Text)
    requires { length body.now ≤ 65507 }
{
    match read_kd(body, u32::from(base)) {
        Ok(view) => {
            add_spis(&view, text);
            match view.updates {
                Some(span) => add_arrays(&span, body, text),
                None => {
                    if write_again(view, out, text).is_err() {
                        text.lose();
                    }
                }
            }
        }
        Err(fault) => add_shown(alloc, &fault, text),
    }
}

/// Appends where the SPIs are, with 0 for one that is not there.
fn add_spis(view: &KdView, text: &mut Text) {
    add_number(u64::from(view.spis.tek.unwrap_or(0)), text);
    add_number(u64::from(view.spis.lkh.unwrap_or(0)), text);
}

/// Writes the body again that gives this, after its size.
fn write_again(view: KdView, out: &mut Octets, text: &mut Text) -> Result<(), NoMemory> {
    let Some(traffic) = view.tek else {
        return Ok(());
    };
    match view.lkh_spi {
        Some(spi) => {
            let keyed = Keyed {
                epoch: 0,
                sequence: 0,
                spi,
                path: view.download,
                traffic,
            };
            add_number(reply_kd_size(&keyed) as u64, text);
            write_reply_kd(&keyed, out)
        }
        None => {
            add_number(traffic_kd_size(&traffic) as u64, text);
            write_traffic_kd(&traffic, out)
        }
    }
}

/// Appends the keys of the arrays of a span, and how many a span has that leads out of the body.
fn add_arrays(span: &UpdateSpan, body: &[u8], text: &mut Text) {
    add_number(span.start as u64, text);
    add_number(span.end as u64, text);
    for array in span.arrays(body) {
        add_array(array, text);
    }
    let further = UpdateSpan {
        end: body.len() + 1,
        ..*span
    };
    if further.arrays(body).next().is_some() {
        text.add("further");
    }
}

fn add_array(array: UpdateArray, text: &mut Text) {
    add_number(u64::from(array.by.number()), text);
    add_number(u64::from(array.by_made), text);
    for key in array.keys {
        add_key(&key, text);
    }
}

/// Appends the key that seals and the key that is given, with their epochs, and what is sealed.
fn add_key(key: &SealedKey, text: &mut Text) {
    add_number(u64::from(key.by.number()), text);
    add_number(u64::from(key.by_made), text);
    add_number(u64::from(key.gives.id.number()), text);
    add_number(u64::from(key.gives.made), text);
    add_spaced(&key.gives.sealed, text);
}

/// Writes the body that gives each key of a body's path under the key before it.
pub fn wraps(alloc: Global, body: &[u8], out: &mut Octets, text: &mut Text)
    requires { length body.now ≤ 65507 }
{
    let mut arrays = Octets::new(alloc);
    if let Ok(view) = read_kd(body, 0) {
        if wrap(view.download.keys(), &mut arrays).is_err() {
            text.lose();
        }
    }
    let arrays = &arrays.as_slice()[..arrays.len().min(65_000)];
    if write_update_kd(&SPI, arrays, out).is_err() {
        text.lose();
    }
}

fn wrap(keys: &[PathKey], arrays: &mut Octets) -> Result<(), NoMemory> {
    let mut before = None;
    for key in keys {
        if let Some(by) = before {
            write_update(&WrapJob { by, gives: *key }, arrays)?;
        }
        before = Some(*key);
    }
    Ok(())
}
