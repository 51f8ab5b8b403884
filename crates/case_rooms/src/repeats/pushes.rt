//! The works of pushes: the membership push of a large batch, written and opened.
ghost use Rattle.std.specs.Prelude.{◌≤◌, length, IfOk};

use crate::repeats::last_or;
use gd_edges::{TestSigner, TestVerifier};
use group_terms::{LkhId, NoMemory, NodeValue, Octets, PathKey};
use kd_wire::{
    WrapJob, texts_of_jobs_are_put_together, write_update, written_texts_have_their_size,
};
use push_msg::{PushHead, Room, open_push, write_membership};
use std::alloc::Global;

/// As many arrays as a batch of 32 changes may send in a tree of 512 leaves.
const ARRAYS: usize = 286;

/// The SPI and the number of the push.
const HEAD: PushHead = PushHead {
    spi: [6; 16],
    sequence: 1,
};

/// The octet of the first key.
const FIRST: u8 = 5;

/// The last octets of the update arrays of a batch that are written so many times, each under the last octets of the one before.
pub fn updates(alloc: Global, count: u32) -> Result<[u8; 16], NoMemory> {
    let mut out = Octets::with_room(alloc, 64 * ARRAYS)?;
    for _ in 0..count {
        write_updates(&mut out)?;
    }
    Ok(last_or(out.as_slice(), FIRST))
}

/// Writes the arrays of a batch over those of the one before.
fn write_updates(out: &mut Octets) -> Result<(), NoMemory> {
    let mut key = last_or(out.as_slice(), FIRST);
    out.clear();
    for _ in 0..ARRAYS {
        write_update(&job_under(key), out)?;
        key = last_or(out.as_slice(), FIRST);
    }
    Ok(())
}

/// The last octets of a push that is written so many times, each time under its last octets as the key.
pub fn push_written(alloc: Global, count: u32) -> Result<[u8; 16], NoMemory> {
    let arrays = update_arrays(alloc)?;
    let mut key = [FIRST; 16];
    for _ in 0..count {
        let push = push_under(alloc, key, arrays.as_slice())?;
        key = last_or(push.as_slice(), FIRST);
    }
    Ok(key)
}

/// The last octets of the key download of a push that is opened so many times in one room.
pub fn push_opened(alloc: Global, count: u32) -> Option<[u8; 16]> {
    let arrays = update_arrays(alloc).ok()?;
    let push = push_under(alloc, [FIRST; 16], arrays.as_slice()).ok()?;
    drop(arrays);
    let mut room = Room::new(alloc).ok()?;
    for _ in 0..count {
        open(push.as_slice(), &mut room)?;
    }
    Some(last_or(room.text(), FIRST))
}

fn open(push: &[u8], room: &mut Room) -> Option<()> {
    let kek = value([2; 16], [FIRST; 16]);
    match open_push(push, &HEAD.spi, &kek, 0, &TestVerifier::new(), room) {
        Ok(_) => Some(()),
        Err(_) => None,
    }
}

/// The push of a batch, encrypted under a key with these octets.
fn push_under(alloc: Global, key: [u8; 16], arrays: &[u8]) -> Result<Octets, NoMemory>
    requires { length arrays.now ≤ 64000 }
{
    let kek = value([2; 16], key);
    write_membership(alloc, &HEAD, arrays, &kek, &TestSigner::new())
}

/// The update arrays of a batch, all for one job.
fn update_arrays(alloc: Global) -> Result<Octets, NoMemory>
    ensures { IfOk result (λ text. length text ≤ 64000) }
{
    let job = job_under([FIRST; 16]);
    texts_of_jobs_are_put_together();
    written_texts_have_their_size();
    let mut out = Octets::with_room(alloc, 64 * ARRAYS)?;
    for _ in 0..ARRAYS {
        write_update(&job, &mut out)?;
    }
    Ok(out)
}

/// A key of the root, sealed under this one.
fn job_under(key: [u8; 16]) -> WrapJob {
    let by = PathKey {
        id: LkhId::default(),
        made: 1,
        value: value([2; 16], key),
    };
    let value = value([3; 16], [4; 16]);
    WrapJob {
        by,
        gives: PathKey { value, ..by },
    }
}

fn value(iv: [u8; 16], key: [u8; 16]) -> NodeValue {
    NodeValue { iv, key }
}
