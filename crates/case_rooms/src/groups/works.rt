//! Works: many batches of a group on a file.
ghost use Rattle.std.specs.Prelude.{◌≤◌};

use crate::groups::cores::{SeedCore, close_batch, create, join, new_group, parts_on};
use case_lines::Text;
use file_disks::FileDisk;
use gcks_core::{CoreOutput, Keyed, MemberName, NewGroup};
use gd_disk::Disk;
use group_terms::Octets;
use std::alloc::Global;

/// What came of a work: where its group is, how many keys were encrypted under others, how many octets the pushes have, and how many keys the replies. The
/// sum is that of the last eight octets of each push and of each of these keys, modulo 2^64.
#[derive(Clone, Copy, Default)]
struct Tally {
    epoch: u32,
    sequence: u32,
    members: u32,
    wraps: u64,
    octets: u64,
    keys: u64,
    sum: u64,
}

/// Does the work of these words: `worked EPOCH NUMBER MEMBERS WRAPS OCTETS KEYS SUM`.
pub fn work(rt: &HostRuntime, words: &[&str], text: &mut Text) -> Option<()> {
    let [path, depth, words @ ..] = words else {
        return None;
    };
    let group = new_group(depth, "4294967295")?;
    let disk = FileDisk::new(rt.alloc(), rt, path).ok()?;
    let tally = run(rt.alloc(), disk, &group, words)?;
    text.add("worked");
    text.add_numbers(&[
        u64::from(tally.epoch),
        u64::from(tally.sequence),
        u64::from(tally.members),
        tally.wraps,
        tally.octets,
        tally.keys,
        tally.sum,
    ]);
    Some(())
}

fn run<D: Disk + Drop>(alloc: Global, disk: D, group: &NewGroup, words: &[&str]) -> Option<Tally>
    requires shallow { 1 ≤ group.now.depth }
    requires not_deep { group.now.depth ≤ 9 }
    requires limited { 1 ≤ group.now.limit }
{
    let mut core = create(alloc, parts_on(disk, 0), group).ok()?;
    let mut tally = Tally::default();
    let done = go_through(alloc, &mut core, words, &mut tally);
    drop(core.into_parts());
    done?;
    Some(tally)
}

fn go_through<D: Disk>(
    alloc: Global,
    core: &mut SeedCore<D>,
    words: &[&str],
    tally: &mut Tally,
) -> Option<()> {
    for word in words {
        match word.as_bytes() {
            [b'+', name @ ..] => come_in(core, name)?,
            [b'-', name @ ..] => go_out(core, name)?,
            _ => close(alloc, core, tally)?,
        }
    }
    Some(())
}

fn come_in<D: Disk>(core: &mut SeedCore<D>, name: &[u8]) -> Option<()> {
    match join(core, &MemberName::read(name)?) {
        Ok(true) => Some(()),
        _ => None,
    }
}

fn go_out<D: Disk>(core: &mut SeedCore<D>, name: &[u8]) -> Option<()> {
    core.leave(&MemberName::read(name)?).ok()
}

fn close<D: Disk>(alloc: Global, core: &mut SeedCore<D>, tally: &mut Tally) -> Option<()> {
    let output = close_batch(alloc, core).ok()?;
    add_output(&output, tally);
    drop(output);
    Some(())
}

fn add_output(output: &CoreOutput, tally: &mut Tally) {
    tally.epoch = output.epoch;
    tally.sequence = output.sequence;
    tally.members = output.members;
    tally.wraps = tally.wraps.saturating_add(output.wraps.len() as u64);
    if let Some(pair) = &output.pushes {
        add_push(&pair.membership, tally);
        add_push(&pair.traffic, tally);
    }
    for (_, keyed) in output.told.as_slice() {
        add_keys(keyed, tally);
    }
}

fn add_push(push: &Octets, tally: &mut Tally) {
    tally.octets = tally.octets.saturating_add(push.len() as u64);
    add_end(push.as_slice(), tally);
}

fn add_keys(keyed: &Keyed, tally: &mut Tally) {
    for key in keyed.path.keys() {
        tally.keys = tally.keys.saturating_add(1);
        add_end(&key.value.key, tally);
    }
}

/// Adds the last eight octets to the sum.
fn add_end(octets: &[u8], tally: &mut Tally) {
    let end = octets.last_chunk().copied().unwrap_or([0; 8]);
    tally.sum = tally.sum.wrapping_add(u64::from_be_bytes(end));
}
