//! Drawn groups: who derives which traffic key.
ghost use Rattle.std.specs.Prelude.{◌≤◌, length};

use crate::draws::{Draws, named};
use group_model::{
    Batch, Change, History, KeyName, List, MOST_CHANGES, MemberName, NoMemory, Wrap,
};
use std::alloc::Global;
use sym_closure::derive;

/// Drawn groups: of each epoch, those who are members then derive its traffic key, each from what it was told when it came in, by the
/// encryptions; the others all together do not, from all that they are ever told by all that is ever sent.
#[test]
fn members_alone_derive_the_traffic_key_of_their_epoch(rt: HostRuntime) {
    let mut names = [MemberName::default(); 7];
    for (name, letter) in names.iter_mut().zip(b"abcdefg") {
        *name = named(*letter);
    }
    let mut draws = Draws { state: 39 };
    let mut holds = true;
    for _ in 0..6 {
        holds &= holds_of_a_drawn_group(rt.alloc(), &mut draws, &names) == Ok(true);
    }
    assert!(rt; holds);
}

/// Whether each epoch's traffic key is derived by whom it is for, and that of an epoch to come by nobody.
fn holds_of_a_drawn_group(
    alloc: Global,
    draws: &mut Draws,
    names: &[MemberName],
) -> Result<bool, NoMemory> {
    let mut history = History::new(alloc, 2);
    let mut sent = List::new(alloc);
    let mut world = List::new(alloc);
    let are_made = draw_batches(alloc, draws, &mut history).is_ok()
        & add_pairs(alloc, &history, names, true, &mut sent).is_ok()
        & add_pairs(alloc, &history, names, false, &mut world).is_ok();
    let holds = holds_of(alloc, &history, names, sent.as_slice(), world.as_slice());
    drop(world);
    drop(sent);
    drop(history);
    Ok(are_made & holds?)
}

/// Adds those of eight drawn batches that fit.
fn draw_batches(alloc: Global, draws: &mut Draws, history: &mut History) -> Result<(), NoMemory> {
    for _ in 0..8 {
        let batch = drawn_batch(draws, history);
        if history.epoch() < u32::MAX && history.fits(&batch) {
            history.add(alloc, batch)?;
        }
    }
    Ok(())
}

/// A batch of up to three drawn changes. One of the seven names goes out where it is a member, and comes in where it is none.
fn drawn_batch(draws: &mut Draws, history: &History) -> Batch {
    let mut batch = Batch::new();
    for _ in 0..draws.number() % 4 {
        let member = named(b'a' + (draws.number() % 7) as u8);
        let change = if history.is_member(history.epoch(), &member) {
            Change::Out { member }
        } else {
            Change::In { member }
        };
        if batch.changes().len() < MOST_CHANGES {
            batch.push(change);
        }
    }
    batch
}

/// Adds the encryptions of each epoch, and a reply to each of its members, or only to those who came in with it.
fn add_pairs(
    alloc: Global,
    history: &History,
    names: &[MemberName],
    only_new: bool,
    pairs: &mut List<Wrap>,
) -> Result<(), NoMemory> {
    for epoch in 1..=history.epoch() {
        add_wraps(alloc, history, epoch, pairs)?;
        for member in names {
            let stayed = history.is_member(epoch - 1, member);
            if history.is_member(epoch, member) && !(only_new && stayed) {
                add_reply(alloc, history, epoch, member, pairs)?;
            }
        }
    }
    Ok(())
}

/// Adds what the batch of an epoch encrypted.
fn add_wraps(
    alloc: Global,
    history: &History,
    epoch: u32,
    pairs: &mut List<Wrap>,
) -> Result<(), NoMemory>
    requires { epoch ≤ length history.now.batches }
{
    let wraps = history.wraps(alloc, epoch)?;
    let added = pairs.extend(wraps.as_slice());
    drop(wraps);
    added
}

/// Adds the keys of a member at an epoch and the traffic key, each under its phase 1 key.
fn add_reply(
    alloc: Global,
    history: &History,
    epoch: u32,
    member: &MemberName,
    pairs: &mut List<Wrap>,
) -> Result<(), NoMemory>
    requires { epoch ≤ length history.now.batches }
{
    let path = history.path(alloc, epoch, member)?;
    let added = add_told(epoch, member, path.as_slice(), pairs);
    drop(path);
    added
}

fn add_told(
    epoch: u32,
    member: &MemberName,
    path: &[KeyName],
    pairs: &mut List<Wrap>,
) -> Result<(), NoMemory> {
    for name in path {
        pairs.push(told(member, *name))?;
    }
    pairs.push(told(member, KeyName::Traffic { made: epoch }))
}

/// A key under the phase 1 key of a member.
fn told(member: &MemberName, gives: KeyName) -> Wrap {
    let by = KeyName::Phase { member: *member };
    Wrap { by, gives }
}

/// Whether each member of an epoch derives its traffic key by what was sent, and who are no members do not, all together, by all that can be sent;
/// and nobody the one of an epoch to come.
fn holds_of(
    alloc: Global,
    history: &History,
    names: &[MemberName],
    sent: &[Wrap],
    world: &[Wrap],
) -> Result<bool, NoMemory> {
    let mut holds = true;
    for epoch in 1..=history.epoch() {
        for member in names {
            if history.is_member(epoch, member) {
                let have = [KeyName::Phase { member: *member }];
                holds &= derives(alloc, &have, sent, epoch)?;
            }
        }
        holds &= !others_derive(alloc, history, names, world, epoch)?;
    }
    Ok(
        holds
            & !others_derive(
                alloc,
                history,
                names,
                world,
                history.epoch().saturating_add(1),
            )?,
    )
}

/// Whether those who are no members of an epoch derive its traffic key, all together, by pairs. An epoch to come has no members.
fn others_derive(
    alloc: Global,
    history: &History,
    names: &[MemberName],
    pairs: &[Wrap],
    epoch: u32,
) -> Result<bool, NoMemory> {
    let mut have = List::new(alloc);
    let are_added = add_others(history, names, epoch, &mut have);
    let is_derived = derives(alloc, have.as_slice(), pairs, epoch);
    drop(have);
    are_added.and(is_derived)
}

/// Adds the phase 1 keys of those who are no members of an epoch.
fn add_others(
    history: &History,
    names: &[MemberName],
    epoch: u32,
    have: &mut List<KeyName>,
) -> Result<(), NoMemory> {
    for member in names {
        if epoch > history.epoch() || !history.is_member(epoch, member) {
            have.push(KeyName::Phase { member: *member })?;
        }
    }
    Ok(())
}

/// Whether the traffic key of an epoch is derived from keys, by pairs.
fn derives(alloc: Global, have: &[KeyName], pairs: &[Wrap], epoch: u32) -> Result<bool, NoMemory> {
    let found = derive(alloc, have, pairs, &KeyName::Traffic { made: epoch })?;
    let is_found = found.is_some();
    drop(found);
    Ok(is_found)
}
