//! What a crash leaves of a group.

use crate::counts::acknowledged;
use crate::groups::{TestParts, TestServer};
use crate::sites::Site;
use group_server::{GroupServer, Parts};
use group_terms::NoMemory;
use std::alloc::Global;

/// Crashes the disk of a group, and opens it from what is left: whether each batch that was answered is there, and at most one more.
pub fn crash(alloc: Global, site: Site, choice: u64) -> Result<bool, NoMemory> {
    let (server, publisher, entries) = site.into_book().into_parts();
    drop(publisher);
    let answered = acknowledged(entries.items());
    drop(entries);
    let epoch = epoch_after(alloc, server, choice)?;
    Ok(matches!(epoch, Some(epoch) if answered <= epoch && epoch - answered <= 1))
}

/// The epoch at which the group opens, if it does.
fn epoch_after(alloc: Global, server: TestServer, choice: u64) -> Result<Option<u32>, NoMemory> {
    match crashed(server.close(), choice) {
        Ok(parts) => Ok(epoch_of(alloc, parts)),
        Err(NoMemory) => Err(NoMemory),
    }
}

/// What the group is made of after a crash.
fn crashed(parts: TestParts, choice: u64) -> Result<TestParts, NoMemory> {
    let Parts {
        disk,
        signer,
        draws,
    } = parts;
    match disk.crashed(choice) {
        Ok(disk) => Ok(Parts {
            disk,
            signer,
            draws,
        }),
        Err(NoMemory) => {
            drop(draws);
            Err(NoMemory)
        }
    }
}

/// The epoch at which a group opens.
fn epoch_of(alloc: Global, parts: TestParts) -> Option<u32> {
    match GroupServer::open(alloc, parts, 16) {
        Ok(opened) => Some(opened.server.epoch()),
        Err(_) => None,
    }
}
