//! Key servers on disks in memory, with signatures of tests and draws of a seed.
ghost use Rattle.std.specs.Prelude.{◌≤◌};

use case_lines::{long_number, number};
use gd_disk::MemDisk;
use gd_edges::{ChaChaDraws, TestSigner};
use group_model::Refusal;
use group_server::{GroupServer, NewGroup, Opening, Parts, ServerOpened};
use group_terms::{GroupName, List};
use std::alloc::Global;

pub type TestServer = GroupServer<MemDisk, TestSigner, ChaChaDraws>;

pub type TestOpened = ServerOpened<MemDisk, TestSigner, ChaChaDraws>;

type TestOpening = Opening<MemDisk, TestSigner, ChaChaDraws>;

/// The stream of the server's draws.
const SERVER_STREAM: u8 = 0;

/// The most SAs that a server may have room for.
const MOST_SAS: u32 = 65_536;

/// How a group is made.
#[derive(Clone, Copy)]
pub struct Plan {
    depth: u8,
    limit: u32,
    sas: u32,
    seed: u64,
}

/// The plan that four words are.
pub fn read_plan(words: &[&str]) -> Option<Plan> {
    let [depth, limit, sas, seed] = words else {
        return None;
    };
    Some(Plan {
        depth: depth.parse::<u8>().ok()?,
        limit: number(limit)?,
        sas: number(sas)?,
        seed: long_number(seed)?,
    })
}

/// Makes a group on an empty disk that fails at these of its calls.
pub fn create(alloc: Global, plan: &Plan, fails: List<u64>) -> Result<TestServer, Refusal> {
    let parts = Parts {
        disk: MemDisk::planned(alloc, fails),
        signer: TestSigner::new(),
        draws: ChaChaDraws::new(plan.seed, SERVER_STREAM),
    };
    let group = NewGroup {
        depth: plan.depth.max(1).min(9),
        name: GroupName::read(b"console").unwrap(),
        limit: plan.limit.max(1),
    };
    GroupServer::create(alloc, parts, &group, plan.sas.max(1).min(MOST_SAS)).map_err(refusal_of)
}

/// Closes a group, and opens it from its disk.
pub fn open(alloc: Global, server: TestServer, sas: u32) -> Result<TestOpened, Refusal> {
    GroupServer::open(alloc, server.close(), sas.max(1).min(MOST_SAS)).map_err(refusal_of)
}

/// The refusal alone.
fn refusal_of(opening: TestOpening) -> Refusal {
    drop(opening.parts);
    opening.refusal
}

/// Calls of a disk, counted from 1.
pub fn calls(alloc: Global, words: &[&str]) -> Option<List<u64>> {
    let mut calls = List::new(alloc);
    for word in words {
        calls.push(long_number(word)?).ok()?;
    }
    Some(calls)
}
