//! Groups on disks in memory, with signatures of tests and draws of a seed.
ghost use Rattle.std.specs.Prelude.{◌≡◌, ◌≤◌, []};

use crate::members::Member;
use crate::rooms::Room;
use crate::sites::Site;
use case_lines::{long_number, number};
use epoch_board::{BoardMade, EpochBoard};
use gd_disk::MemDisk;
use gd_edges::{ChaChaDraws, TestSigner};
use group_model::{Entry, Log};
use group_server::{GroupServer, NewGroup, Parts};
use group_terms::{GroupName, List, Pattern, Rule};
use register_workers::Book;
use std::alloc::Global;

pub type TestServer = GroupServer<MemDisk, TestSigner, ChaChaDraws>;

pub type TestParts = Parts<MemDisk, TestSigner, ChaChaDraws>;

pub type TestBook = Book<MemDisk, TestSigner, ChaChaDraws>;

/// For how many members a server has room.
const MEMBERS: u32 = 1024;

/// Makes a group on an empty disk that fails at these of its calls; none where that is refused.
pub fn make(alloc: Global, words: &[&str]) -> Option<Option<Room>> {
    let [depth, seed, count, fails @ ..] = words else {
        return None;
    };
    let (depth, seed) = (depth.parse::<u8>().ok()?, long_number(seed)?);
    let members = members(alloc, number(count)?)?;
    let fails = calls(alloc, fails)?;
    let board = EpochBoard::new(alloc).ok()?;
    match server(alloc, depth, seed, fails) {
        Some(server) => Some(Some(opened(alloc, server, board, members))),
        None => Some(None),
    }
}

/// A server on such a disk, if it can be made.
fn server(alloc: Global, depth: u8, seed: u64, fails: List<u64>) -> Option<TestServer> {
    let parts = Parts {
        disk: MemDisk::planned(alloc, fails),
        signer: TestSigner::new(),
        draws: ChaChaDraws::new(seed, 0),
    };
    let group = NewGroup {
        depth: depth.max(1).min(9),
        name: GroupName::read(b"console").unwrap(),
        limit: u32::MAX,
    };
    match GroupServer::create(alloc, parts, &group, MEMBERS) {
        Ok(server) => Some(server),
        Err(opening) => {
            drop(opening);
            None
        }
    }
}

/// Lets everybody in, and introduces these members.
fn admit(server: &mut TestServer, members: &[Member]) -> Option<()> {
    if server.rule_count() == u32::MAX {
        return None;
    }
    let pattern = Pattern::read(b"*")?;
    let rule = Rule {
        allow: true,
        pattern,
    };
    server.add_rule(rule).ok()?;
    for member in members {
        server.introduce(member.phase).ok()?;
    }
    Some(())
}

/// Members of the numbers from 1 on.
fn members(alloc: Global, count: u32) -> Option<Vec<Member>> {
    let mut members = Vec::new(alloc);
    for number in 0..count.min(MEMBERS) {
        members.push(Member::new(number.saturating_add(1))).ok()?;
    }
    Some(members)
}

/// The server, to which these members are introduced, with a board and an empty history. Out of memory, there are no members.
fn opened(alloc: Global, mut server: TestServer, made: BoardMade, mut members: Vec<Member>) -> Room
    requires nothing_shown { made.publisher.published ≡ [] }
    requires publisher { made.publisher.board ≡ made.board }
    requires reader { made.reader.board ≡ made.board }
{
    if admit(&mut server, members.as_slice()).is_none() {
        members.clear();
    }
    let BoardMade {
        board,
        publisher,
        reader,
    } = made;
    let entries = Log::<Entry>::of(List::new(alloc));
    let site = Site {
        board,
        reader,
        book: Book::new(server, publisher, entries),
    };
    Room {
        members,
        pulls: 0,
        site: Some(site),
    }
}

/// Calls of a disk, counted from 1.
fn calls(alloc: Global, words: &[&str]) -> Option<List<u64>> {
    let mut calls = List::new(alloc);
    for word in words {
        calls.push(long_number(word)?).ok()?;
    }
    Some(calls)
}
