//! The lines of a block, from words.
ghost use Rattle.std.specs.Prelude.{◌≡◌, ◌≤◌, length, All, IfSome};
ghost use Rattle.register_workers.specs.Lines.{IsReady};

use crate::members::{Member, name_of};
use case_lines::number;
use group_terms::List;
use member_pull::Begun;
use register_workers::{BlockAsk, BlockLine};
use std::alloc::Global;

/// Reads the lines of a block, 1 to 512. Each pull that begins gets the next number.
pub fn lines(
    alloc: Global,
    words: &[&str],
    members: &mut [Member],
    pulls: &mut u32,
) -> Option<List<BlockLine>>
    ensures ready { IfSome result (λ lines. All IsReady lines) }
    ensures some { IfSome result (λ lines. 1 ≤ length lines) }
    ensures few { IfSome result (λ lines. length lines ≤ 512) }
{
    let mut lines = List::new(alloc);
    for word in words {
        add_lines(alloc, word, members, pulls, &mut lines)?;
    }
    if lines.len() < 1 || lines.len() > 512 {
        return None;
    }
    Some(lines)
}

/// Appends the lines of one word.
fn add_lines(
    alloc: Global,
    word: &str,
    members: &mut [Member],
    pulls: &mut u32,
    lines: &mut List<BlockLine>,
) -> Option<()>
    requires { All IsReady lines.old }
    ensures { All IsReady lines.new }
{
    let (kind, numbers) = kind_of(word)?;
    let (first, last) = range_of(numbers)?;
    for number in first..=last {
        let line = line_of(alloc, kind, number, members, pulls)?;
        lines.push(line).ok()?;
    }
    Some(())
}

/// What a line is to be.
#[derive(Clone, Copy, PartialEq, Eq)]
enum Kind {
    Join,
    Lose,
    Again,
    Leave,
    Batch,
    Now,
}

/// The kind of a word, and what comes after its letters.
fn kind_of(word: &str) -> Option<(Kind, &str)> {
    if word == "batch" {
        return Some((Kind::Batch, "1"));
    }
    if word == "now" {
        return Some((Kind::Now, "1"));
    }
    let kinds = [
        ("join", Kind::Join),
        ("lose", Kind::Lose),
        ("again", Kind::Again),
        ("leave", Kind::Leave),
    ];
    for (letters, kind) in &kinds {
        if let Some(numbers) = word.strip_prefix(*letters) {
            return Some((*kind, numbers));
        }
    }
    None
}

/// The first and the last of some numbers.
fn range_of(numbers: &str) -> Option<(u32, u32)> {
    match numbers.split_once("-") {
        Some((first, last)) => Some((number(first)?, number(last)?)),
        None => {
            let only = number(numbers)?;
            Some((only, only))
        }
    }
}

/// A line of a kind, for the member of a number.
fn line_of(
    alloc: Global,
    kind: Kind,
    number: u32,
    members: &mut [Member],
    pulls: &mut u32,
) -> Option<BlockLine>
    ensures { IfSome result IsReady }
{
    let member = name_of(number);
    match kind {
        Kind::Join => joining(alloc, number, false, members, pulls),
        Kind::Lose => joining(alloc, number, true, members, pulls),
        Kind::Again => sending(number, members),
        Kind::Leave => Some(plain(BlockAsk::Leave { member })),
        Kind::Batch => Some(plain(BlockAsk::Batch)),
        Kind::Now => Some(plain(BlockAsk::Now)),
    }
}

/// A line that sends nothing.
fn plain(asked: BlockAsk) -> BlockLine
    ensures { result.asked ≡ asked }
{
    BlockLine {
        asked,
        pull: None,
        sent: None,
        lose: false,
        seen: None,
    }
}

/// A line of a member that begins a pull.
fn joining(
    alloc: Global,
    number: u32,
    lose: bool,
    members: &[Member],
    pulls: &mut u32,
) -> Option<BlockLine>
    ensures { IfSome result IsReady }
{
    let member = members.get((number as usize).checked_sub(1)?)?;
    *pulls = pulls.wrapping_add(1);
    let Begun { pull, datagram } = member.begin(alloc, *pulls).ok()?;
    Some(BlockLine {
        asked: BlockAsk::Join {
            member: name_of(number),
        },
        pull: Some(pull),
        sent: Some(datagram),
        lose,
        seen: None,
    })
}

/// A line of a member that sends again.
fn sending(number: u32, members: &mut [Member]) -> Option<BlockLine>
    ensures { IfSome result IsReady }
{
    let member = members.get_mut((number as usize).checked_sub(1)?)?;
    let pull = member.pull.take()?;
    let sent = member.sent.take()?;
    Some(BlockLine {
        asked: BlockAsk::Again {
            member: name_of(number),
        },
        pull: Some(pull),
        sent: Some(sent),
        lose: false,
        seen: None,
    })
}
