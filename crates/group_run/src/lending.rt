//! What members lend to the lines of a block, and take back.
ghost use Rattle.std.specs.Prelude.{◌≡◌, [], ◌∷◌, All, IfOk, List, OnErr, map};
ghost use Rattle.std.specs.List.{fold};
ghost use Rattle.group_peers.specs.Peers.{AreOnce, is_peer};
ghost use Rattle.group_peers.specs.declared.members.Peer.{Peer};
ghost use Rattle.group_run.specs.Blocks.{AreHanded, IsHanded, took};
ghost use Rattle.group_run.specs.Private.Lendings.{IsReturned, all_lending, all_with, asks_of, line_with};
ghost use Rattle.group_run.specs.Places.{AreAsked};
ghost use Rattle.group_run.specs.Private.Places.{HasSent};
ghost use Rattle.group_terms.specs.Names.{Name};
ghost use Rattle.member_steps.specs.Members.{Mail};
ghost use Rattle.member_steps.specs.Views.{members_with};
ghost use Rattle.register_workers.specs.Lines.{HasPull, IsReady};

use group_model::{List, Log, NoMemory};
use group_peers::Lent;
use member_steps::Members;
use register_workers::{BlockAsk, BlockLine};
use std::alloc::Global;

/// Makes lines of what is asked: each has what its member lends to it.
pub(crate) fn hand_over(
    alloc: Global,
    members: &mut Members,
    asks: &[BlockAsk],
) -> Result<List<BlockLine>, NoMemory>
    requires sent { All (HasSent members.old.all) asks.now }
    requires apart { AreAsked asks.now }
    ensures handed { IfOk result (λ lines. (mail : List Mail) → AreHanded (members_with members.old mail) asks.now lines) }
    ensures ready { IfOk result (λ lines. All IsReady lines) }
    ensures all { IfOk result (λ lines. members.new.all ≡ all_lending asks.now members.old.all) }
    ensures place { members.new.place ≡ members.old.place }
    ensures err { OnErr result (members.new.all ≡ members.old.all) }
{
    let mut lines = Log::of(List::new(alloc));
    lines.reserve(asks.len() as u64)?;
    for ask in asks {
        lines.add(line_of(members, ask));
    }
    Ok(lines.into_list())
}

/// A line that asks this, with what its member lends to it.
fn line_of(members: &mut Members, ask: &BlockAsk) -> BlockLine
    requires { HasSent members.old.all ask.now }
    ensures handed { (mail : List Mail) → IsHanded (members_with members.old mail) ask.now result }
    ensures ready { IsReady result }
    ensures all { members.new.all ≡ all_lending (ask.now ∷ []) members.old.all }
    ensures place { members.new.place ≡ members.old.place }
{
    match ask {
        BlockAsk::Join { member } | BlockAsk::Again { member } => {
            with_lent(*ask, members.lend(member))
        }
        _ => with_lent(*ask, None),
    }
}

/// A line with what was lent, if anything was.
fn with_lent(asked: BlockAsk, lent: Option<Lent>) -> BlockLine
    ensures { result ≡ line_with asked lent }
{
    match lent {
        Some(Lent { pull, sent, loses }) => BlockLine {
            asked,
            pull: Some(pull),
            sent: Some(sent),
            lose: loses,
            seen: None,
        },
        None => BlockLine {
            asked,
            pull: None,
            sent: None,
            lose: false,
            seen: None,
        },
    }
}

/// Members take back what they lent to lines, as the lines left it.
pub(crate) fn take_back(members: &mut Members, lines: &mut List<BlockLine>)
    requires ready { All IsReady lines.old }
    requires apart { AreAsked (asks_of lines.old) }
    ensures all { (all : List Peer) → AreOnce all → members.old.all ≡ all_lending (asks_of lines.old) all → members.new.all ≡ map (took lines.old) all }
    ensures peers { (name : Name) → is_peer members.new.all name ≡ is_peer members.old.all name }
    ensures place { members.new.place ≡ members.old.place }
    ensures seen { map (λ line. line.seen) lines.new ≡ map (λ line. line.seen) lines.old }
{
    take_back_all(members, lines.as_mut_slice());
}

/// The members of lines take back what they lent to them, one after the other.
fn take_back_all(members: &mut Members, lines: &mut [BlockLine])
    requires { All IsReady lines.old }
    ensures all { members.new.all ≡ fold all_with members.old.all lines.old }
    ensures place { members.new.place ≡ members.old.place }
    ensures seen { map (λ line. line.seen) lines.new ≡ map (λ line. line.seen) lines.old }
{
    for line in lines.iter_mut() {
        take_back_one(members, line);
    }
}

/// The member of a line takes back what it lent to it, if it did.
fn take_back_one(members: &mut Members, line: &mut BlockLine)
    requires { IsReady line.old }
    ensures all { members.new.all ≡ all_with members.old.all line.old }
    ensures place { members.new.place ≡ members.old.place }
    ensures seen { line.new.seen ≡ line.old.seen }
{
    let asked = line.asked;
    if let BlockAsk::Join { member } | BlockAsk::Again { member } = &asked {
        members.take_back(member, returned(line).unwrap());
    }
}

/// What a line has to give back.
fn returned(line: &mut BlockLine) -> Option<Lent>
    requires { HasPull line.old }
    ensures returned { IsReturned line.old result }
    ensures seen { line.new.seen ≡ line.old.seen }
{
    let pull = line.pull.take()?;
    let sent = line.sent.take()?;
    let loses = line.lose;
    Some(Lent { pull, sent, loses })
}
