//! How a worker runs a line.
ghost use Rattle.std.specs.Prelude.{◌≡◌, ◌+◌, ◌<◌, ◌≤◌, ℕ, List, [], length, IfOk, IsSome, Some};
ghost use Rattle.register_workers.specs.declared.lines.BlockLine.{BlockLine as Line};
ghost use Rattle.group_model.specs.declared.entries.Asked.TheVariants.{Serve as AskedServe};
ghost use Rattle.register_workers.specs.Lines.{AsksOnce, Comes, HasPull, IsReady, Sends};
ghost use Rattle.register_workers.specs.Private.Requests.{asked_of};
ghost use Rattle.register_workers.specs.Private.Running.{ComesShort, IsGiven, IsOneTurn, IsTold, MovesBy, RunsLine, StopsInPull, UnlessShort};

use crate::desk_books::{Began, DeskBook};
use crate::requests::Request;
use crate::turns::{Told, Turn, Turned};
use crate::workers::Floor;
use crate::{BlockAsk, BlockLine};
use desk::Pass;
use epoch_board::BoardPass;
use gd_disk::Disk;
use gd_edges::{Draws, Signer};
use group_model::{MemberName, NoMemory, Octets};
use member_pull::PullRefusal;
use std::alloc::Global;
use std::sync::Wait;
use std::thread::Threads;
use work_shares::Gate;

/// What comes of a datagram that is given to the pull of a line.
#[derive(Clone, Copy, PartialEq, Eq)]
pub(crate) enum Given {
    /// It is the second message, and the third one is to be sent.
    Agrees,
    /// The pull does not take it as the second message.
    PassesOver,
    NoMemory,
}

/// Makes a turn.
fn make_turn<'a, D: Disk, G: Signer, R: Draws, M: Began<D, G, R>, W, T: Threads + Wait + Sync>(
    rt: &T,
    floor: &Floor<'_, 'a, D, G, R, M, W>,
    pass: &mut Pass<DeskBook<'a, D, G, R, M>>,
    reader: &mut BoardPass,
    request: Request,
) -> Told
    requires own { (pass.old.desk ≡ floor.now.desk.now.id) × (reader.old.board ≡ floor.now.board.now) }
    requires room { length pass.old.mine < floor.now.desk.now.terms.turns }
    ensures { MovesBy (length floor.now.desk.now.terms.start) 1 (IsTold (asked_of request) result) pass.old pass.new reader.old reader.new }
{
    let shown = floor.board.split(reader);
    let turn = Turn {
        request,
        reader: shown,
    };
    match floor.desk.turn(rt, pass, turn) {
        Ok(turned) => {
            let Turned {
                reader: shown,
                told,
            } = turned;
            *reader = shown;
            told
        }
        Err(_) => Told::NoMemory,
    }
}

/// What the member of a line is to send, as a request.
fn sending(alloc: Global, member: &MemberName, line: &BlockLine) -> Result<Request, NoMemory>
    requires { IsSome line.now.sent }
    ensures { IfOk result (λ request. (datagram : List ℕ) × (line.now.sent ≡ Some datagram) × (asked_of request ≡ AskedServe member.now datagram)) }
{
    let Some(sent) = &line.sent else {
        return Err(NoMemory);
    };
    let datagram = Octets::copy_of(alloc, sent.as_slice())?;
    Ok(Request::Serve {
        member: *member,
        datagram,
    })
}

/// Gives a datagram to the pull of a line.
fn give(alloc: Global, line: &mut BlockLine, datagram: &[u8]) -> Given
    requires { IsSome line.old.pull }
    ensures { IsGiven line.old datagram.now result line.new }
{
    let Some(pull) = &mut line.pull else {
        return Given::PassesOver;
    };
    match pull.second(alloc, datagram) {
        Ok(third) => {
            line.sent = Some(third);
            Given::Agrees
        }
        Err(why) => match why {
            PullRefusal::NoMemory => Given::NoMemory,
            _ => Given::PassesOver,
        },
    }
}

/// The member of a line sends its third message, in the last turn of the line. Answers whether want of memory ended the line.
fn send_third<'a, D: Disk, G: Signer, R: Draws, M: Began<D, G, R>, W, T: Threads + Wait + Sync>(
    rt: &T,
    floor: &Floor<'_, 'a, D, G, R, M, W>,
    pass: &mut Pass<DeskBook<'a, D, G, R, M>>,
    reader: &mut BoardPass,
    member: &MemberName,
    line: &BlockLine,
) -> bool
    requires own { (pass.old.desk ≡ floor.now.desk.now.id) × (reader.old.board ≡ floor.now.board.now) }
    requires room { length pass.old.mine < floor.now.desk.now.terms.turns }
    requires ready { IsSome line.now.sent }
    ensures { MovesBy (length floor.now.desk.now.terms.start) 1 (λ turns. UnlessShort result
        ((third : List ℕ) × (line.now.sent ≡ Some third) × IsOneTurn (AskedServe member.now third) turns) (turns ≡ []) turns)
        pass.old pass.new reader.old reader.new }
{
    let Ok(request) = sending(floor.alloc, member, line) else {
        return true;
    };
    let told = make_turn(rt, floor, pass, reader, request);
    told.is_short()
}

/// A datagram comes for a line. Answers whether want of memory ended the line.
fn come<'a, D: Disk, G: Signer, R: Draws, M: Began<D, G, R>, W, T: Threads + Wait + Sync>(
    rt: &T,
    floor: &Floor<'_, 'a, D, G, R, M, W>,
    pass: &mut Pass<DeskBook<'a, D, G, R, M>>,
    reader: &mut BoardPass,
    member: &MemberName,
    line: &mut BlockLine,
    datagram: &[u8],
) -> bool
    requires own { (pass.old.desk ≡ floor.now.desk.now.id) × (reader.old.board ≡ floor.now.board.now) }
    requires room { length pass.old.mine < floor.now.desk.now.terms.turns }
    requires ready { HasPull line.old }
    ensures { MovesBy (length floor.now.desk.now.terms.start) 1 (λ turns. UnlessShort result
        (Comes member.now datagram.now line.old turns line.new) (ComesShort datagram.now line.old turns line.new) turns)
        pass.old pass.new reader.old reader.new }
{
    if line.lose {
        line.lose = false;
        return false;
    }
    match give(floor.alloc, line, datagram) {
        Given::Agrees => send_third(rt, floor, pass, reader, member, line),
        Given::PassesOver => false,
        Given::NoMemory => true,
    }
}

/// The member of a line sends what it has to, and goes on from the answer. Answers whether want of memory ended the line.
fn send<'a, D: Disk, G: Signer, R: Draws, M: Began<D, G, R>, W, T: Threads + Wait + Sync>(
    rt: &T,
    floor: &Floor<'_, 'a, D, G, R, M, W>,
    pass: &mut Pass<DeskBook<'a, D, G, R, M>>,
    reader: &mut BoardPass,
    member: &MemberName,
    line: &mut BlockLine,
) -> bool
    requires own { (pass.old.desk ≡ floor.now.desk.now.id) × (reader.old.board ≡ floor.now.board.now) }
    requires room { length pass.old.mine + 2 ≤ floor.now.desk.now.terms.turns }
    requires ready { HasPull line.old }
    ensures { MovesBy (length floor.now.desk.now.terms.start) 2 (λ turns. UnlessShort result
        (Sends member.now line.old turns line.new) (StopsInPull member.now line.old turns line.new) turns)
        pass.old pass.new reader.old reader.new }
{
    let Ok(request) = sending(floor.alloc, member, line) else {
        return true;
    };
    let octets = match make_turn(rt, floor, pass, reader, request) {
        Told::Datagram { octets } => octets,
        Told::Nothing => return false,
        Told::NoMemory => return true,
    };
    come(rt, floor, pass, reader, member, line, octets.as_slice())
}

/// Makes the one turn of a line. Answers whether want of memory ended the line.
fn ask_once<'a, D: Disk, G: Signer, R: Draws, M: Began<D, G, R>, W, T: Threads + Wait + Sync>(
    rt: &T,
    floor: &Floor<'_, 'a, D, G, R, M, W>,
    pass: &mut Pass<DeskBook<'a, D, G, R, M>>,
    reader: &mut BoardPass,
    request: Request,
) -> bool
    requires own { (pass.old.desk ≡ floor.now.desk.now.id) × (reader.old.board ≡ floor.now.board.now) }
    requires room { length pass.old.mine < floor.now.desk.now.terms.turns }
    ensures { (line : Line) → MovesBy (length floor.now.desk.now.terms.start) 1 (λ turns. UnlessShort result
        (AsksOnce (asked_of request) line turns line) ⊥ turns) pass.old pass.new reader.old reader.new }
{
    let told = make_turn(rt, floor, pass, reader, request);
    told.is_short()
}

/// Runs a line of this number. Answers whether want of memory ended it.
pub(crate) fn run_line<
    'a,
    D: Disk,
    G: Signer,
    R: Draws,
    M: Began<D, G, R>,
    W: Gate,
    T: Threads + Wait + Sync,
>(
    rt: &T,
    floor: &Floor<'_, 'a, D, G, R, M, W>,
    number: u64,
    pass: &mut Pass<DeskBook<'a, D, G, R, M>>,
    reader: &mut BoardPass,
    line: &mut BlockLine,
) -> bool
    requires own { (pass.old.desk ≡ floor.now.desk.now.id) × (reader.old.board ≡ floor.now.board.now) }
    requires room { length pass.old.mine + 2 ≤ floor.now.desk.now.terms.turns }
    requires ready { IsReady line.old }
    ensures { RunsLine (length floor.now.desk.now.terms.start) result line.old line.new pass.old pass.new reader.old reader.new }
{
    line.seen = None;
    let asked = line.asked;
    match &asked {
        BlockAsk::Now => {
            line.seen = Some(floor.board.now(reader));
            false
        }
        BlockAsk::Join { member } => {
            floor.gate.reached(number);
            send(rt, floor, pass, reader, member, line)
        }
        BlockAsk::Again { member } => {
            floor.gate.reached(number);
            send(rt, floor, pass, reader, member, line)
        }
        BlockAsk::Leave { member } => {
            floor.gate.reached(number);
            ask_once(rt, floor, pass, reader, Request::Leave { member: *member })
        }
        BlockAsk::Batch => {
            floor.gate.reached(number);
            ask_once(rt, floor, pass, reader, Request::Batch)
        }
    }
}
