//! A board shows what was published last.
ghost use Rattle.std.specs.Prelude.{◌≡◌};

use epoch_board::{
    BoardMade, BoardPass, EpochBoard, Publisher, Seen, a_look_between_meetings_is_exact,
    later_pairs_are_no_less,
};
use group_terms::NoMemory;
use std::alloc::Global;

#[test]
fn a_board_shows_the_last_published_pair(rt: HostRuntime) {
    later_pairs_are_no_less();
    a_look_between_meetings_is_exact();
    assert!(rt; shows_the_last(rt.alloc()) == Ok(true));
}

fn shows_the_last(alloc: Global) -> Result<bool, NoMemory> {
    let BoardMade {
        board,
        mut publisher,
        mut reader,
    } = EpochBoard::new(alloc)?;
    Ok(shows_each(&board, &mut publisher, &mut reader))
}

/// Looks before and after the pairs that are published, between two meetings, and by a later pass.
fn shows_each(board: &EpochBoard, publisher: &mut Publisher, pass: &mut BoardPass) -> bool
    requires publisher { publisher.old.board ≡ board.now }
    requires pass { pass.old.board ≡ board.now }
{
    let start = shows(board, pass, 0, 0) & shows(board, pass, 0, 0) & shows(board, pass, 0, 0);
    let mut later = board.split(pass);
    board.publish(publisher, 1, 0);
    board.publish(publisher, 2, 2);
    board.meet(publisher, pass);
    let second = shows(board, pass, 2, 2);
    board.meet(publisher, pass);
    let seen_later = shows(board, &mut later, 2, 2);
    board.publish(publisher, u32::MAX, u32::MAX - 1);
    start & second & seen_later & shows(board, &mut later, u32::MAX, u32::MAX - 1)
}

fn shows(board: &EpochBoard, pass: &mut BoardPass, epoch: u32, sequence: u32) -> bool
    requires { pass.old.board ≡ board.now }
    ensures { pass.new.board ≡ pass.old.board }
{
    board.now(pass) == Seen { epoch, sequence }
}
