//! What follows for the lines of a block.
ghost use Rattle.register_workers.specs.FewTurns.{BlocksHaveFewTurns};
ghost use Rattle.register_workers.specs.LooksShown.{LooksWereShown};
ghost use Rattle.register_workers.specs.Own.{LinesHaveOwnTurns};

use crate::BlockLine;
use work_shares::no_share_has_more_than_the_rounds;

/// Of a block that names no member twice: the turns that serve datagrams of a member, in their order, are all turns of the line in which it sends, and
/// the line is what they make of it. Each turn is a batch, a leave, or serves a member that sends in a line. Looks show a pair, and no other line does.
pub fn each_line_has_its_own_turns()
    ensures { LinesHaveOwnTurns }
{}

/// A block has at most two turns for each worker in each round of its lines.
pub fn a_block_has_few_turns()
    ensures { BlocksHaveFewTurns }
{
    no_share_has_more_than_the_rounds::<BlockLine>();
}

/// Each pair that a look of a block showed is the last one that some first part of the history showed.
pub fn each_look_was_shown()
    ensures { LooksWereShown }
{}
