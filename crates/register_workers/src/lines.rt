//! The lines of a block.
use epoch_board::Seen;
use group_model::{MemberName, Octets};
use member_pull::MemberPull;

/// What a line of a block asks.
#[derive(Clone, Copy, PartialEq, Eq)]
pub enum BlockAsk {
    /// A member pulls (RFC 6407 section 3): its first message is served, and so is the third one, if the pull agrees to the answer.
    Join { member: MemberName },
    /// A member sends what it sent last once more, and goes on from there.
    Again { member: MemberName },
    /// A member is to go out with the next batch.
    Leave { member: MemberName },
    /// What waits becomes a batch.
    Batch,
    /// What the board shows. It takes no turn.
    Now,
}

/// A line of a block; after the block, what became of it.
#[derive(Drop)]
pub struct BlockLine {
    pub asked: BlockAsk,
    /// The pull of the member that joins, or sends again.
    pub pull: Option<MemberPull>,
    /// The datagram that this member is to send; then that which it sent last.
    pub sent: Option<Octets>,
    /// Whether the first datagram that comes for the line goes missing.
    pub lose: bool,
    /// What the board showed.
    pub seen: Option<Seen>,
}
