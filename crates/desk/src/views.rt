//! What a seat at the desk's table knows. No value of these types is made.
use crate::calls::Call;
use std::collections::LinkedList;

/// What is fixed when a desk is made: the history of the value, how many passes there are, how many turns each pass has, and the tag.
pub struct Terms<E, G> {
    pub start: LinkedList<E>,
    pub passes: u64,
    pub turns: u64,
    pub tag: G,
}

/// How far a turn has come.
pub enum Phase {
    Idle,
    /// With this ticket.
    Waits(u64),
    /// With this ticket. The value is out, and it has room for at least so many entries.
    Serves(u64, u64),
}

/// What a seat knows as the owner of a pass number.
pub struct Share<E> {
    pub number: u64,
    pub mine: LinkedList<Call<E>>,
}

/// What a seat knows.
pub struct View<E, G> {
    pub terms: Option<Terms<E, G>>,
    pub phase: Phase,
    /// The history, as far as it was seen.
    pub seen: LinkedList<E>,
    /// Other parts of the history that were seen.
    pub beside: LinkedList<LinkedList<E>>,
    pub shares: LinkedList<Share<E>>,
    /// How many turns it may still make.
    pub left: u64,
    /// What it is to remember after its shares are gone.
    pub noted: LinkedList<Share<E>>,
}
