//! The entries of a history: what was asked, what the outside did meanwhile, and what was answered.
ghost use Rattle.std.specs.Prelude.{◌≡◌};
ghost use Rattle.group_model.specs.Answers.{ran_out};
ghost use Rattle.group_model.specs.declared.entries.Refusal.TheVariants as refusals;

use crate::{
    KeyName, List, LkhId, MemberName, MemberNames, NoMemory, Octets, Phase1, PushRefusal, Rule,
    Wrap,
};

/// One event of a history: what was asked of the key server, what the outside did meanwhile, and what was answered.
#[derive(Drop)]
pub struct Entry {
    pub asked: Asked,
    pub outside: Outside,
    pub answer: Answer,
}

/// What is asked of the key server.
#[derive(Drop)]
pub enum Asked {
    /// To make a group with a tree of this depth.
    Create {
        depth: u8,
    },
    /// To open the group that the disk has.
    Begin,
    /// To judge members by one more rule, after all others.
    AddRule {
        rule: Rule,
    },
    /// To take up a member's phase 1 SA.
    Introduce {
        phase: Phase1,
    },
    /// To answer a datagram. Who sent it is told by the script alone: the server looks at nothing but the datagram.
    Serve {
        member: MemberName,
        datagram: Octets,
    },
    /// To take a member out with the next batch.
    Leave {
        member: MemberName,
    },
    /// To close the batch: the pending changes make the next epoch.
    Batch,
    /// To refuse, until it is opened again, whatever changes it, shows it or gives all members their pushes.
    Halt,
    /// To open it again, from the journal that it has.
    Reopen,
    /// Who has which leaf.
    Show,
    /// Not of the server: the next datagram to a member goes missing.
    Lose {
        member: MemberName,
    },
    /// Not of the server: a member that has sent nothing is to send its last datagram again.
    Again {
        member: MemberName,
    },
    /// Not of the server: a datagram comes to a member, which takes the keys of its fourth message; or it goes missing.
    Keep {
        member: MemberName,
    },
    /// Not of the server: a member is given the last push of this number that was sent in this run.
    Deliver {
        member: MemberName,
        sequence: u32,
    },
    /// Each present member is given each push that was sent in this run and is new to it.
    DeliverAll,
    /// Not of the server: which traffic key a member has.
    Key {
        member: MemberName,
    },
    /// Whether these members derive the traffic key of an epoch from what they hold and what was sent.
    Derive {
        epoch: u32,
        members: MemberNames,
    },
    /// Which epoch the group is at, and the number of its last push, without a turn of the server.
    Now,
    /// Not of the server: a block of so many lines begins, which workers run side by side.
    Together {
        lines: u32,
    },
    /// Not of the server: the workers have run all of them.
    Together2,
}

/// What the outside did during a request.
#[derive(Clone, Copy, PartialEq, Eq)]
pub struct Outside {
    /// A call on the disk failed.
    pub disk_failed: bool,
    /// The epoch at which an opening stands; `None` for any other request.
    pub found: Option<u32>,
    /// The place of the server's draws before the request.
    pub place: u64,
}

/// What is answered.
#[derive(Drop)]
pub enum Answer {
    Done,
    /// The number of the rule, counted from 1.
    RuleNumber {
        number: u32,
    },
    /// A message of a pull; of a fourth message also what it says by key names.
    Datagram {
        octets: Octets,
        names: Option<SymReply>,
    },
    /// The change is pending.
    Queued,
    Batched {
        output: Output,
    },
    /// The group stands; the pair of pushes of its last batch was sent again, where there is one.
    Opened {
        group: GroupSeen,
        resent: Option<PushPair>,
    },
    /// The group as it is.
    Shown {
        group: GroupSeen,
    },
    /// The group is at this epoch, and its last push has this number; 0 and 0 before it is open.
    Pair {
        epoch: u32,
        sequence: u32,
    },
    /// The member's store has the keys of this epoch.
    Kept {
        epoch: u32,
    },
    /// The datagram went missing.
    Lost,
    /// The reply is older than what the member's store has.
    Older {
        last: u32,
        got: u32,
    },
    /// The member's store is at the root of this epoch.
    TookRoot {
        epoch: u32,
    },
    /// The member's store has the traffic key of this epoch.
    TookTraffic {
        epoch: u32,
    },
    /// The member's store refuses the push.
    PushRefused {
        why: PushRefusal,
    },
    /// The traffic key of a member's store: its epoch, the number of the last push that the store accepted, and a fingerprint, the first 8 octets of the
    /// SHA-256 of the cipher key and the integrity key.
    KeyIs {
        epoch: u32,
        sequence: u32,
        print: [u8; 8],
    },
    /// The request changes nothing.
    Nothing,
    /// Whether the key can be derived.
    Derived {
        yes: bool,
    },
    Refused {
        why: Refusal,
    },
}

impl Answer {
    /// Whether the request was refused because it ran out of memory.
    pub fn ran_out(&self) -> bool
        ensures { result ≡ ran_out self.now }
    {
        match self {
            Answer::Refused { why } => matches!(why, Refusal::NoMemory),
            _ => false,
        }
    }
}

/// What is counted, and may go no further than the group's limit.
#[derive(Clone, Copy, PartialEq, Eq)]
pub enum Counter {
    Epoch,
    Sequence,
}

/// Why the key server refuses a request.
#[derive(Clone, Copy, PartialEq, Eq)]
pub enum Refusal {
    /// It has to be opened again first.
    NeedsReopen,
    /// The datagram has no header of a pull (`message` 0), or does not decrypt to a text of that message (1 or 3); `at` is the place of the first fault.
    Malformed {
        message: u8,
        at: u32,
    },
    /// No introduced SA has the cookies of the datagram.
    UnknownPeer,
    /// The datagram has the message id of a session that awaits no message, and is not the one that the session took last.
    WrongStep,
    /// It is the message that is due, but carries another HASH.
    BadHash {
        carried: [u8; 32],
        expected: [u8; 32],
    },
    /// The identification is not that of the group.
    WrongGroup,
    /// The rule of this number keeps the member out; 0 where no rule matches it.
    Denied {
        rule: u32,
    },
    /// The name is not a member of the present epoch.
    NotMember,
    /// The next batch has a change of the member already.
    AlreadyPending,
    /// The members that are not leaving and the pending joins have taken all `held` leaves.
    TreeFull {
        held: u32,
    },
    /// As many changes are pending as a batch has at the most.
    BatchFull {
        pending: u32,
    },
    /// The next batch would go past the group's limit: its epoch, or the number of its last push. The counter is at this number.
    Spent {
        counter: Counter,
        at: u32,
    },
    /// The disk failed.
    DiskFault,
    /// An SA of this member, or with these cookies, was introduced before.
    PhaseTaken,
    /// As many SAs are introduced as there may be.
    PhaseFull {
        held: u32,
    },
    /// The disk has no journal of a group; the first place where that shows.
    NotAJournal {
        at: u64,
    },
    /// It was out of memory.
    NoMemory,
}

impl From<NoMemory> for Refusal {
    ghost from_gives = { λ _ refusal. refusal ≡ refusals.NoMemory };

    fn from(_: NoMemory) -> Self {
        Refusal::NoMemory
    }
}

/// What a batch puts out.
#[derive(Drop)]
pub struct Output {
    /// The epoch that it made.
    pub epoch: u32,
    /// The number of the last push.
    pub sequence: u32,
    /// How many members there are.
    pub members: u32,
    /// The encryptions between tree keys and then that of the traffic key, where somebody stayed; else none.
    pub wraps: List<Wrap>,
    pub pushes: Option<PushPair>,
    /// One reply to each member that came in, in the order of the joins.
    pub replies: List<SentReply>,
}

/// The two pushes of a batch (RFC 6407 section 4): the new tree keys, and under them the new traffic key.
#[derive(Drop)]
pub struct PushPair {
    /// The sequence number of the membership push; the traffic push has the next.
    pub first: u32,
    pub membership: Octets,
    pub traffic: Octets,
    /// What the two encrypt.
    pub wraps: List<Wrap>,
}

/// A reply as it was sent: what it says by key names, and its datagram.
#[derive(Drop)]
pub struct SentReply {
    pub says: SymReply,
    pub datagram: Octets,
}

/// What a reply to a member says (RFC 6407 section 3.2): the keys on its way to the root, and the traffic key.
#[derive(Drop)]
pub struct SymReply {
    pub member: MemberName,
    /// The epoch whose keys these are.
    pub keyed_epoch: u32,
    pub sequence: u32,
    pub names: List<KeyName>,
}

/// A group as somebody sees it who asks.
#[derive(Drop)]
pub struct GroupSeen {
    pub depth: u8,
    pub epoch: u32,
    pub sequence: u32,
    /// Its members, by rising leaf.
    pub members: List<Standing>,
}

/// A member and its leaf.
#[derive(Clone, Copy, PartialEq, Eq)]
pub struct Standing {
    pub leaf: LkhId,
    pub member: MemberName,
}

/// Keys in an order in which each follows from what is held and from those before it.
#[derive(Drop)]
pub struct Derivation {
    pub names: List<KeyName>,
}
