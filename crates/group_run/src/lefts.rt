//! Datagrams that turns of a block left on their way.
ghost use Rattle.std.specs.Prelude.{◌≡◌, ◌≤◌, List, ◌∷◌, Some, IfOk, OnOk, drop, length, option_map, slice_get};
ghost use Rattle.group_model.specs.declared.entries.Entry.{Entry};
ghost use Rattle.group_run.specs.Blocks.{Left};
ghost use Rattle.group_run.specs.Private.Lefts.{AreBefore, AreLefts, AreServed, left_at};

use crate::unread::{mail_at, mail_count};
use group_model::{Asked, Entry, List, MemberName, NoMemory, Octets};
use indexmap::IndexSet;
use member_steps::Members;
use std::alloc::Global;

/// The place of a datagram that a turn left on its way.
#[derive(Clone, Copy, PartialEq, Eq)]
pub(crate) struct LeftAt {
    /// The place of its entry in the history.
    pub(crate) place: usize,
    /// Its place among what that entry sent.
    pub(crate) at: usize,
    /// Whether it is marked as going missing.
    pub(crate) lost: bool,
}

/// The places of what the turns from place `first` on left on its way, the first datagram last. It goes over each turn once.
///
/// An answer to a member is left, unless a later turn serves the same member. It is marked as going missing where the next datagram to that member is to.
/// All replies of a batch are left, without a mark.
pub(crate) fn find_left(
    alloc: Global,
    members: &Members,
    entries: &[Entry],
    first: usize,
) -> Result<List<LeftAt>, NoMemory>
    requires { first ≤ length entries.now }
    ensures { IfOk result (λ lefts. AreLefts members.now.all entries.now lefts (drop first entries.now)) }
{
    let mut served = IndexSet::new(alloc);
    let mut lefts = List::new(alloc);
    for place in (first..entries.len()).rev() {
        add_left(&mut lefts, &mut served, members, &entries[place], place)?;
    }
    Ok(lefts)
}

/// The datagram at such a place, and to whom it goes; `None` exactly where there is none.
pub(crate) fn mail_left<'h>(entries: &'h [Entry], left: &LeftAt) -> Option<(MemberName, &'h Octets)>
    ensures { option_map (λ mail. (mail.0, mail.1.now)) result ≡ option_map (λ (left : Left). left.mail) (left_at entries.now left.now) }
{
    let entry = entries.get(left.place)?;
    mail_at(entry, left.at)
}

/// Adds what the turn at a place left to what the turns after it left, which served these members.
fn add_left(
    lefts: &mut List<LeftAt>,
    served: &mut IndexSet<MemberName>,
    members: &Members,
    entry: &Entry,
    place: usize,
) -> Result<(), NoMemory>
    ensures lefts { OnOk result ((entries later : List Entry) → slice_get entries place ≡ Some entry.now → AreServed served.old.keys later →
        AreLefts members.now.all entries lefts.old later → AreLefts members.now.all entries lefts.new (entry.now ∷ later)) }
    ensures served { OnOk result ((later : List Entry) → AreServed served.old.keys later → AreServed served.new.keys (entry.now ∷ later)) }
{
    match &entry.asked {
        Asked::Serve { member, .. } => {
            let is_left = served.insert(*member)?;
            if is_left {
                add_all(lefts, entry, place, members.all().loses(member))
            } else {
                Ok(())
            }
        }
        _ => add_all(lefts, entry, place, false),
    }
}

/// Adds all that the entry at a place sent, from its last datagram back, marked as going missing or not.
fn add_all(
    lefts: &mut List<LeftAt>,
    entry: &Entry,
    place: usize,
    lost: bool,
) -> Result<(), NoMemory>
    ensures { OnOk result (AreBefore lost entry.now place lefts.old lefts.new) }
{
    for at in (0..mail_count(entry)).rev() {
        lefts.push(LeftAt { place, at, lost })?;
    }
    Ok(())
}
