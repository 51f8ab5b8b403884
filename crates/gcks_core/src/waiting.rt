//! Whether a change may wait.
ghost use Rattle.std.specs.Prelude.{◌≡◌, ◌++◌, [], ◌∷◌, ℕ, false, None, OnOk, OnErr};
ghost use Rattle.group_terms.specs.declared.changes.Change.TheVariants.{In, Out};
ghost use Rattle.group_model.specs.Places.{Fits, is_member};
ghost use Rattle.group_model.specs.Refusals.{leaves_taken, why_no_join, why_no_leave};
ghost use Rattle.group_model.specs.Servers.{GivesRefusal};

use crate::{MemberName, Queue, Refusal};
use batch_queue::QueueRefusal;
use group_model::{a_batch_that_fits_has_few_changes, granted_changes_fit};
use group_terms::{Change, MOST_CHANGES};
use key_tree::KeyTree;

/// Lets a name in with the next batch, which is no member.
pub(crate) fn queue_join(
    needs_reopen: bool,
    tree: &KeyTree,
    queue: &mut Queue,
    member: &MemberName,
) -> Result<(), Refusal>
    requires fits { Fits tree.now.holders queue.old }
    requires stranger { is_member tree.now.holders member.now ≡ false }
    ensures answer { GivesRefusal (why_no_join needs_reopen tree.now.depth tree.now.holders queue.old member.now) result }
    ensures ok { OnOk result (queue.new ≡ queue.old ++ In member.now ∷ []) }
    ensures err { OnErr result (queue.new ≡ queue.old) }
    ensures fits { Fits tree.now.holders queue.new }
{
    if let Some(why) = why_no_join(needs_reopen, tree, queue, member) {
        return Err(why);
    }
    queue.add(Change::In { member: *member }).unwrap();
    Ok(())
}

/// Why a join may not wait, if there is a reason: the first that holds. Where there is none, the join of somebody who is no member fits with what waits.
pub(crate) fn why_no_join(
    needs_reopen: bool,
    tree: &KeyTree,
    queue: &Queue,
    member: &MemberName,
) -> Option<Refusal>
    requires fits { Fits tree.now.holders queue.now }
    ensures why { result ≡ why_no_join needs_reopen tree.now.depth tree.now.holders queue.now member.now }
    ensures fits { result ≡ None → is_member tree.now.holders member.now ≡ false → Fits tree.now.holders (queue.now ++ In member.now ∷ []) }
{
    granted_changes_fit();
    if needs_reopen {
        return Some(Refusal::NeedsReopen);
    }
    if queue.has(member) {
        return Some(Refusal::AlreadyPending);
    }
    let held = count_taken(tree, queue);
    if held == tree.leaves() {
        return Some(Refusal::TreeFull { held: held as u32 });
    }
    let pending = queue.batch().changes().len();
    if pending >= MOST_CHANGES {
        return Some(Refusal::BatchFull {
            pending: pending as u32,
        });
    }
    None
}

/// Takes a member out with the next batch.
pub(crate) fn queue_leave(
    needs_reopen: bool,
    tree: &KeyTree,
    queue: &mut Queue,
    member: &MemberName,
) -> Result<(), Refusal>
    requires fits { Fits tree.now.holders queue.old }
    ensures answer { GivesRefusal (why_no_leave needs_reopen tree.now.depth tree.now.holders queue.old member.now) result }
    ensures ok { OnOk result (queue.new ≡ queue.old ++ Out member.now ∷ []) }
    ensures err { OnErr result (queue.new ≡ queue.old) }
    ensures fits { Fits tree.now.holders queue.new }
{
    granted_changes_fit();
    if needs_reopen {
        return Err(Refusal::NeedsReopen);
    }
    if !tree.is_member(member) {
        return Err(Refusal::NotMember);
    }
    match queue.add(Change::Out { member: *member }) {
        Ok(()) => Ok(()),
        Err(why) => Err(refusal_of(why)),
    }
}

/// The leaves that the next batch will leave taken: those of members that are not leaving, and those of pending joins.
fn count_taken(tree: &KeyTree, queue: &Queue) -> usize
    requires fits { Fits tree.now.holders queue.now }
    ensures { result ≡ leaves_taken tree.now.depth tree.now.holders queue.now }
{
    a_batch_that_fits_has_few_changes();
    tree.members() as usize - queue.leaves() + queue.joins()
}

fn refusal_of(why: QueueRefusal) -> Refusal
    ensures pending { why ≡ QueueRefusal.AlreadyPending → result ≡ Refusal.AlreadyPending }
    ensures full { (pending : ℕ) → why ≡ QueueRefusal.BatchFull pending → result ≡ Refusal.BatchFull pending }
{
    match why {
        QueueRefusal::AlreadyPending => Refusal::AlreadyPending,
        QueueRefusal::BatchFull { pending } => Refusal::BatchFull { pending },
    }
}
