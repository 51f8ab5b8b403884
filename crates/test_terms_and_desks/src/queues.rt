//! Changes wait in their order, one of a member, and at most 32.
use batch_queue::{Queue, QueueRefusal};
use group_terms::{Change, MemberName};

#[test]
fn changes_wait(rt: HostRuntime) {
    let mut queue = Queue::new();
    let in_order = waits_in_order(&mut queue) & waits_once(&mut queue);
    assert!(rt; in_order & waits_with_31_others(&mut queue));
}

/// Three changes wait, of which two let somebody in, until the queue is cleared.
fn waits_in_order(queue: &mut Queue) -> bool {
    let changes = [joins(b"a"), leaves(b"b"), joins(b"c")];
    let mut holds = true;
    for change in &changes {
        holds &= queue.add(*change).is_ok();
    }
    holds &= queue.has(&named(b"b")) & !queue.has(&named(b"d"));
    holds &= queue.batch().changes() == changes.as_slice();
    holds &= (queue.joins() == 2) & (queue.leaves() == 1);
    queue.clear();
    holds & queue.batch().changes().is_empty()
}

fn waits_once(queue: &mut Queue) -> bool {
    let first = queue.add(leaves(b"a")).is_ok();
    let refused = is_pending(queue, joins(b"a")) & is_pending(queue, leaves(b"a"));
    let one = queue.batch().changes().len() == 1;
    queue.clear();
    first & refused & one
}

fn waits_with_31_others(queue: &mut Queue) -> bool {
    let mut holds = true;
    for number in 0..32 {
        let change = joins(&[b'a' + number / 8, b'0' + number % 8]);
        holds &= queue.add(change).is_ok();
    }
    let full = queue.add(joins(b"z")) == Err(QueueRefusal::BatchFull { pending: 32 });
    let refused = is_pending(queue, joins(b"a0"));
    holds & full & refused & (queue.batch().changes().len() == 32)
}

fn is_pending(queue: &mut Queue, change: Change) -> bool {
    queue.add(change) == Err(QueueRefusal::AlreadyPending)
}

fn joins(text: &[u8]) -> Change {
    let member = named(text);
    Change::In { member }
}

fn leaves(text: &[u8]) -> Change {
    let member = named(text);
    Change::Out { member }
}

/// Who has this name; `_` for what is none.
fn named(text: &[u8]) -> MemberName {
    MemberName::read(text).unwrap_or_default()
}
