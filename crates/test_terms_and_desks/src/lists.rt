//! Lists and logs take what there is memory for.
use group_terms::{List, Log, NoMemory};
use std::alloc::Global;

#[test]
fn lists_and_logs_change(rt: HostRuntime) {
    let copied = copies(rt.alloc()) == Ok(true);
    assert!(rt; copied & (change(rt.alloc()) == Ok(true)));
}

fn copies(alloc: Global) -> Result<bool, NoMemory> {
    let copy = List::copy_of(alloc, b"abc")?;
    Ok((copy.as_slice() == b"abc".as_slice()) & List::<u8>::new(alloc).pop().is_none())
}

/// A list grows and shrinks, goes on as a log, and ends as a list that is cleared.
fn change(alloc: Global) -> Result<bool, NoMemory> {
    let mut list = List::with_room(alloc, 2)?;
    let changes = grows_and_shrinks(&mut list);
    let mut log = Log::of(list);
    let goes_on = goes_on(&mut log) == Ok(true);
    let mut list = List::from_vec(log.into_list().into_vec());
    list.clear();
    Ok(changes & goes_on & list.is_empty())
}

/// Takes off the last of three items, and then all but the first; what was appended after none is kept, and then taken off. A list ends with one item.
fn grows_and_shrinks(list: &mut List<u8>) -> bool {
    let mut holds = list.push(7).is_ok() & list.extend(&[8, 9]).is_ok();
    for octet in list.as_mut_slice() {
        *octet = octet.wrapping_add(1);
    }
    holds &= (list.as_slice() == [8, 9, 10].as_slice()) & (list.pop() == Some(10));
    list.truncate(1);
    holds &= (list.len() == 1) & !list.is_empty();
    holds &= list.keep_or_truncate(0, Ok(())).is_ok() & (list.len() == 1);
    holds &= list.keep_or_truncate(0, Err(NoMemory)).is_err() & list.is_empty();
    holds & list.push(8).is_ok()
}

/// A log begins with the items of a list.
fn goes_on(log: &mut Log<u8>) -> Result<bool, NoMemory> {
    log.reserve(2)?;
    log.add(3);
    log.add(4);
    Ok(log.items() == [8, 3, 4].as_slice())
}
