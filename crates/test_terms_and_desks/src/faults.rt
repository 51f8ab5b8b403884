//! How faults are written for people, and how they are counted.
use group_terms::{Failed, List, NoMemory, Schedule, WireFault, WireWhat, counted_on};
use std::alloc::Global;

#[test]
fn faults_are_written_and_counted(rt: HostRuntime) {
    let written = has_a_text(rt.alloc()) == Ok(true);
    let counted = lists_the_calls_that_fail(rt.alloc()) == Ok(true);
    assert!(rt; written & counted & (counted_on(u64::MAX) == u64::MAX));
}

fn has_a_text(alloc: Global) -> Result<bool, NoMemory> {
    let fault = WireFault {
        what: WireWhat::Kind { number: 17 },
        at: 40,
    };
    let text = format!(in alloc; "{fault}")?;
    Ok(text.as_str() == "octet 40: kind 17, where another kind or another form of it is due")
}

fn lists_the_calls_that_fail(alloc: Global) -> Result<bool, NoMemory> {
    let mut schedule = Schedule::new(List::copy_of(alloc, &[2u64])?);
    let calls = !schedule.call() & schedule.call() & !schedule.call();
    let failed = schedule.fail() == Failed;
    Ok(calls & failed & (schedule.calls == 3) & (schedule.faults == 1))
}
