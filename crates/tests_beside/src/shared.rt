use beside_works::{SharedSpawn, staged};
use machine_data::{NoMemory, Phase};
use std::alloc::Global;
use task_abort::{CallMade, LogEntry, PhaseCall};

// A phase as a digit.
fn phase_digit(phase: Phase) -> u64 {
    match phase {
        Phase::Running => 0,
        Phase::AbortRequested => 1,
        Phase::Complete => 2,
    }
}

// A call as a digit: an aborter's abort is 5.
fn call_digit(entry: &LogEntry<u32>) -> u64 {
    if entry.caller > 0 {
        return 5;
    }
    match entry.call {
        PhaseCall::Abort => 1,
        PhaseCall::PollFuture => 2,
        PhaseCall::PollHandle => 3,
        PhaseCall::Finish => 4,
    }
}

// A log as one number: two digits for each entry, its call and the phase that it found.
fn digits(log: &[LogEntry<u32>]) -> u64 {
    let mut all = 0u64;
    for entry in log {
        all = all.wrapping_mul(10).wrapping_add(call_digit(entry));
        all = all.wrapping_mul(10).wrapping_add(phase_digit(entry.answer));
    }
    all
}

// The run polls the work, an aborter aborts it, and the run finds that, and says that the work is over.
fn aborted_once(alloc: Global) -> Result<u64, NoMemory> {
    let mut spawn = SharedSpawn::new(alloc)?;
    let mut pass = spawn.split(alloc)?;
    let _running = spawn.poll()?;
    let _found = pass.abort()?;
    spawn.meet(1, pass)?;
    let early = spawn.calls();
    let _late = spawn.abort()?;
    let _pending = spawn.poll_handle()?;
    let _requested = spawn.poll()?;
    spawn.finish()?;
    let _ready = spawn.poll_handle()?;
    let log = spawn.log(alloc, early)?;
    Ok(digits(log.as_slice()))
}

#[test]
fn a_log_has_the_abort_before_what_found_it(rt: HostRuntime) {
    match aborted_once(rt.alloc()) {
        Ok(all) => assert!(rt; all == 20_501_131_214_132),
        Err(_) => panic!(rt; "no memory"),
    }
}

// The log of a run that polled a work once, while nobody aborted it.
fn of_one_poll(alloc: Global) -> Result<u64, NoMemory> {
    let own = [CallMade {
        call: PhaseCall::PollFuture,
        answer: Some(Phase::Running),
    }];
    let log = staged(alloc, &own, &[], 1)?;
    Ok(digits(log.as_slice()))
}

#[test]
fn a_log_of_one_poll_has_one_entry(rt: HostRuntime) {
    match of_one_poll(rt.alloc()) {
        Ok(all) => assert!(rt; all == 20),
        Err(_) => panic!(rt; "no memory"),
    }
}
