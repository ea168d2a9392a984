//! That aborters run beside the run, shown by a gate at which all of them meet.

use beside_main::{Gate, run_beside};
use crossbeam_utils::CachePadded;
use std::sync::atomic::{AtomicBool, Ordering};
use std::thread;
use task_loop::Outcome;

const TWO_NEVER: &[u8] =
    b"scenario 1\nhandles 100000\ntable 1000000\nidle trap\nhost n never\nmain\nspawn n\nspawn n\nawait 1\nawait 2\nanswer 3\naborter 1\naborter 2\nend\n";

// How often one waits for the others.
const TURNS: u32 = 1_000_000;

/// Who has entered: main, and two aborters; and whether one has waited too long.
#[derive(Drop)]
struct Meeting {
    main: CachePadded<AtomicBool>,
    first: CachePadded<AtomicBool>,
    second: CachePadded<AtomicBool>,
    late: AtomicBool,
}

fn is_set(flag: &AtomicBool) -> bool {
    flag.load(Ordering::SeqCst)
}

impl Meeting {
    fn new() -> Meeting {
        Meeting {
            main: CachePadded::new(AtomicBool::new(false)),
            first: CachePadded::new(AtomicBool::new(false)),
            second: CachePadded::new(AtomicBool::new(false)),
            late: AtomicBool::new(false),
        }
    }

    // Waits until all three have entered.
    fn wait(&self) {
        for _turn in 0..TURNS {
            if is_set(&self.main) && is_set(&self.first) && is_set(&self.second) {
                return;
            }
            thread::yield_now();
        }
        self.late.store(true, Ordering::SeqCst);
    }
}

impl Gate for Meeting {
    fn before(&self, aborter: u32, number: u32) {
        if number != 1 {
            return;
        }
        match aborter {
            1 => self.first.store(true, Ordering::SeqCst),
            _ => self.second.store(true, Ordering::SeqCst),
        }
        self.wait();
    }

    fn after(&self, _aborter: u32, _number: u32) {}

    fn pends(&self, number: u32) {
        if number == 1 {
            self.main.store(true, Ordering::SeqCst);
            self.wait();
        }
    }
}

#[test]
fn aborters_run_beside_the_run(rt: HostRuntime) {
    let meeting = Meeting::new();
    assert!(rt; TWO_NEVER.len() <= 1_048_576);
    match run_beside(&rt, rt.alloc(), TWO_NEVER, 1000, &meeting) {
        Ok(report) => {
            assert!(rt; matches!(report.report.outcome, Outcome::Done(3)));
            assert!(rt; !is_set(&meeting.late));
        }
        Err(_) => panic!(rt; "no memory"),
    }
}
