use std::alloc::Global;
use std::process::Abort;
use vatbramble_host::{
    CallOnce, CalledTask, Func, HostError, HostFunctions, HostPoll, Hosted, OpenTask, Outcome,
};

// A guest adds what a settled host and an open one answer.
const TEXT: &[u8] =
    b"scenario 1\nhandles 100\ntable 8\nidle trap\nhost settled polls 1 value 5\nhost free never\ninstance a\nexport f stackful 0\ncall_sync r0 settled\ncall_sync r1 free\nadd r0 r1\nret r0\nexit\nmain\nanswer 0\nend\n";

fn hosted(rt: &impl Abort, alloc: Global) -> Hosted {
    let Ok(hosted) = Hosted::read(alloc, TEXT) else {
        panic!(rt; "no scenario");
    };
    match hosted.with_open_host("free") {
        Ok(hosted) => hosted,
        Err(_) => panic!(rt; "no such host"),
    }
}

fn func(rt: &impl Abort, hosted: &Hosted) -> Func {
    match hosted.func("a", "f") {
        Ok(func) => func,
        Err(_) => panic!(rt; "no such export"),
    }
}

// Pends at two polls, and ends with the polls that the host has counted, and its place.
#[derive(Drop)]
struct Counting {
    place: u32,
    left: u32,
}

impl CalledTask for Counting {
    fn called(place: u32) -> Self {
        Counting { place, left: 2 }
    }
}

impl OpenTask<u64> for Counting {
    fn poll(&mut self, polls: &mut u64) -> HostPoll {
        *polls = polls.saturating_add(1);
        if self.left > 0 {
            self.left -= 1;
            return HostPoll::Pending;
        }
        let place = u64::from(self.place);
        HostPoll::Value(polls.saturating_add(place * 100))
    }
}

#[test]
fn open_works_pend_and_end(rt: HostRuntime) {
    let hosted = hosted(&rt, rt.alloc());
    let func = func(&rt, &hosted);
    let main = CallOnce::of(func, &[]);
    let run = hosted.run_open::<u64, Counting, CallOnce>(rt.alloc(), 0, main, 100);
    let Ok(run) = run else {
        panic!(rt; "no memory");
    };
    assert!(rt; matches!(run.outcome, Outcome::Done(108)));
}

// Lets each call fail at once, or pends at the first poll and answers 7 at the next one.
#[derive(Drop)]
struct Late {
    fails: bool,
    asked: bool,
}

impl HostFunctions for Late {
    fn call(&mut self, _place: u32) -> HostPoll {
        if self.fails {
            return HostPoll::Failed;
        }
        if self.asked {
            return HostPoll::Value(7);
        }
        self.asked = true;
        HostPoll::Pending
    }
}

// What one call results in with such a value.
fn outcome(rt: &impl Abort, alloc: Global, fails: bool) -> Outcome {
    let hosted = hosted(rt, alloc);
    let main = CallOnce::of(func(rt, &hosted), &[]);
    let late = Late {
        fails,
        asked: false,
    };
    match hosted.run_with(alloc, late, main, 100) {
        Ok(run) => run.outcome,
        Err(_) => panic!(rt; "no memory"),
    }
}

#[test]
fn the_host_answers_a_call_or_fails(rt: HostRuntime) {
    assert!(rt; matches!(outcome(&rt, rt.alloc(), false), Outcome::Done(12)));
    assert!(rt; matches!(outcome(&rt, rt.alloc(), true), Outcome::HostFailed(2)));
}

#[test]
fn a_host_that_is_not_there_cannot_be_opened(rt: HostRuntime) {
    let hosted = hosted(&rt, rt.alloc());
    assert!(rt; matches!(hosted.with_open_host("locked"), Err(HostError::NoHost)));
}
