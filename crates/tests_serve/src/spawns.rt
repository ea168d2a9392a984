use std::alloc::Global;
use std::process::Abort;
use vatbramble_host::{
    Answer, Ask, CalledTask, HostMain, HostPoll, Hosted, OpenTask, Outcome, Refusal, SpawnId,
};

// A component that nobody calls.
const TEXT: &[u8] =
    b"scenario 1\nhandles 100\ntable 8\nidle trap\ninstance a\nexport f stackful 0\nexit\n";

fn hosted(rt: &impl Abort, alloc: Global) -> Hosted {
    match Hosted::read_component(alloc, TEXT) {
        Ok(hosted) => hosted,
        Err(_) => panic!(rt; "no component"),
    }
}

// A work that ends after two polls, if it is of kind 0, and never else.
#[derive(Drop)]
struct Timer {
    kind: u32,
    left: u32,
}

impl CalledTask for Timer {
    fn called(place: u32) -> Self {
        Timer {
            kind: place,
            left: 2,
        }
    }
}

impl OpenTask<()> for Timer {
    fn poll(&mut self, _host: &mut ()) -> HostPoll {
        if self.kind == 0 && self.left == 0 {
            return HostPoll::Value(9);
        }
        self.left = self.left.saturating_sub(1);
        HostPoll::Pending
    }
}

// Spawns a work that never ends and one that does, asks the first to end, and waits for both.
#[derive(Drop)]
struct Spawner {
    first: Option<SpawnId>,
    second: Option<SpawnId>,
    ended: u64,
}

impl Spawner {
    fn wait(&self, work: Option<SpawnId>) -> Ask {
        match work {
            Some(work) => Ask::Await(work),
            None => Ask::Answer(0),
        }
    }
}

impl HostMain for Spawner {
    fn next(&mut self, last: Answer) -> Ask {
        match last {
            Answer::Begun => Ask::Spawn(1),
            Answer::Spawned(work) if self.first.is_none() => {
                self.first = Some(work);
                Ask::Spawn(0)
            }
            Answer::Spawned(work) => {
                self.second = Some(work);
                match self.first {
                    Some(first) => Ask::Abort(first),
                    None => Ask::Answer(0),
                }
            }
            Answer::Aborted => self.wait(self.second),
            Answer::Ended => {
                self.ended = self.ended.saturating_add(1);
                if self.ended < 2 {
                    self.wait(self.first)
                } else {
                    Ask::Answer(self.ended)
                }
            }
            _ => Ask::Answer(0),
        }
    }
}

fn new_spawner() -> Spawner {
    Spawner {
        first: None,
        second: None,
        ended: 0,
    }
}

#[test]
fn works_are_spawned_aborted_and_awaited(rt: HostRuntime) {
    let hosted = hosted(&rt, rt.alloc());
    let Ok(run) = hosted.run_open::<(), Timer, Spawner>(rt.alloc(), (), new_spawner(), 100) else {
        panic!(rt; "no memory");
    };
    assert!(rt; matches!(run.outcome, Outcome::Done(2)));
}

// Aborts a work that isn't its own.
#[derive(Drop)]
struct Meddler {
    work: SpawnId,
}

impl HostMain for Meddler {
    fn next(&mut self, last: Answer) -> Ask {
        match last {
            Answer::Refused(Refusal::NoSpawn) => Ask::Answer(1),
            _ => Ask::Abort(self.work),
        }
    }
}

#[test]
fn works_of_others_are_refused(rt: HostRuntime) {
    let hosted = hosted(&rt, rt.alloc());
    let Ok(first) = hosted.run_open::<(), Timer, Spawner>(rt.alloc(), (), new_spawner(), 100) else {
        panic!(rt; "no memory");
    };
    let Some(work) = first.host.second else {
        panic!(rt; "no work");
    };
    let Ok(run) = hosted.run_open::<(), Timer, Meddler>(rt.alloc(), (), Meddler { work }, 100)
    else {
        panic!(rt; "no memory");
    };
    assert!(rt; matches!(run.outcome, Outcome::Done(1)));
}
