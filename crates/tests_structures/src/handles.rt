ghost use Rattle.std.specs.Prelude.{◌≤◌};
ghost use Rattle.task_handles.specs.Handles.{live_count};

use std::alloc::Global;
use std::process::Abort;
use task_handles::{
    HandleCounter, HandleError, HandleTable, MAX_HANDLES, Rep, ThreadHandleTable, WaitableKind,
};

// A table and a counter that counts each of its live handles.
#[derive(Drop)]
struct Counted {
    table: HandleTable,
    counter: HandleCounter,
    ghost counted: { live_count table ≤ counter.live },
}

#[tactic(auto, using(task_handles::proofs::CountLemmas::counting))]
impl Counted {
    fn new(alloc: Global, limit: u32) -> Self
        requires { limit ≤ MAX_HANDLES }
    {
        Counted {
            table: HandleTable::new(alloc),
            counter: HandleCounter::new(limit),
        }
    }

    fn insert_guest(&mut self, id: u32) -> u32 {
        given(self.table.subtask_insert_guest(&mut self.counter, rep(id)))
    }

    fn insert_host(&mut self, id: u32) -> u32 {
        given(self.table.subtask_insert_host(&mut self.counter, rep(id)))
    }

    fn insert_set(&mut self, id: u32) -> u32 {
        given(self.table.waitable_set_insert(&mut self.counter, rep(id)))
    }

    fn remove_subtask(&mut self, handle: u32) -> u32 {
        match self.table.subtask_remove(&mut self.counter, handle) {
            Ok((rep, _)) => rep.id,
            Err(_) => NONE,
        }
    }

    fn remove_set(&mut self, handle: u32) -> u32 {
        id_of(self.table.waitable_set_remove(&mut self.counter, handle))
    }
}

// What represents a handle or an id where there is none.
const NONE: u32 = 0;

fn given(answer: Result<u32, HandleError>) -> u32 {
    match answer {
        Ok(handle) => handle,
        Err(_) => NONE,
    }
}

fn id_of(answer: Result<Rep, HandleError>) -> u32 {
    match answer {
        Ok(rep) => rep.id,
        Err(_) => NONE,
    }
}

fn rep(id: u32) -> Rep {
    Rep { id, serial: 7 }
}

#[test]
fn handles_name_what_was_put_in(rt: HostRuntime) {
    let mut held = Counted::new(rt.alloc(), MAX_HANDLES);
    assert!(rt; held.table.is_empty());
    assert!(rt; held.insert_guest(10) == 1);
    assert!(rt; held.insert_set(11) == 2);
    assert!(rt; held.insert_host(12) == 3);
    are_named(&rt, &held.table);
    assert!(rt; held.remove_set(2) == 11);
    assert!(rt; held.insert_set(13) == 2);
    assert!(rt; held.counter.live() == 3);
}

// Handle 1 is a guest's subtask, 2 a set and 3 a host's.
fn are_named(rt: &impl Abort, table: &HandleTable) {
    assert!(rt; id_of(table.waitable_set_rep(2)) == 11);
    assert!(rt; matches!(table.subtask_rep(3), Ok((Rep { id: 12, serial: 7 }, true))));
    assert!(rt; matches!(table.waitable_rep(1), Ok((_, WaitableKind::GuestSubtask))));
    assert!(rt; matches!(table.waitable_rep(2), Err(HandleError::BadHandle)));
}

#[test]
fn lowered_handle_limit(rt: HostRuntime) {
    let mut held = Counted::new(rt.alloc(), 2);
    assert!(rt; held.insert_guest(1) == 1);
    assert!(rt; held.insert_guest(2) == 2);
    held.counter.set_limit(1);
    assert!(rt; held.counter.limit() == 1);
    assert!(rt; held.insert_guest(3) == NONE);
    assert!(rt; held.remove_subtask(2) == 2);
    assert!(rt; held.insert_guest(3) == NONE);
    assert!(rt; held.remove_subtask(1) == 1);
    assert!(rt; held.insert_guest(3) == 1);
}

// A counter up to two, with one thread: its handle was reserved, given, given back and given again.
#[tactic(auto, using(task_handles::proofs::CountLemmas::counting))]
fn counted_thread(rt: &impl Abort, alloc: Global) -> HandleCounter {
    let mut counter = HandleCounter::new(2);
    let mut threads = ThreadHandleTable::new(alloc);
    assert!(rt; counter.reserve());
    assert!(rt; threads.next_handle() == 1);
    assert!(rt; matches!(threads.insert_reserved(&mut counter, rep(1)), Ok(1)));
    assert!(rt; id_of(threads.guest_thread_rep(1)) == 1);
    assert!(rt; id_of(threads.guest_thread_remove(&mut counter, 1)) == 1);
    assert!(rt; given(threads.guest_thread_insert(&mut counter, rep(2))) == 1);
    counter
}

// A set gets the second handle, once a reservation of it is given up, and the next one none.
#[tactic(auto, using(task_handles::proofs::CountLemmas::counting))]
fn set_is_counted(rt: &impl Abort, alloc: Global, counter: &mut HandleCounter) {
    let mut held = HandleTable::new(alloc);
    assert!(rt; counter.reserve());
    assert!(rt;
        matches!(
            held.waitable_set_insert(counter, rep(4)),
            Err(HandleError::Limit)
        )
    );
    counter.release();
    assert!(rt; matches!(held.waitable_set_insert(counter, rep(4)), Ok(1)));
    assert!(rt;
        matches!(
            held.waitable_set_insert(counter, rep(5)),
            Err(HandleError::Limit)
        )
    );
}

#[test]
fn threads_share_the_counter(rt: HostRuntime) {
    let mut counter = counted_thread(&rt, rt.alloc());
    set_is_counted(&rt, rt.alloc(), &mut counter);
    assert!(rt; counter.live() == 2);
}
