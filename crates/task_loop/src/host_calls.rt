//! Calls of hosts by an instance, of works that the host makes.
ghost use Rattle.std.specs.Prelude.{◌≡◌, ◌<◌, is_ok, ◌^◌};
ghost use Rattle.ops_calls.specs.HostOps.{MayDoHostOp, IsRunningIn};
ghost use Rattle.task_store.specs.Hosts.{HoldsHosts};
ghost use Rattle.ops_turns.specs.Turn.{given};
ghost use Rattle.task_loop.specs.InstanceCalls.{PollsHost, SettlesWork, WaitsForHost};

use crate::call_tells::{asked, tell_call, tell_refused};
use crate::instance::Instance;
use machine_data::Component;
use ops_calls::{Step, TaskError, block_on_host, poll_host};
use task_group::TaskGroupHook;
use task_store::{AccessorTask, Store};

// The work was polled before its call. Where that was refused the work is let go.
fn settle<T, H: AccessorTask<T>, G: TaskGroupHook, A>(
    store: &mut Store<T, H, G>,
    number: u64,
    answer: &Result<A, TaskError>,
)
    ensures left { SettlesWork H.course number (is_ok answer.now) store.old store.new }
    ensures rest { store.new ≡ record store.old { works = store.new.works } }
{
    match answer {
        Ok(_) => {}
        Err(_) => store.let_held_go(number),
    }
}

impl Instance {
    /// Calls a host, whose work is polled once: the packed status is answered. It is Returned where the work has ended, and its
    /// value goes to the register, from 0 to 15; else Started, with the handle of the subtask, and the store holds the work and
    /// polls it until it ends. Refused, after the poll, by the work's failure; with trap 18 if an entry more doesn't fit into the
    /// table; and with trap 17 if no handle may be given. If it is out of memory, the call isn't made, and the work, which may have
    /// been polled, is let go.
    pub fn first_poll<T, H: AccessorTask<T>, G: TaskGroupHook>(
        self,
        component: &Component,
        store: &mut Store<T, H, G>,
        work: H,
        register: u8,
    ) -> Result<u32, TaskError>
        requires running { IsRunningIn component.now store.old.state }
        requires few { given store.old.state.core < 2 ^ 61 }
        requires asks { MayDoHostOp self.index store.old.state }
        requires register { register < 16 }
        requires hosts { HoldsHosts H.course store.old }
        ensures does { PollsHost G.listens H.course component.now register (H.course work) store.old result store.new }
    {
        let before = asked(&store.state);
        let host = work.left();
        let Ok(number) = store.hold_next(work) else {
            let why = TaskError::NoMemory;
            return tell_refused(&mut store.state, &mut store.listeners, &before, why);
        };
        let told = store.poll_held(number);
        let answer = poll_host(component, &mut store.state, host, told, register);
        settle(store, number, &answer);
        tell_call(&mut store.state, &mut store.listeners, &before, answer)
    }

    /// Calls a host and waits for its value: the work is polled once, and the value is answered where it has ended. Else the strand
    /// stops, and the store holds the work and polls it until it ends; then `go_on` answers the value. Refused, after the poll, by
    /// the work's failure; with trap 18 if an entry more doesn't fit into the table; and with trap 9 if the thread may not block.
    /// If it is out of memory, the call isn't made, and the work, which may have been polled, is let go.
    pub fn poll_and_block<T, H: AccessorTask<T>, G: TaskGroupHook>(
        self,
        component: &Component,
        store: &mut Store<T, H, G>,
        work: H,
    ) -> Result<Step<u64>, TaskError>
        requires running { IsRunningIn component.now store.old.state }
        requires few { given store.old.state.core < 2 ^ 61 }
        requires asks { MayDoHostOp self.index store.old.state }
        requires hosts { HoldsHosts H.course store.old }
        ensures does { WaitsForHost G.listens H.course component.now (H.course work) store.old result store.new }
    {
        let before = asked(&store.state);
        let host = work.left();
        let Ok(number) = store.hold_next(work) else {
            let why = TaskError::NoMemory;
            return tell_refused(&mut store.state, &mut store.listeners, &before, why);
        };
        let told = store.poll_held(number);
        let answer = block_on_host(component, &mut store.state, host, told);
        settle(store, number, &answer);
        tell_call(&mut store.state, &mut store.listeners, &before, answer)
    }
}
