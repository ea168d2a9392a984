//! A call by the host that is polled: it is started at the first poll, and then waited for.
ghost use Rattle.std.specs.Prelude.{◌≡◌, ◌<◌, ◌^◌, IfOk, IfSome, IsSome, None, length};
ghost use Rattle.task_loop.specs.CallStarts.{KeepsStore};
ghost use Rattle.task_loop.specs.LoopCalls.{callee_of};
ghost use Rattle.task_loop.specs.PolledRuns.{FinishesAs, Polls};
ghost use Rattle.machine_data.specs.declared.component.Component.{Component as Shape};
ghost use Rattle.machine_data.specs.declared.records.Turn.{Turn};
ghost use Rattle.machine_rules.specs.Scripts.{export_at};
ghost use Rattle.ops_turns.specs.Turn.{CoreInOrder, given};
ghost use Rattle.ops_turns.specs.WellFormed.{IsWellFormed};

use crate::call::{Func, FuncCallConcurrent};
use futures::task::Poll;
use machine_data::{Component, NoMemory};
use ops_calls::TaskError;
use std::alloc::Global;
use task_group::TaskGroupHook;
use task_store::Store;

/// A call of an export with these words, from its start to its result.
#[derive(Drop)]
pub struct CallConcurrent {
    func: Func,
    params: Vec<u64>,
    // The call, once it was started.
    call: Option<FuncCallConcurrent>,
}

impl Func {
    /// Returns a call of the export with as many words as it takes. Nothing is started before the first poll.
    pub fn call_concurrent(
        self,
        alloc: Global,
        component: &Component,
        params: &[u64],
    ) -> Result<CallConcurrent, NoMemory>
        requires there { IsSome (export_at component.now (callee_of self)) }
        requires params { IfSome (export_at component.now (callee_of self)) (λ e. length params.now ≡ e.params) }
        ensures func { IfOk result (λ call. call.func ≡ self) }
        ensures words { IfOk result (λ call. call.params.items ≡ params.now) }
        ensures fresh { IfOk result (λ call. call.call ≡ None) }
    {
        // only the contract speaks of `component`
        let _component = component;
        let mut words = Vec::new(alloc);
        match words.extend_from_slice(params) {
            Ok(()) => Ok(CallConcurrent {
                func: self,
                params: words,
                call: None,
            }),
            Err(_) => Err(NoMemory),
        }
    }
}

// The result of a call that was started.
fn finish<T, H, G: TaskGroupHook>(
    func: Func,
    store: &mut Store<T, H, G>,
    call: &mut FuncCallConcurrent,
) -> Poll<Result<u64, TaskError>>
    ensures finishes { FinishesAs (λ w. w) call.old.thread store.old result store.new }
    ensures call { call.new ≡ call.old }
    ensures keeps { (c : Shape) → KeepsStore c store.old store.new }
{
    match func.finish_call_concurrent(store, call) {
        Poll::Ready(value) => Poll::Ready(Ok(value)),
        Poll::Pending => Poll::Pending,
    }
}

impl CallConcurrent {
    /// Starts the call at the first poll, as `Func::start_call_concurrent` does, with its refusals, and
    /// then finishes it: ready with the result where it has returned, and else pending. It isn't polled
    /// again once it was ready.
    pub fn poll<T, H, G: TaskGroupHook>(
        &mut self,
        component: &Component,
        store: &mut Store<T, H, G>,
    ) -> Poll<Result<u64, TaskError>>
        requires covered { IsWellFormed component.now }
        requires there { IsSome (export_at component.now (callee_of self.old.func)) }
        requires params { IfSome (export_at component.now (callee_of self.old.func)) (λ e. length self.old.params.items ≡ e.params) }
        requires order { (p : Turn) × CoreInOrder component.now p store.old.state.core }
        requires given { given store.old.state.core < 2 ^ 61 }
        ensures polls { Polls G.listens component.now self.old store.old result self.new store.new }
        ensures keeps { KeepsStore component.now store.old store.new }
    {
        if let Some(call) = &mut self.call {
            return finish(self.func, store, call);
        }
        match self
            .func
            .start_call_concurrent(component, store, self.params.as_slice())
        {
            Ok(mut call) => {
                let answer = finish(self.func, store, &mut call);
                self.call = Some(call);
                answer
            }
            Err(e) => Poll::Ready(Err(e)),
        }
    }
}
