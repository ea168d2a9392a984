ghost use Rattle.std.specs.Prelude.{◌≡◌, ◌<◌, ◌^◌, IfSome, IsSome, None, is_some, length, true};
ghost use Rattle.ops_calls.specs.MainCalls.{Finishes};
ghost use Rattle.task_loop.specs.CallStarts.{KeepsStore, StartsOrLeaves, StartsOrStops};
ghost use Rattle.task_loop.specs.LoopCalls.{callee_of};
ghost use Rattle.machine_data.specs.declared.records.Turn.{Turn};
ghost use Rattle.machine_rules.specs.MainOps.{start_refusal};
ghost use Rattle.machine_rules.specs.Scripts.{export_at};
ghost use Rattle.ops_turns.specs.WellFormed.{IsWellFormed};
ghost use Rattle.ops_turns.specs.Turn.{CoreInOrder, given};

use crate::call_tells::take_back;
use crate::guest_tasks::next_group;
use crate::instance::Instance;
use futures::task::Poll;
use machine_data::{Callee, Component, NoticeKind, Trap};
use ops_calls::{TaskError, finish_call, start_refusal, start_untrapped};
use ops_turns::export_def;
use task_group::{TaskGroupHook, TaskGroupId};
use task_store::Store;

/// Names an export by its instance and its place there, from 0.
#[derive(Clone, Copy, PartialEq, Eq)]
pub struct Func {
    pub instance: Instance,
    pub export: u32,
}

/// A call by the host that was started. It can be finished once.
#[derive(Drop)]
pub struct FuncCallConcurrent {
    thread: u64,
    group: u64,
}

impl FuncCallConcurrent {
    /// Returns the number of the call's thread, by which labels name it.
    pub fn thread(&self) -> u64
        ensures { result ≡ self.now.thread }
    {
        self.thread
    }

    /// Returns the group of the call, which hooks on groups are told.
    pub fn group(&self) -> TaskGroupId
        ensures { result.number ≡ self.now.group }
    {
        TaskGroupId { number: self.group }
    }
}

impl Func {
    pub(crate) fn callee(self) -> Callee
        ensures { result ≡ callee_of self }
    {
        Callee {
            instance: self.instance.index,
            export: self.export,
        }
    }

    /// Returns how many words the export takes, 0 to 16.
    pub fn param_count(self, component: &Component) -> u32
        requires { IsSome (export_at component.now (callee_of self)) }
        ensures { IfSome (export_at component.now (callee_of self)) (λ e. result ≡ e.params) }
    {
        match export_def(component, self.callee()) {
            Some(def) => def.params,
            None => unreachable!(),
        }
    }

    /// Starts a call by the host with as many words as the export takes. The call is queued, and runs when a run on the store takes
    /// it. Refused with trap 20 exactly where the store is trapped, else with trap 18 exactly where its four entries don't fit into
    /// the table, and else with trap 22 exactly where the hook answered an error. Where it is refused, or it is out of memory,
    /// nothing is made, and the store is trapped.
    pub fn start_call_concurrent<T, H, G: TaskGroupHook>(
        self,
        component: &Component,
        store: &mut Store<T, H, G>,
        params: &[u64],
    ) -> Result<FuncCallConcurrent, TaskError>
        requires covered { IsWellFormed component.now }
        requires there { IsSome (export_at component.now (callee_of self)) }
        requires params { IfSome (export_at component.now (callee_of self)) (λ e. length params.now ≡ e.params) }
        requires order { (p : Turn) × CoreInOrder component.now p store.old.state.core }
        requires given { given store.old.state.core < 2 ^ 61 }
        ensures does { StartsOrStops G.listens component.now (callee_of self) params.now store.old result store.new }
        ensures keeps { KeepsStore component.now store.old store.new }
    {
        match self.start_untrapped(component, store, params) {
            Ok(call) => Ok(call),
            Err(e) => {
                store.set_trapped();
                Err(e)
            }
        }
    }

    /// Starts a call by the host as `start_call_concurrent` does, but traps nothing: refused with trap 20 exactly where the store
    /// is trapped, else with trap 18 exactly where its four entries don't fit into the table, and else with trap 22 exactly where
    /// the hook answered an error. Where it is refused, or it is out of memory, all is as before, but for what a hook was told: the
    /// start of the group, and its finish.
    pub fn start_untrapped<T, H, G: TaskGroupHook>(
        self,
        component: &Component,
        store: &mut Store<T, H, G>,
        params: &[u64],
    ) -> Result<FuncCallConcurrent, TaskError>
        requires covered { IsWellFormed component.now }
        requires there { IsSome (export_at component.now (callee_of self)) }
        requires params { IfSome (export_at component.now (callee_of self)) (λ e. length params.now ≡ e.params) }
        requires order { (p : Turn) × CoreInOrder component.now p store.old.state.core }
        requires given { given store.old.state.core < 2 ^ 61 }
        ensures does { StartsOrLeaves G.listens component.now (callee_of self) params.now store.old result store.new }
        ensures keeps { KeepsStore component.now store.old store.new }
    {
        match start_refusal(&store.state) {
            Some(trap) => Err(TaskError::Trap(trap)),
            None => self.start_fitting(component, store, params),
        }
    }

    // Starts a call that isn't refused.
    fn start_fitting<T, H, G: TaskGroupHook>(
        self,
        component: &Component,
        store: &mut Store<T, H, G>,
        params: &[u64],
    ) -> Result<FuncCallConcurrent, TaskError>
        requires covered { IsWellFormed component.now }
        requires there { IsSome (export_at component.now (callee_of self)) }
        requires params { IfSome (export_at component.now (callee_of self)) (λ e. length params.now ≡ e.params) }
        requires order { (p : Turn) × CoreInOrder component.now p store.old.state.core }
        requires fits { start_refusal store.old.state.core ≡ None }
        requires given { given store.old.state.core < 2 ^ 61 }
        ensures does { StartsOrLeaves G.listens component.now (callee_of self) params.now store.old result store.new }
        ensures keeps { KeepsStore component.now store.old store.new }
    {
        if store.listeners.is_hooked() {
            return self.start_hooked(component, store, params);
        }
        let group = next_group(&store.state);
        let thread = start_untrapped(&mut store.state, component, self.callee(), params)?;
        let _told = store.listeners.tell(NoticeKind::Start, group);
        Ok(FuncCallConcurrent {
            thread,
            group: group.number,
        })
    }

    // Makes the call if there is a hook. The hook is told of the group before the call is made, as it may refuse it. If it is out
    // of memory then, the group finishes at once.
    fn start_hooked<T, H, G: TaskGroupHook>(
        self,
        component: &Component,
        store: &mut Store<T, H, G>,
        params: &[u64],
    ) -> Result<FuncCallConcurrent, TaskError>
        requires covered { IsWellFormed component.now }
        requires there { IsSome (export_at component.now (callee_of self)) }
        requires params { IfSome (export_at component.now (callee_of self)) (λ e. length params.now ≡ e.params) }
        requires order { (p : Turn) × CoreInOrder component.now p store.old.state.core }
        requires fits { start_refusal store.old.state.core ≡ None }
        requires given { given store.old.state.core < 2 ^ 61 }
        requires listens { G.listens ≡ true }
        requires hooked { is_some store.old.listeners.hook ≡ true }
        ensures does { StartsOrLeaves G.listens component.now (callee_of self) params.now store.old result store.new }
        ensures keeps { KeepsStore component.now store.old store.new }
    {
        let group = next_group(&store.state);
        if store.listeners.tell(NoticeKind::Start, group).is_err() {
            return Err(TaskError::Trap(Trap::HookFailed));
        }
        match start_untrapped(&mut store.state, component, self.callee(), params) {
            Ok(thread) => Ok(FuncCallConcurrent {
                thread,
                group: group.number,
            }),
            Err(e) => Err(take_back(&mut store.listeners, group, e)),
        }
    }

    /// Takes the result of a call that has returned. It is pending if the call hasn't, and then nothing is changed. A call is
    /// finished once.
    pub fn finish_call_concurrent<T, H, G: TaskGroupHook>(
        self,
        store: &mut Store<T, H, G>,
        call: &mut FuncCallConcurrent,
    ) -> Poll<u64>
        ensures finishes { Finishes call.old.thread store.old.state result store.new.state }
        ensures call { call.new ≡ call.old }
        ensures keeps { (c : Component) → KeepsStore c store.old store.new }
        ensures rest { store.new ≡ record store.old { state = store.new.state } }
    {
        finish_call(&mut store.state, call.thread)
    }
}
