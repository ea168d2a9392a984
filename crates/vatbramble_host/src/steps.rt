//! The steps of a main that asks.
ghost use Rattle.task_loop.specs.LoopCalls.{TakesWords};
ghost use Rattle.vatbramble_host.specs.Asks.{MayFinish, asking_says, spawns_later};
ghost use Rattle.std.specs.Prelude.{◌≡◌, ◌+◌, ◌<◌, IfErr, IfOk, IsSome, length, slice_get};
ghost use Rattle.task_loop.specs.HasRun.{HasStepResult, MayStep};
ghost use Rattle.task_loop.specs.Constants.{constants};
ghost use Rattle.task_loop.specs.Hooked.{LacksOp};

use crate::ask::{Answer, Ask, CallId, HostMain, SpawnId};
use crate::asking::{AskingMain, Begun, Wait};
use futures::task::Poll;
use machine_data::{HostDef, MainLabel};
use task_group::NoHook;
use task_loop::{Component, Func, Instance, Label, MainStep, MainTask, TaskError};
use task_store::{
    Access, AccessorTask, ComponentInstanceId, FromHost, HostWork, RuntimeInstance, Whole,
};

// Calls the export. Where the store refuses the call, main is told so, and has no call more.
fn start<T, H: HostWork, D: Drop>(
    main: &mut AskingMain<D>,
    access: &mut Access<'_, T, Whole, H>,
    component: &Component,
    func: Func,
    words: &[u64],
) -> Result<MainStep, TaskError>
    requires may { MayStep asking_says H.course component.now main.old access.old.store.now }
    requires takes { TakesWords component.now func (length words.now) }
    requires numbered { length main.old.calls.items < 4294967295 }
    ensures same { access.new.store.ghost_name ≡ access.old.store.ghost_name }
    ensures constants_stay { constants access.new.store.now ≡ constants access.old.store.now }
    ensures step { IfOk result (λ step.
        HasStepResult asking_says H.course component.now step main.old access.old.store.now main.new access.new.store.now) }
    ensures err { IfErr result (λ e. LacksOp e access.old.store.now.listeners access.new.store.now.listeners) }
{
    let place = main.calls.len();
    let number = number_of(place);
    match func.start_call_concurrent(component, access.store, words) {
        Ok(call) => {
            let thread = call.thread();
            let begun = Begun {
                call,
                finished: false,
            };
            let Ok(()) = main.calls.push(begun) else {
                return Err(TaskError::NoMemory);
            };
            main.last = Answer::Started(CallId { place });
            Ok(MainStep::Did(Label::Main(MainLabel::Start(number, thread))))
        }
        Err(TaskError::Trap(trap)) => {
            main.last = Answer::NotStarted(trap);
            Ok(MainStep::Did(Label::Main(MainLabel::StartRefused(trap, number))))
        }
        Err(_) => Err(TaskError::NoMemory),
    }
}

// The number by which labels name the call at this place, from 1.
fn number_of(place: usize) -> u32
    ensures { place < 4294967295 → result ≡ place + 1 }
{
    u32::try_from(place.saturating_add(1)).unwrap_or(u32::MAX)
}

// Takes the call's result, or waits for it.
fn finish<T, H: HostWork, D: Drop>(
    main: &mut AskingMain<D>,
    access: &mut Access<'_, T, Whole, H>,
    component: &Component,
    call: CallId,
) -> MainStep
    requires may { MayStep asking_says H.course component.now main.old access.old.store.now }
    requires untaken { MayFinish main.old.calls.items call }
    ensures same { access.new.store.ghost_name ≡ access.old.store.ghost_name }
    ensures constants_stay { constants access.new.store.now ≡ constants access.old.store.now }
    ensures step { HasStepResult asking_says H.course component.now result main.old access.old.store.now main.new access.new.store.now }
{
    // only the contract speaks of `component`
    let _component = component;
    let Some(begun) = main.calls.get_mut(call.place) else {
        unreachable!()
    };
    // a result is found by the call alone, whichever export it is of
    let func = Func {
        instance: Instance { index: 0 },
        export: 0,
    };
    let Poll::Ready(value) = func.finish_call_concurrent(access.store, &mut begun.call) else {
        main.waits = Wait::Call(call);
        return MainStep::Pends;
    };
    begun.finished = true;
    main.last = Answer::Finished(value);
    MainStep::Did(Label::Main(MainLabel::Finish(number_of(call.place), value)))
}

// Waits until no task is left that a host waits for.
fn quiet<T, H: HostWork, D: Drop>(
    main: &mut AskingMain<D>,
    access: &Access<'_, T, Whole, H>,
    component: &Component,
) -> MainStep
    requires may { MayStep asking_says H.course component.now main.old access.now.store.now }
    ensures step { HasStepResult asking_says H.course component.now result main.old access.now.store.now main.new access.now.store.now }
{
    // only the contract speaks of `component`
    let _component = component;
    let Poll::Ready(()) = access.store.poll_no_interesting_tasks() else {
        main.waits = Wait::Quiet;
        return MainStep::Pends;
    };
    main.last = Answer::Quiet;
    MainStep::Did(Label::Main(MainLabel::Quiet))
}

// Waits until the instance takes calls.
fn ready<T, H: HostWork, D: Drop>(
    main: &mut AskingMain<D>,
    access: &Access<'_, T, Whole, H>,
    component: &Component,
    instance: Instance,
) -> MainStep
    requires may { MayStep asking_says H.course component.now main.old access.now.store.now }
    requires there { IsSome (slice_get component.now.instances instance.index) }
    ensures step { HasStepResult asking_says H.course component.now result main.old access.now.store.now main.new access.now.store.now }
{
    // only the contract speaks of `component`
    let _component = component;
    let place = RuntimeInstance {
        instance: ComponentInstanceId(instance.index),
        index: 0,
    };
    let Poll::Ready(()) = access.store.poll_ready_for_concurrent_call(place) else {
        main.waits = Wait::Instance(instance);
        return MainStep::Pends;
    };
    main.last = Answer::Ready;
    MainStep::Did(Label::Main(MainLabel::Ready))
}

// Begins a work of the host's own, the one that its type makes for this number.
fn spawn<T, H: AccessorTask<T> + FromHost, D: Drop>(
    main: &mut AskingMain<D>,
    access: &mut Access<'_, T, Whole, H>,
    component: &Component,
    kind: u32,
) -> Result<MainStep, TaskError>
    requires may { MayStep asking_says H.course component.now main.old access.old.store.now }
    requires numbered { length main.old.spawns.items < 4294967295 }
    ensures same { access.new.store.ghost_name ≡ access.old.store.ghost_name }
    ensures constants_stay { constants access.new.store.now ≡ constants access.old.store.now }
    ensures step { IfOk result (λ step.
        HasStepResult asking_says H.course component.now step main.old access.old.store.now main.new access.new.store.now) }
    ensures err { IfErr result (λ e. LacksOp e access.old.store.now.listeners access.new.store.now.listeners) }
{
    // only the contract speaks of `component`
    let _component = component;
    let place = main.spawns.len();
    let Ok(work) = access.store.spawn(H::from_host(kind, HostDef::Open)) else {
        return Err(TaskError::NoMemory);
    };
    let future = work.number();
    let Ok(()) = main.spawns.push(work) else {
        return Err(TaskError::NoMemory);
    };
    main.last = Answer::Spawned(SpawnId { place });
    Ok(MainStep::Did(Label::Main(MainLabel::Spawn(number_of(place), future))))
}

// Asks that the work end.
fn abort<T, H: HostWork, D: Drop>(
    main: &mut AskingMain<D>,
    access: &mut Access<'_, T, Whole, H>,
    component: &Component,
    work: SpawnId,
) -> MainStep
    requires may { MayStep asking_says H.course component.now main.old access.old.store.now }
    requires there { work.place < length main.old.spawns.items }
    ensures same { access.new.store.ghost_name ≡ access.old.store.ghost_name }
    ensures constants_stay { constants access.new.store.now ≡ constants access.old.store.now }
    ensures step { HasStepResult asking_says H.course component.now result main.old access.old.store.now main.new access.new.store.now }
{
    // only the contract speaks of `component`
    let _component = component;
    let Some(handle) = main.spawns.get(work.place) else {
        unreachable!()
    };
    let phase = handle.abort(access.store);
    main.last = Answer::Aborted;
    MainStep::Did(Label::Main(MainLabel::Abort(phase, number_of(work.place))))
}

// Waits until the work has ended.
fn wait<T, H: HostWork, D: Drop>(
    main: &mut AskingMain<D>,
    access: &mut Access<'_, T, Whole, H>,
    component: &Component,
    work: SpawnId,
) -> MainStep
    requires may { MayStep asking_says H.course component.now main.old access.old.store.now }
    requires there { work.place < length main.old.spawns.items }
    ensures same { access.new.store.ghost_name ≡ access.old.store.ghost_name }
    ensures constants_stay { constants access.new.store.now ≡ constants access.old.store.now }
    ensures step { HasStepResult asking_says H.course component.now result main.old access.old.store.now main.new access.new.store.now }
{
    // only the contract speaks of `component`
    let _component = component;
    let Some(handle) = main.spawns.get(work.place) else {
        unreachable!()
    };
    let Poll::Ready(()) = handle.poll(access.store) else {
        main.waits = Wait::Work(work);
        return MainStep::Pends;
    };
    main.last = Answer::Ended;
    MainStep::Did(Label::Main(MainLabel::Await(number_of(work.place))))
}

impl<T, H: AccessorTask<T> + FromHost, D: HostMain + Drop> MainTask<T, H, NoHook>
    for AskingMain<D> {
    ghost says = { asking_says };

    ghost stays = { λ main before after last known. spawns_later main.spawns.items before after last known };

    fn step(
        &mut self,
        access: &mut Access<'_, T, Whole, H, NoHook>,
        component: &Component,
    ) -> Result<MainStep, TaskError> {
        let Some(ask) = self.admitted(component) else {
            return Ok(MainStep::Pends);
        };
        match ask {
            Ask::Start(func, words) => start(self, access, component, func, words.as_slice()),
            Ask::Finish(call) => Ok(finish(self, access, component, call)),
            Ask::Quiet => Ok(quiet(self, access, component)),
            Ask::Ready(instance) => Ok(ready(self, access, component, instance)),
            Ask::Spawn(kind) => spawn(self, access, component, kind),
            Ask::Abort(work) => Ok(abort(self, access, component, work)),
            Ask::Await(work) => Ok(wait(self, access, component, work)),
            Ask::Pend => {
                self.last = Answer::Pended;
                Ok(MainStep::Pends)
            }
            Ask::Answer(value) => Ok(MainStep::Answer(value)),
        }
    }
}
