ghost use Rattle.std.specs.Prelude.{◌≡◌, ◌+◌, ◌<◌, ◌^◌, ◌-◌, ◌++◌, ◌∷◌, [], length, option_copied, IfOk, IfSome, None, OnOk, Some, slice_get, slice_set};
ghost use Rattle.task_loop.specs.HasRun.{HasStepResult, MayStep, StepsTo};
ghost use Rattle.task_loop.specs.Constants.{constants};
ghost use Rattle.machine_data.specs.Read.{phase_of};
ghost use Rattle.machine_rules.specs.MainOps.{is_complete, is_ready_for_call, main_aborted, spawned_at, started_at};
ghost use Rattle.machine_rules.specs.Run.{main_opening};
ghost use Rattle.machine_rules.specs.Scripts.{values_in};
ghost use Rattle.task_run.specs.declared.scenario.MainOp.TheVariants as main_op;
ghost use Rattle.task_run.specs.Knows.{knows_later};
ghost use Rattle.task_run.specs.Says.{script_says};
ghost use Rattle.task_run.specs.Script.{place_of, started};
ghost use Rattle.task_run.specs.Spawns.{KnowsSpawns, number_in};
ghost use Rattle.task_store.specs.Changes.{ChangesCore};
ghost use Rattle.task_store.specs.Hosts.{HoldsHosts};
ghost use Rattle.task_store.specs.Spawned.{IsSpawnedIn};
ghost use Rattle.core_primitives.specs.StateView.{StateView};

use crate::scenario::MainOp;
use crate::script::{ScriptMain, Start};
use core_primitives::{InstancePrimitives, ResultPrimitives, View};
use futures::task::Poll;
use machine_data::{Component, HostDef, Label, MainLabel, Operand, Phase, Trap};
use ops_calls::finish_call as take_result;
use std::alloc::{AllocError, Global};
use task_group::TaskGroupHook;
use task_loop::{Func, MainStep, MainTask, TaskError, operand_value};
use task_store::{Access, AccessorTask, FromHost, HostWork, SpawnHandle, Whole};

// The values of these operands.
fn words_of(
    alloc: Global,
    registers: &[u64; 16],
    operands: &[Operand],
) -> Result<Vec<u64>, AllocError>
    ensures { IfOk result (λ words. words.items ≡ values_in registers.now operands.now) }
{
    let mut words = Vec::new(alloc);
    for operand in operands {
        words.push(operand_value(registers, *operand))?;
    }
    Ok(words)
}

impl<'a> ScriptMain<'a> {
    /// Makes main at its first op, with registers 0.
    pub fn new(alloc: Global, ops: &'a [MainOp]) -> Self
        ensures place { place_of result ≡ main_opening }
        ensures ops { result.ops.now ≡ ops.now }
        ensures knows { (s : StateView) → KnowsSpawns result s }
    {
        ScriptMain {
            alloc,
            ops,
            at: 0,
            registers: [0; 16],
            starts: Vec::new(alloc),
            spawns: Vec::new(alloc),
        }
    }

    // The number by which labels name the next start. There are fewer starts than ops.
    fn next_start(&self) -> u32
        requires op { self.now.at < length self.now.ops.now }
        requires few { length self.now.ops.now < 2 ^ 32 }
        ensures { result ≡ length self.now.starts.items + 1 }
    {
        // read so that the proof knows the invariant of `self`
        let _before = self.at;
        self.starts.len() as u32 + 1
    }

    // The place after this op.
    pub(crate) fn next_place(&self) -> usize
        requires { self.now.at < length self.now.ops.now }
        ensures { result ≡ self.now.at + 1 }
    {
        // read so that the proof knows the invariant of `self`
        let _count = self.ops.len();
        self.at + 1
    }

    // The op is done, and this came of a start.
    fn keep(&mut self, start: Start) -> Result<(), AllocError>
        requires { self.old.at < length self.old.ops.now }
        ensures ops { self.new.ops ≡ self.old.ops }
        ensures registers { self.new.registers ≡ self.old.registers }
        ensures at { OnOk result (self.new.at ≡ self.old.at + 1) }
        ensures starts { OnOk result (self.new.starts.items ≡ self.old.starts.items ++ start ∷ []) }
        ensures spawns { self.new.spawns ≡ self.old.spawns }
    {
        let at = self.next_place();
        self.starts.push(start)?;
        self.at = at;
        Ok(())
    }

    // The number by which labels name the next spawn. There are fewer spawns than ops.
    fn next_spawn(&self) -> u32
        requires op { self.now.at < length self.now.ops.now }
        requires few { length self.now.ops.now < 2 ^ 32 }
        ensures { result ≡ length self.now.spawns.items + 1 }
    {
        // read so that the proof knows the invariant of `self`
        let _before = self.at;
        self.spawns.len() as u32 + 1
    }

    // The op is done, and spawned this work.
    fn keep_spawn(&mut self, work: SpawnHandle) -> Result<(), AllocError>
        requires { self.old.at < length self.old.ops.now }
        ensures ops { self.new.ops ≡ self.old.ops }
        ensures registers { self.new.registers ≡ self.old.registers }
        ensures at { OnOk result (self.new.at ≡ self.old.at + 1) }
        ensures starts { self.new.starts ≡ self.old.starts }
        ensures spawns { OnOk result (self.new.spawns.items ≡ self.old.spawns.items ++ work ∷ []) }
    {
        let at = self.next_place();
        self.spawns.push(work)?;
        self.at = at;
        Ok(())
    }

    // The number of the call that a start made, or why it was refused. A start that isn't there has
    // the number 0, which no call has.
    fn call_at(&self, start: u32) -> Result<u64, Trap>
        ensures { started_at (place_of self.now) start ≡ started result }
    {
        match self.starts.get((start as usize).saturating_sub(1)) {
            Some(Start::Called(number)) => Ok(*number),
            Some(Start::Refused(why)) => Err(*why),
            None => Ok(0),
        }
    }

    /// Answers the work of a spawn, counted from 1; none if main hasn't made so many.
    pub fn spawned(&self, spawn: u32) -> Option<SpawnHandle>
        ensures is { result ≡ slice_get self.now.spawns.items (spawn - 1) }
        ensures number { spawned_at (place_of self.now) spawn ≡ number_in result }
    {
        self.spawns.get((spawn as usize).saturating_sub(1)).copied()
    }

    // The value of a register.
    #[tactic(auto, using(std::proofs::lemmas::List::set_past))]
    fn set_register(&mut self, register: u8, value: u64)
        ensures ops { self.new.ops ≡ self.old.ops }
        ensures registers { self.new.registers ≡ slice_set self.old.registers register value }
        ensures starts { self.new.starts ≡ self.old.starts }
        ensures spawns { self.new.spawns ≡ self.old.spawns }
    {
        if (register as usize) < self.registers.len() {
            self.registers[register as usize] = value;
        }
    }
}

// Main calls the export.
#[tactic(auto, using(std::proofs::lemmas::Option::slice_get_within))]
fn make_start<T, H: HostWork, G: TaskGroupHook>(
    main: &mut ScriptMain<'_>,
    access: &mut Access<'_, T, Whole, H, G>,
    component: &Component,
    func: Func,
    params: &[Operand],
) -> Result<MainStep, TaskError>
    requires may { MayStep script_says H.course component.now main.old access.old.store.now }
    requires op { slice_get main.old.ops.now main.old.at ≡ Some (main_op.Start func params.now) }
    ensures same { access.new.store.ghost_name ≡ access.old.store.ghost_name }
    ensures constants_stay { constants access.new.store.now ≡ constants access.old.store.now }
    ensures ops { main.new.ops ≡ main.old.ops }
    ensures steps { StepsTo script_says H.course component.now result main.old access.old.store.now main.new access.new.store.now }
{
    let number = main.next_start();
    let words = words_of(main.alloc, &main.registers, params)?;
    match func.start_call_concurrent(component, access.store, words.as_slice()) {
        Ok(call) => {
            let thread = call.thread();
            main.keep(Start::Called(thread))?;
            Ok(MainStep::Did(Label::Main(MainLabel::Start(number, thread))))
        }
        Err(TaskError::Trap(trap)) => match trap {
            Trap::HookFailed => Err(TaskError::Trap(trap)),
            _ => {
                let Ok(()) = main.keep(Start::Refused(trap)) else {
                    return Err(TaskError::NoMemory);
                };
                Ok(MainStep::Did(Label::Main(MainLabel::StartRefused(trap, number))))
            }
        },
        Err(_) => Err(TaskError::NoMemory),
    }
}

// Main finishes the call that came of a start.
#[tactic(auto, using(std::proofs::lemmas::Option::slice_get_within))]
fn finish_call<T, H: HostWork, G: TaskGroupHook>(
    main: &mut ScriptMain<'_>,
    access: &mut Access<'_, T, Whole, H, G>,
    component: &Component,
    start: u32,
    register: u8,
) -> Result<MainStep, TaskError>
    requires may { MayStep script_says H.course component.now main.old access.old.store.now }
    requires op { slice_get main.old.ops.now main.old.at ≡ Some (main_op.Finish start register) }
    ensures same { access.new.store.ghost_name ≡ access.old.store.ghost_name }
    ensures constants_stay { constants access.new.store.now ≡ constants access.old.store.now }
    ensures ops { main.new.ops ≡ main.old.ops }
    ensures steps { StepsTo script_says H.course component.now result main.old access.old.store.now main.new access.new.store.now }
{
    // only the contract speaks of `component`
    let _component = component;
    let at = main.next_place();
    match main.call_at(start) {
        Ok(number) => match take_result(&mut access.store.state, number) {
            Poll::Ready(value) => {
                main.set_register(register, value);
                main.at = at;
                Ok(MainStep::Did(Label::Main(MainLabel::Finish(start, value))))
            }
            Poll::Pending => Ok(MainStep::Pends),
        },
        Err(why) => {
            main.at = at;
            Ok(MainStep::Did(Label::Main(MainLabel::FinishRefused(why, start))))
        }
    }
}

// The host at this place, if there is one.
fn host_here(hosts: &[HostDef], at: u32) -> Option<HostDef>
    ensures { result ≡ slice_get hosts.now at }
{
    hosts.get(at as usize).copied()
}

// Main spawns a work of the host at this place of the component.
#[tactic(auto, using(std::proofs::lemmas::Option::slice_get_within))]
fn spawn_work<T, H: AccessorTask<T> + FromHost, G: TaskGroupHook>(
    main: &mut ScriptMain<'_>,
    access: &mut Access<'_, T, Whole, H, G>,
    component: &Component,
    host: u32,
) -> Result<MainStep, TaskError>
    requires may { MayStep script_says H.course component.now main.old access.old.store.now }
    requires op { slice_get main.old.ops.now main.old.at ≡ Some (main_op.Spawn host) }
    ensures same { access.new.store.ghost_name ≡ access.old.store.ghost_name }
    ensures constants_stay { constants access.new.store.now ≡ constants access.old.store.now }
    ensures ops { main.new.ops ≡ main.old.ops }
    ensures steps { StepsTo script_says H.course component.now result main.old access.old.store.now main.new access.new.store.now }
{
    let number = main.next_spawn();
    let Some(def) = host_here(component.hosts.as_slice(), host) else {
        unreachable!()
    };
    let Ok(work) = access.store.spawn(H::from_host(host, def)) else {
        return Err(TaskError::NoMemory);
    };
    let future = work.number();
    main.keep_spawn(work)?;
    Ok(MainStep::Did(Label::Main(MainLabel::Spawn(number, future))))
}

// The phase of the work, which an abort is asked for; it is complete where there is no such spawn.
fn abort<T, H: HostWork, G: TaskGroupHook>(
    access: &mut Access<'_, T, Whole, H, G>,
    work: Option<SpawnHandle>,
) -> Phase
    requires spawned { IfSome work (λ h. IsSpawnedIn h access.old.store.now.state) }
    requires hosts { HoldsHosts H.course access.old.store.now }
    ensures same { access.new.store.ghost_name ≡ access.old.store.ghost_name }
    ensures phase { result ≡ phase_of (number_in work) access.old.store.now.state.core }
    ensures store { ChangesCore (main_aborted (number_in work)) access.old.store.now access.new.store.now }
    ensures hosts { HoldsHosts H.course access.new.store.now }
{
    access.store.state.none_is_zero();
    match work {
        Some(work) => work.abort(access.store),
        None => Phase::Complete,
    }
}

// Main aborts the work of a spawn.
#[tactic(auto, using(std::proofs::lemmas::Option::slice_get_within))]
fn abort_work<T, H: HostWork, G: TaskGroupHook>(
    main: &mut ScriptMain<'_>,
    access: &mut Access<'_, T, Whole, H, G>,
    component: &Component,
    spawn: u32,
) -> MainStep
    requires may { MayStep script_says H.course component.now main.old access.old.store.now }
    requires op { slice_get main.old.ops.now main.old.at ≡ Some (main_op.Abort spawn) }
    ensures same { access.new.store.ghost_name ≡ access.old.store.ghost_name }
    ensures constants_stay { constants access.new.store.now ≡ constants access.old.store.now }
    ensures ops { main.new.ops ≡ main.old.ops }
    ensures step { HasStepResult script_says H.course component.now result main.old access.old.store.now main.new access.new.store.now }
{
    // only the contract speaks of `component`
    let _component = component;
    let at = main.next_place();
    let work = main.spawned(spawn);
    let phase = abort(access, work);
    main.at = at;
    MainStep::Did(Label::Main(MainLabel::Abort(phase, spawn)))
}

// Whether the work has ended; it has where there is no such spawn.
fn is_complete<T, H: HostWork, G: TaskGroupHook>(
    access: &mut Access<'_, T, Whole, H, G>,
    work: Option<SpawnHandle>,
) -> bool
    requires spawned { IfSome work (λ h. IsSpawnedIn h access.old.store.now.state) }
    requires hosts { HoldsHosts H.course access.old.store.now }
    ensures same { access.new.store.ghost_name ≡ access.old.store.ghost_name }
    ensures answer { result ≡ is_complete (phase_of (number_in work) access.old.store.now.state.core) }
    ensures store { access.new.store.now ≡ record access.old.store.now { works = access.new.store.now.works } }
    ensures hosts { HoldsHosts H.course access.new.store.now }
{
    access.store.state.none_is_zero();
    match work {
        Some(work) => matches!(work.poll(access.store), Poll::Ready(())),
        None => true,
    }
}

// Main waits until the work of a spawn has ended.
#[tactic(auto, using(std::proofs::lemmas::Option::slice_get_within))]
fn await_work<T, H: HostWork, G: TaskGroupHook>(
    main: &mut ScriptMain<'_>,
    access: &mut Access<'_, T, Whole, H, G>,
    component: &Component,
    spawn: u32,
) -> MainStep
    requires may { MayStep script_says H.course component.now main.old access.old.store.now }
    requires op { slice_get main.old.ops.now main.old.at ≡ Some (main_op.Await spawn) }
    ensures same { access.new.store.ghost_name ≡ access.old.store.ghost_name }
    ensures constants_stay { constants access.new.store.now ≡ constants access.old.store.now }
    ensures ops { main.new.ops ≡ main.old.ops }
    ensures step { HasStepResult script_says H.course component.now result main.old access.old.store.now main.new access.new.store.now }
{
    // only the contract speaks of `component`
    let _component = component;
    let at = main.next_place();
    let work = main.spawned(spawn);
    if !is_complete(access, work) {
        return MainStep::Pends;
    }
    main.at = at;
    MainStep::Did(Label::Main(MainLabel::Await(spawn)))
}

// Main waits until no task is interesting.
#[tactic(auto, using(std::proofs::lemmas::Option::slice_get_within))]
fn await_quiet<T, H: HostWork, G: TaskGroupHook>(
    main: &mut ScriptMain<'_>,
    access: &Access<'_, T, Whole, H, G>,
    component: &Component,
) -> MainStep
    requires may { MayStep script_says H.course component.now main.old access.now.store.now }
    requires op { slice_get main.old.ops.now main.old.at ≡ Some main_op.Quiet }
    ensures ops { main.new.ops ≡ main.old.ops }
    ensures step { HasStepResult script_says H.course component.now result main.old access.now.store.now main.new access.now.store.now }
{
    // only the contract speaks of `component`
    let _component = component;
    let at = main.next_place();
    if access.store.state.has_interesting() {
        return MainStep::Pends;
    }
    main.at = at;
    MainStep::Did(Label::Main(MainLabel::Quiet))
}

// Whether an instance takes calls.
#[tactic(auto, unfolding(machine_rules::specs::MainOps::is_ready_for_call))]
fn is_ready<T, H, G: TaskGroupHook>(access: &Access<'_, T, Whole, H, G>, instance: u32) -> bool
    ensures { result ≡ is_ready_for_call instance access.now.store.now.state.core }
{
    !access.store.state.may_not_enter(instance) && access.store.state.backpressure(instance) == 0
}

// Main waits until the export's instance takes calls.
#[tactic(auto, using(std::proofs::lemmas::Option::slice_get_within))]
fn await_ready<T, H: HostWork, G: TaskGroupHook>(
    main: &mut ScriptMain<'_>,
    access: &Access<'_, T, Whole, H, G>,
    component: &Component,
    func: Func,
) -> MainStep
    requires may { MayStep script_says H.course component.now main.old access.now.store.now }
    requires op { slice_get main.old.ops.now main.old.at ≡ Some (main_op.Ready func) }
    ensures ops { main.new.ops ≡ main.old.ops }
    ensures step { HasStepResult script_says H.course component.now result main.old access.now.store.now main.new access.now.store.now }
{
    // only the contract speaks of `component`
    let _component = component;
    let at = main.next_place();
    if !is_ready(access, func.instance.index) {
        return MainStep::Pends;
    }
    main.at = at;
    MainStep::Did(Label::Main(MainLabel::Ready))
}

// The op at this place, none at the script's end.
pub(crate) fn op_here(ops: &[MainOp], at: usize) -> Option<&MainOp>
    ensures { option_copied result ≡ slice_get ops.now at }
{
    ops.get(at)
}

impl<T, H: AccessorTask<T> + FromHost, G: TaskGroupHook> MainTask<T, H, G> for ScriptMain<'_> {
    ghost says = { script_says };

    ghost stays = { knows_later };

    fn step(
        &mut self,
        access: &mut Access<'_, T, Whole, H, G>,
        component: &Component,
    ) -> Result<MainStep, TaskError> {
        let ops = self.ops;
        match op_here(ops, self.at) {
            Some(MainOp::Start(func, params)) => {
                make_start(self, access, component, *func, params.as_slice())
            }
            Some(MainOp::Finish(start, to)) => finish_call(self, access, component, *start, *to),
            Some(MainOp::Answer(value)) => {
                Ok(MainStep::Answer(operand_value(&self.registers, *value)))
            }
            Some(MainOp::Spawn(host)) => spawn_work(self, access, component, *host),
            Some(MainOp::Quiet) => Ok(await_quiet(self, access, component)),
            Some(MainOp::Ready(func)) => Ok(await_ready(self, access, component, *func)),
            Some(MainOp::Abort(spawn)) => Ok(abort_work(self, access, component, *spawn)),
            Some(MainOp::Await(spawn)) => Ok(await_work(self, access, component, *spawn)),
            None => Ok(MainStep::Pends),
        }
    }
}
