ghost use Rattle.std.specs.Prelude.{◌≡◌, ◌+◌, ◌<◌, ◌≤◌, IfErr, IfOk, OnOk, false, true};
ghost use Rattle.laws_labels.specs.Own.{next_mark};
ghost use Rattle.ops_dispatch.specs.Fits.{calls_host};
ghost use Rattle.run_trace.specs.YieldBudget.{unless_yielded};
ghost use Rattle.task_loop.specs.HasRun.{DriveGives, Keeps, MainTurned, MayRun, MayStep, MayTurn, StepsTo, TurnGives, TurnsGive, at};
ghost use Rattle.task_loop.specs.Constants.{constants};
ghost use Rattle.task_loop.specs.Threads.{LacksThread, RunsThread, RunsTo, StepsUntold, TakesTo, WorkPollsTo};
ghost use Rattle.task_loop.specs.Told.{group_running};
ghost use Rattle.ops_guests.specs.Works.{KeepsWorks};
ghost use Rattle.machine_rules.specs.Scripts.{op_of};
ghost use Rattle.task_store.specs.Hosts.{HoldsHosts};
ghost use Rattle.ops_turns.specs.StepResult.{IsFull, is_made, turn_of};
ghost use Rattle.ops_turns.specs.Turn.{IsAtTurn};
ghost use Rattle.core_primitives.specs.Groups.{IsAsked};

use crate::main_task::MainTask;
use crate::tells::{group_now, tell_poll, tell_run, tell_work};
use crate::trace::Trace;
use core_primitives::{QueuePrimitives, View};
use machine_data::{Component, Mark, NoMemory, Outcome, Trap, Turn};
use ops_calls::{TaskError, host_called};
use ops_turns::{
    MainStep, StepResult, compute, is_idle, is_made, made_by_main, outcome_in, put, step_call,
    step_run, take, turn_of,
};
use run_trace::{
    Driven, PackedLabels, Policy, YieldBudget, ended_by, rests_with, spent_by, yields_by,
};
use task_group::TaskGroupHook;
use task_store::{Access, AccessorTask, ActiveRun, FromHost, HostWork, Store};

/// A run of the event loop on a store.
#[derive(Drop)]
pub struct RunConcurrent {
    // What the last step resulted in: whose turn it is. It is main's before the first.
    pub(crate) last: StepResult,
    pub(crate) trap_on_idle: bool,
    active: ActiveRun,
    pub(crate) yield_budget: YieldBudget,
}

/// Begins a run on a store, with main. `trap_on_idle` says that the run ends as a deadlock where nothing can go on and main waits.
/// Refused with trap 21 exactly where a run is active on the store, which isn't trapped by that, nor changed.
pub fn run_concurrent<T, H, G: TaskGroupHook>(
    store: &mut Store<T, H, G>,
    trap_on_idle: bool,
) -> Result<RunConcurrent, Trap>
    ensures refused { IfErr result (λ trap. (trap ≡ Trap.RecursiveRun) × (store.old.running ≡ true)) }
    ensures begun { OnOk result (store.old.running ≡ false) }
    ensures turn { IfOk result (λ run. turn_of run.last ≡ Turn.Main) }
    ensures idle { IfOk result (λ run. run.trap_on_idle ≡ trap_on_idle) }
    ensures since { IfOk result (λ run. run.yield_budget.since ≡ 0) }
    ensures passes { IfOk result (λ run. run.yield_budget.passes ≡ false) }
    ensures store { store.new ≡ record store.old { running = true } }
{
    match store.begin_run() {
        Ok(active) => Ok(RunConcurrent {
            last: StepResult::Main,
            trap_on_idle,
            active,
            yield_budget: YieldBudget::new(),
        }),
        Err(trap) => Err(trap),
    }
}

/// Why the turns stop before the run is over.
#[derive(Clone, Copy)]
pub(crate) enum Halt {
    NoMemory,
    /// The hook that is told of groups answered an error.
    HookFailed,
}

/// At what the turns stop, if nothing is wrong.
#[derive(Clone, Copy)]
pub(crate) enum Stop {
    /// The run has ended so.
    Ends(Outcome),
    /// A turn has ended in which live works were polled, and nothing was queued.
    Rests,
    /// An entry is next before which the run yields.
    Yields,
}

// Lends the store to main for an op.
fn ask_main<T, H: HostWork, G: TaskGroupHook, M: MainTask<T, H, G>>(
    component: &Component,
    store: &mut Store<T, H, G>,
    main: &mut M,
) -> Result<MainStep, TaskError>
    requires may { MayStep M.says H.course component.now main.old store.old }
    ensures constants_stay { constants store.new ≡ constants store.old }
    ensures script { M.says.script main.new ≡ M.says.script main.old }
    ensures steps { StepsTo M.says H.course component.now result main.old store.old main.new store.new }
{
    let mut access = Access::new(store);
    main.step(&mut access, component)
}

// Takes an op of main, and adds what that shows to the trace. That is a turn whatever the idle line says.
fn step_main<T, H: HostWork, G: TaskGroupHook, M: MainTask<T, H, G>>(
    component: &Component,
    store: &mut Store<T, H, G>,
    main: &mut M,
    trace: &mut PackedLabels,
) -> StepResult
    requires may { MayStep M.says H.course component.now main.old store.old }
    requires room { 0 < trace.old.spare }
    ensures constants_stay { constants store.new ≡ constants store.old }
    ensures script { M.says.script main.new ≡ M.says.script main.old }
    ensures spare { trace.old.spare ≤ trace.new.spare + 1 }
    ensures turned { MainTurned M.says H.course component.now result main.old store.old trace.old main.new store.new trace.new }
{
    let step = match ask_main(component, store, main) {
        Ok(step) => step,
        Err(TaskError::Trap(_)) => return StepResult::HookFailed,
        Err(_) => return StepResult::Full,
    };
    // Most steps of a main pend: the label of this one is known here.
    if let MainStep::Pends = step {
        let pends = made_by_main(&store.state, MainStep::Pends);
        return put(trace, pends);
    }
    let made = made_by_main(&store.state, step);
    put(trace, made)
}

// Has the running thread, which has this number, do its op, which calls a host: that is polled, and its work is held. It is a
// function of its own, as few ops do so: room for its answer is made only then.
#[inline(never)]
fn call_host<T, H: AccessorTask<T> + FromHost, G: TaskGroupHook>(
    component: &Component,
    store: &mut Store<T, H, G>,
    thread: u64,
    trace: &mut PackedLabels,
) -> StepResult
    requires runs { RunsThread H.course component.now thread store.old }
    requires calls { calls_host (op_of component.now thread store.old.state.core) ≡ true }
    requires room { 0 < trace.old.spare }
    ensures constants_stay { constants store.new ≡ constants store.old }
    ensures steps { is_made result ≡ true → StepsUntold H.course component.now thread store.old result store.new trace.old trace.new }
    ensures listeners { store.new.listeners ≡ store.old.listeners }
    ensures full { is_made result ≡ false → IsFull result trace.old.labels trace.new.labels }
    ensures lacks { is_made result ≡ false → LacksThread component.now thread store.old store.new trace.old.labels trace.new.labels }
    ensures spare { trace.old.spare ≤ trace.new.spare + 1 }
{
    // The host's work is polled before its call is done: what the call results in is what it answers.
    let host = host_called(component, &store.state, thread);
    let (called, answer) = store.first_called(host);
    let Ok(stepped) = step_call(component, &mut store.state, thread, answer) else {
        return StepResult::Full;
    };
    let Ok(()) = store.hold_called(called, stepped.1) else {
        return StepResult::Full;
    };
    put(trace, stepped.0)
}

// The running thread, which has this number, takes a step. A host that it calls is polled, and its
// work is held.
#[inline(always)]
fn step_thread<T, H: AccessorTask<T> + FromHost, G: TaskGroupHook>(
    component: &Component,
    store: &mut Store<T, H, G>,
    thread: u64,
    trace: &mut PackedLabels,
) -> StepResult
    requires runs { RunsThread H.course component.now thread store.old }
    requires room { 0 < trace.old.spare }
    ensures constants_stay { constants store.new ≡ constants store.old }
    ensures steps { is_made result ≡ true → StepsUntold H.course component.now thread store.old result store.new trace.old trace.new }
    ensures listeners { store.new.listeners ≡ store.old.listeners }
    ensures full { is_made result ≡ false → IsFull result trace.old.labels trace.new.labels }
    ensures lacks { is_made result ≡ false → LacksThread component.now thread store.old store.new trace.old.labels trace.new.labels }
    ensures spare { trace.old.spare ≤ trace.new.spare + 1 }
{
    let stepped = step_run(component, &mut store.state, thread, trace);
    if let StepResult::Nothing = stepped {
        return call_host(component, store, thread, trace);
    }
    stepped
}

// The running thread, which has this number, takes a step. A host that it calls is polled, and its work is held. It is told what
// the step gave of groups. `running` is the group of the thread that runs, as long as that is tracked.
#[inline(always)]
fn run_thread<T, H: AccessorTask<T> + FromHost, G: TaskGroupHook>(
    component: &Component,
    store: &mut Store<T, H, G>,
    thread: u64,
    trace: &mut PackedLabels,
    running: &mut u64,
) -> StepResult
    requires runs { RunsThread H.course component.now thread store.old }
    requires running { running.old ≡ group_running store.old.state (Turn.Run thread) }
    requires asked { IsAsked store.old.state }
    requires room { 0 < trace.old.spare }
    ensures constants_stay { constants store.new ≡ constants store.old }
    ensures spare { trace.old.spare ≤ trace.new.spare + 1 }
    ensures ran { RunsTo H.course component.now thread store.old result running.new store.new trace.old.labels trace.new.labels }
{
    store.state.none_is_zero();
    let stepped = step_thread(component, store, thread, trace);
    if !is_made(stepped) {
        return stepped;
    }
    store.state.count_ended();
    let told = tell_run(
        &mut store.state,
        &mut store.listeners,
        thread,
        &stepped,
        *running,
    );
    let Ok(next) = told else {
        return StepResult::HookFailed;
    };
    *running = next;
    stepped
}

// The live work that is next is polled, past those with numbers up to `polled`. It is told what that gave of groups.
#[inline(always)]
fn poll_work<T, H: AccessorTask<T> + FromHost, G: TaskGroupHook>(
    component: &Component,
    store: &mut Store<T, H, G>,
    polled: u64,
    trace: &mut PackedLabels,
    running: &mut u64,
) -> StepResult
    requires at { IsAtTurn component.now (Turn.Futures polled) store.old.state }
    requires hosts { HoldsHosts H.course store.old }
    requires asked { IsAsked store.old.state }
    requires room { 0 < trace.old.spare }
    ensures constants_stay { constants store.new ≡ constants store.old }
    ensures spare { trace.old.spare ≤ trace.new.spare + 1 }
    ensures works { KeepsWorks store.old.state store.new.state × HoldsHosts H.course store.new }
    ensures polled { WorkPollsTo (Turn.Futures polled) store.old result running.new store.new trace.old.labels trace.new.labels }
{
    // only the contract speaks of `component`
    let _component = component;
    store.state.none_is_zero();
    let mut worked = None;
    let made = store.poll_next(polled, &mut worked);
    let stepped = put(trace, made);
    store.state.count_ended();
    let Ok(next) = tell_poll(&mut store.state, &mut store.listeners, worked) else {
        return StepResult::HookFailed;
    };
    *running = next;
    stepped
}

// The next entry is taken, or it is seen that nothing is there. It is told what that gave of groups.
#[inline(always)]
fn take_entry<T, H: AccessorTask<T> + FromHost, G: TaskGroupHook>(
    component: &Component,
    store: &mut Store<T, H, G>,
    ended: bool,
    trap_on_idle: bool,
    trace: &mut PackedLabels,
    running: &mut u64,
) -> StepResult
    requires at { IsAtTurn component.now (Turn.Take ended) store.old.state }
    requires asked { IsAsked store.old.state }
    requires room { 0 < trace.old.spare }
    ensures spare { trace.old.spare ≤ trace.new.spare + 1 }
    ensures taken { TakesTo component.now trap_on_idle ended store.old result running.new store.new trace.old.labels trace.new.labels }
    ensures rest { store.new ≡ record store.old { state = store.new.state; listeners = store.new.listeners } }
{
    store.state.none_is_zero();
    let mut worked = None;
    let taken = take(
        component,
        &mut store.state,
        ended,
        trap_on_idle,
        trace,
        &mut worked,
    );
    if !is_made(taken) {
        return taken;
    }
    store.state.count_ended();
    let Ok(next) = tell_work(&mut store.state, &mut store.listeners, worked) else {
        return StepResult::HookFailed;
    };
    *running = next;
    taken
}

// The mark of the entry that is taken next in this turn, for a policy that looks at it.
fn next_mark<P: Policy, T, H, G: TaskGroupHook>(store: &Store<T, H, G>, turn: Turn) -> Option<Mark>
    ensures { P.YIELDS ≡ true → result ≡ next_mark turn store.now.state.core }
{
    if !P::YIELDS {
        return None;
    }
    match turn {
        Turn::Take { ended: _ } => match store.state.next_entry() {
            Some((mark, _)) => Some(mark),
            None => None,
        },
        _ => None,
    }
}

impl RunConcurrent {
    /// Goes on with the run until it is over, until it has added `steps` labels to the trace, or until nothing can go on and that
    /// is no deadlock. The labels that it adds are those of a run of the component machine from the store before to the store
    /// after, and the outcome is what that run has resulted in. The labels of main among them are those of the steps that main did,
    /// in their order. The notices of that run are told, in their order.
    ///
    /// If it is out of memory, the labels that were added are those of such a run. The notices of these labels were told, and main did
    /// the steps that they show; at main's turn it may have done and told more. The store is as that run left it, unless the next step
    /// is main's, takes an entry or calls a host. Then the store is trapped, and its groups are finished: those of the run's last state,
    /// unless it is main's turn. Whether a run is active on the store, whether it is concurrent and its number stay. The trace
    /// had no room for the next label, or the next step may want memory: it is main's, takes a start, or does an op that may take some.
    ///
    /// Where the hook that is told of the groups answers an error, the outcome is trap 22, which adds no label of its own and
    /// comes by nothing else: the store is trapped, its groups are finished, and the run is over. The labels that were added are
    /// then those of a run up to the step that was told in part, and main, its hosts' works and the store, which is trapped, are as
    /// that left them; or they lead to a turn of main to whose start the hook answered the error, and main and the store are as
    /// before that start, but trapped. The notices of all labels before were told, then those of that step or start up to the error,
    /// or all of them where it was the error to a finish, and then that all groups finish of which no finish was told. Each error
    /// comes to that but those to the notices of a start of main which is refused by another trap: they are passed over.
    ///
    /// It yields wherever `poll` does, and goes on. So entries that it took count for the next poll where it has come to idleness,
    /// since the last of these yields. None counts where its steps were used up, since it has yielded then, nor where the run is
    /// over. If it is out of memory, the count is as before.
    ///
    /// At most 2^60 numbers were given in the store, which is in order, as the component suits main. The thread that runs in the
    /// store is the one that the last call on this run left; at the first call none runs. The run isn't over. Where main pended in
    /// the last call, its op pends still, which is so of each main that is no script. Where live works were polled, one is left to
    /// be polled, and where one ended, an entry is.
    pub fn drive<T, H: AccessorTask<T> + FromHost, G: TaskGroupHook, M: MainTask<T, H, G>>(
        &mut self,
        component: &Component,
        store: &mut Store<T, H, G>,
        main: &mut M,
        steps: u32,
        trace: &mut Trace,
    ) -> Result<Outcome, NoMemory>
        requires may { MayRun M.says H.course component.now (at self.old main.old store.old trace.old) }
        ensures keeps { Keeps M.says (at self.old main.old store.old trace.old) (at self.new main.new store.new trace.new) }
        ensures drives { DriveGives M.says H.course component.now G.listens steps result
            self.old main.old store.old trace.old self.new main.new store.new trace.new }
    {
        // read so that the proof knows the invariant of `store`
        let _hooked = store.listeners.is_hooked();
        let labels = &mut trace.labels;
        let from = labels.len();
        match self.go_on::<Driven, T, H, G, M>(component, store, main, steps, labels) {
            Ok(stop) => match stop {
                Stop::Ends(outcome) => {
                    self.yield_budget = match outcome {
                        Outcome::Idle => self.yield_budget.driven(labels, from),
                        _ => YieldBudget::new(),
                    };
                    return Ok(outcome);
                }
                Stop::Rests => unreachable!(),
                Stop::Yields => unreachable!(),
            },
            Err(Halt::NoMemory) => {
                store.set_trapped();
                return Err(NoMemory);
            }
            Err(Halt::HookFailed) => {
                store.set_trapped();
                self.last = StepResult::Over;
                return Ok(Outcome::Trap(Trap::HookFailed));
            }
        }
    }

    // Takes the turns, up to where the policy stops them.
    pub(crate) fn go_on<
        P: Policy,
        T,
        H: AccessorTask<T> + FromHost,
        G: TaskGroupHook,
        M: MainTask<T, H, G>,
    >(
        &mut self,
        component: &Component,
        store: &mut Store<T, H, G>,
        main: &mut M,
        steps: u32,
        trace: &mut PackedLabels,
    ) -> Result<Stop, Halt>
        requires may { MayRun M.says H.course component.now (at self.old main.old store.old trace.old.labels) }
        ensures keeps { Keeps M.says (at self.old main.old store.old trace.old.labels) (at self.new main.new store.new trace.new.labels) }
        ensures kept { P.YIELDS ≡ false → self.new.yield_budget ≡ self.old.yield_budget }
        ensures gone { TurnsGive M.says H.course component.now P.YIELDS steps result
            self.old main.old store.old trace.old self.new main.new store.new trace.new }
    {
        let mut added = 0;
        let mut running = group_now(&store.state);
        'turns: while added < steps {
            let turn = turn_of(self.last);
            let next = next_mark::<P, T, H, G>(store, turn);
            if yields_by::<P>(self.yield_budget, next) {
                self.yield_budget = YieldBudget::yielded(true);
                return Ok(Stop::Yields);
            }
            let rests = rests_with::<P>(turn, next);
            let stepped = self.turn(component, store, main, trace, &mut running);
            match stepped {
                StepResult::Nothing => return Ok(self.ends::<P>(Outcome::Idle, false)),
                StepResult::Full => return Err(Halt::NoMemory),
                StepResult::HookFailed => return Err(Halt::HookFailed),
                StepResult::Over => {
                    self.last = StepResult::Over;
                    return Ok(self.ends::<P>(outcome_in(trace), false));
                }
                _ => self.last = stepped,
            }
            self.yield_budget = spent_by::<P>(self.yield_budget, next);
            if rests {
                return Ok(Stop::Rests);
            }
            let core = &mut store.state;
            let Ok(all) = compute(component, core, stepped, trace, added + 1, steps) else {
                return Err(Halt::NoMemory);
            };
            added = all;
        }
        if is_idle(&store.state, turn_of(self.last), self.trap_on_idle) {
            return Ok(self.ends::<P>(Outcome::Idle, false));
        }
        Ok(self.ends::<P>(Outcome::OutOfSteps, true))
    }

    // The turns end, as the run has ended so. No entry was taken by that.
    #[inline(always)]
    fn ends<P: Policy>(&mut self, outcome: Outcome, used_up: bool) -> Stop
        ensures stop { result ≡ Stop.Ends outcome }
        ensures new { self.new ≡ record self.old { yield_budget = self.new.yield_budget } }
        ensures kept { P.YIELDS ≡ false → self.new.yield_budget ≡ self.old.yield_budget }
        ensures since { P.YIELDS ≡ true → self.new.yield_budget.since ≡ unless_yielded used_up self.old.yield_budget.since }
        ensures passes { P.YIELDS ≡ true → self.new.yield_budget.passes ≡ false }
    {
        self.yield_budget = ended_by::<P>(self.yield_budget, used_up);
        Stop::Ends(outcome)
    }

    // Makes a step, adds its label to the trace, and tells what it gave of groups. None is made where nothing can go on and that is
    // no deadlock. `running` is the group of the thread that runs, 0 if none does.
    #[inline(always)]
    pub(crate) fn turn<T, H: AccessorTask<T> + FromHost, G: TaskGroupHook, M: MainTask<T, H, G>>(
        &self,
        component: &Component,
        store: &mut Store<T, H, G>,
        main: &mut M,
        trace: &mut PackedLabels,
        running: &mut u64,
    ) -> StepResult
        requires may { MayTurn M.says H.course component.now running.old (at self.now main.old store.old trace.old.labels) }
        ensures keeps { Keeps M.says (at self.now main.old store.old trace.old.labels) (at self.now main.new store.new trace.new.labels) }
        ensures spare { trace.old.spare ≤ trace.new.spare + 1 }
        ensures turned { TurnGives M.says H.course component.now result running.new
            self.now main.old store.old trace.old main.new store.new trace.new }
    {
        // Room for the label is made before the step, so that one that is made is told.
        let Ok(()) = trace.make_room() else {
            return StepResult::Full;
        };
        match turn_of(self.last) {
            Turn::Main => step_main(component, store, main, trace),
            Turn::Futures { polled } => poll_work(component, store, polled, trace, running),
            Turn::Take { ended } => {
                take_entry(component, store, ended, self.trap_on_idle, trace, running)
            }
            Turn::Run { thread } => run_thread(component, store, thread, trace, running),
            Turn::Over => unreachable!(),
        }
    }

    /// Ends the run: it is no longer active on the store.
    pub fn end<T, H, G: TaskGroupHook>(self, store: &mut Store<T, H, G>)
        ensures { store.new ≡ record store.old { running = false } }
    {
        store.end_run(self.active);
    }
}
