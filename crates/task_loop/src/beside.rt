//! Steps of a run beside other threads, which may abort the works that main has spawned.
ghost use Rattle.std.specs.Prelude.{◌≡◌, Bool, IfOk, IfSome, OnErr, OnOk, false, is_some, ℕ};
ghost use Rattle.task_loop.specs.Beside.{HasAskedAt, HasAskedNext, HasFound, IsFound, IsRunAsBefore, MayMeet, MayPollLast, MetAbort};
ghost use Rattle.task_loop.specs.Beside.{LastPollGives, StepBesideGives};
ghost use Rattle.machine_rules.specs.Works.{next_polled};
ghost use Rattle.task_loop.specs.HasRun.{Keeps, MayRun, at};
ghost use Rattle.task_loop.specs.Constants.{constants};
ghost use Rattle.ops_turns.specs.StepResult.{turn_of};

use crate::main_task::MainTask;
use crate::run::RunConcurrent;
use crate::trace::Trace;
use core_primitives::{ResultPrimitives, View, WorkPrimitives};
use machine_data::{Component, Label, LoopLabel, MainLabel, NoMemory, Outcome, Phase, Turn};
use ops_turns::{MadeStep, StepResult, is_made, put, turn_of};
use task_group::TaskGroupHook;
use task_store::{AccessorTask, FromHost, HostWork, SpawnHandle, Store};

/// What a run asks beside which other threads abort works, before a step that may find what they have done.
pub trait Beside<M: MainTask<T, H, G>, T, H: HostWork, G: TaskGroupHook> {
    // What these calls keep of it, which each keeps of itself.
    ghost keeps: { Self → Self → Type 0 };

    ghost same: { (b : Self) → keeps b b };

    // What it has done where the work with this number was polled, which runs or doesn't, and was found aborted or wasn't, for this main,
    // and where main's turn was next.
    ghost polled: { ℕ → Bool → Bool → M → Self → Self → Type 0 };

    ghost turned: { M → Self → Self → Type 0 };

    /// The work with this number is polled next. `running` says that it runs, for all that the run itself has done. Answers its handle
    /// where it is one that main has spawned, and another thread has aborted it: that is so of a running one alone.
    fn polls(
        &mut self,
        main: &M,
        store: &Store<T, H, G>,
        number: u64,
        running: bool,
    ) -> Result<Option<SpawnHandle>, NoMemory>
        requires { M.says.knows main.now store.now.state }
        ensures keeps { keeps self.old self.new }
        ensures polled { IfOk result (λ found. polled number running (is_some found) main.now self.old self.new) }
        ensures found { IfOk result (λ found. IfSome found (λ work. IsFound number running work store.now.state)) };

    /// Main's turn is next. Answers the spawn, counted from 1, if main's op is to abort it, and finds that another thread has done so: then
    /// main has passed that op. Else, and if it is out of memory, main is as before.
    fn turns(&mut self, main: &mut M, store: &Store<T, H, G>) -> Result<Option<u32>, NoMemory>
        requires { M.says.knows main.old store.now.state }
        ensures keeps { keeps self.old self.new }
        ensures turned { OnOk result (turned main.old self.old self.new) }
        ensures script { M.says.script main.new ≡ M.says.script main.old }
        ensures found { IfOk result (λ found. HasFound M.says found main.old main.new store.now.state) }
        ensures err { OnErr result (main.new ≡ main.old) };
}

impl RunConcurrent {
    // Asks for the live work that is next past those up to `polled`. If another thread has aborted it, it ends without a value.
    // Answers whether it has. If it is out of memory, the run, the store and the trace are as before.
    fn meet_abort<
        T,
        H: AccessorTask<T> + FromHost,
        G: TaskGroupHook,
        M: MainTask<T, H, G>,
        B: Beside<M, T, H, G>,
    >(
        &mut self,
        component: &Component,
        store: &mut Store<T, H, G>,
        main: &M,
        polled: u64,
        beside: &mut B,
        trace: &mut Trace,
    ) -> Result<bool, NoMemory>
        requires may { MayMeet H.course component.now (turn_of self.old.last) store.old }
        requires knows { M.says.knows main.now store.old.state }
        ensures keeps { B.keeps beside.old beside.new }
        ensures asked { IfOk result (HasAskedNext B.polled store.old.state.core (next_polled polled store.old.state.core) main.now
            beside.old beside.new) }
        ensures constants_stay { constants store.new ≡ constants store.old }
        ensures met { IfOk result (MetAbort H.course component.now polled
            store.old (turn_of self.old.last) trace.old store.new (turn_of self.new.last) trace.new) }
        ensures unmet { IfOk result (λ met. met ≡ false → self.new ≡ self.old) }
        ensures err { OnErr result (IsRunAsBefore self.old store.old trace.old self.new store.new trace.new) }
        ensures rest { self.new ≡ record self.old { last = self.new.last } }
    {
        // only the contract speaks of `component`
        let _component = component;
        let Some(next) = store.state.next_polled(polled) else {
            return Ok(false);
        };
        let number = store.state.work_number(next);
        let Phase::Running = store.state.phase(next) else {
            let Ok(_) = beside.polls(main, store, number, false) else {
                return Err(NoMemory);
            };
            return Ok(false);
        };
        let Ok(found) = beside.polls(main, store, number, true) else {
            return Err(NoMemory);
        };
        let Some(work) = found else {
            return Ok(false);
        };
        let Ok(()) = trace.labels.make_room() else {
            return Err(NoMemory);
        };
        let _phase = work.abort(store);
        let mut worked = None;
        // The work was spawned, so no group is told of it.
        let made = store.poll_next(polled, &mut worked);
        let shown = MadeStep {
            label: Label::Loop(LoopLabel::FutureAborted(number)),
            turn: made.turn,
        };
        self.last = put(&mut trace.labels, shown);
        Ok(true)
    }

    /// Takes one step of a run beside other threads, and answers what the run has resulted in, `OutOfSteps` where it goes on.
    /// Before a poll of a work, and at each turn of main, it asks `beside` what those have done. Where a poll finds that they have
    /// aborted a running work that main has spawned, the work ends without a value: that is the step. Where main finds it of the
    /// one that it is to abort, that is the step, and nothing else is changed. Else the step is one that `drive` takes, whose word
    /// it asks and gives. If it is out of memory, the run, main, the store and the trace are as before, or what stands is what `drive`
    /// leaves then.
    pub fn step_beside<
        T,
        H: AccessorTask<T> + FromHost,
        G: TaskGroupHook,
        M: MainTask<T, H, G>,
        B: Beside<M, T, H, G>,
    >(
        &mut self,
        component: &Component,
        store: &mut Store<T, H, G>,
        main: &mut M,
        beside: &mut B,
        trace: &mut Trace,
    ) -> Result<Outcome, NoMemory>
        requires may { MayRun M.says H.course component.now (at self.old main.old store.old trace.old) }
        ensures keeps { Keeps M.says (at self.old main.old store.old trace.old) (at self.new main.new store.new trace.new) }
        ensures beside { B.keeps beside.old beside.new }
        ensures steps { StepBesideGives M.says H.course component.now
            (HasAskedAt B.polled B.turned (turn_of self.old.last) store.old.state.core main.old beside.old beside.new)
            G.listens result self.old main.old store.old trace.old self.new main.new store.new trace.new }
    {
        match turn_of(self.last) {
            Turn::Main => {
                // Room comes first, so that main passes no op whose label isn't added.
                let Ok(()) = trace.labels.make_room() else {
                    return Err(NoMemory);
                };
                let Ok(found) = beside.turns(main, store) else {
                    return Err(NoMemory);
                };
                match found {
                    Some(spawn) => {
                        let label = Label::Main(MainLabel::Abort(Phase::AbortRequested, spawn));
                        trace.labels.push(label);
                        Ok(Outcome::OutOfSteps)
                    }
                    None => self.drive(component, store, main, 1, trace),
                }
            }
            Turn::Futures { polled } => {
                let Ok(met) = self.meet_abort(component, store, main, polled, beside, trace) else {
                    return Err(NoMemory);
                };
                if met {
                    return Ok(Outcome::OutOfSteps);
                }
                self.drive(component, store, main, 1, trace)
            }
            _ => self.drive(component, store, main, 1, trace),
        }
    }

    /// In the last round of such a run, which comes where nothing can go on, polls the live spawned work that is next past those up to
    /// `polled` once more: it pends, or `beside` finds that another thread has aborted it. Then it ends without a value, and main's
    /// turn comes next. If it is out of memory, the run, the store and the trace are as before. The yield budget stays either way.
    pub fn poll_last<
        T,
        H: AccessorTask<T> + FromHost,
        G: TaskGroupHook,
        M: MainTask<T, H, G>,
        B: Beside<M, T, H, G>,
    >(
        &mut self,
        component: &Component,
        store: &mut Store<T, H, G>,
        main: &M,
        polled: u64,
        beside: &mut B,
        trace: &mut Trace,
    ) -> Result<(), NoMemory>
        requires may { MayPollLast M.says H.course component.now polled (at self.old main.now store.old trace.old) }
        ensures keeps { Keeps M.says (at self.old main.now store.old trace.old) (at self.new main.now store.new trace.new) }
        ensures beside { B.keeps beside.old beside.new }
        ensures polls { OnOk result (LastPollGives M.says H.course component.now
            (HasAskedNext B.polled store.old.state.core (next_polled polled store.old.state.core) main.now beside.old beside.new)
            polled main.now self.old store.old trace.old self.new store.new trace.new) }
        ensures err { OnErr result (IsRunAsBefore self.old store.old trace.old self.new store.new trace.new) }
        ensures rest { self.new ≡ record self.old { last = self.new.last } }
    {
        let Ok(met) = self.meet_abort(component, store, main, polled, beside, trace) else {
            return Err(NoMemory);
        };
        if met {
            self.last = StepResult::Main;
            return Ok(());
        }
        let Some(next) = store.state.next_polled(polled) else {
            unreachable!()
        };
        let Ok(()) = trace.labels.make_room() else {
            return Err(NoMemory);
        };
        let number = store.state.work_number(next);
        trace
            .labels
            .push(Label::Loop(LoopLabel::FuturePends(number)));
        Ok(())
    }

    /// From now on the run ends as a deadlock where nothing can go on and main waits, or it doesn't.
    pub fn set_trap_on_idle(&mut self, trap_on_idle: bool)
        ensures { self.new ≡ record self.old { trap_on_idle = trap_on_idle } }
    {
        self.trap_on_idle = trap_on_idle;
    }
}
