//! The host works of a store: those of guests' calls, and those that a host spawns.
ghost use Rattle.std.specs.Prelude.{◌≡◌, ◌<◌, ◌^◌, ℕ, IfOk, None, OnErr, OnOk, Some, option_map, true};
ghost use Rattle.machine_data.specs.Read.{is_aborted};
ghost use Rattle.machine_data.specs.declared.records.Turn.{Turn};
ghost use Rattle.ops_guests.specs.PolledWorks.{TellsPoll};
ghost use Rattle.ops_guests.specs.Works.{KeepsTold};
ghost use Rattle.machine_rules.specs.Calls.{next_work};
ghost use Rattle.machine_rules.specs.Works.{has_end, poll_of, polled_course};
ghost use Rattle.store_works.specs.Course.{one_fewer};
ghost use Rattle.store_works.specs.KeptWorks.{MayAnswer, after_poll};
ghost use Rattle.machine_data.specs.declared.component.HostDef.{HostDef};
ghost use Rattle.task_store.specs.Hosts.{HoldsBut, HoldsCalled, HoldsHosts, held_by, running};
ghost use Rattle.task_store.specs.PolledStore.{HoldsPolled, told_of};
ghost use Rattle.task_store.specs.Spawns.{Spawns};
ghost use Rattle.ops_turns.specs.Turn.{TurnsBeside, given};
ghost use Rattle.ops_turns.specs.Worked.{MayPoll, tracked_worked_group};
ghost use Rattle.core_primitives.specs.StateView.{work_of};

use crate::spawn::SpawnHandle;
use crate::store::Store;
use core_primitives::{ResultPrimitives, WorkId, WorkPrimitives};
use machine_data::{Course, HostDef, NoMemory, Phase};
use ops_guests::PollNews;
use ops_state::TaskError;
use ops_turns::{MadeStep, poll};
use store_works::{AccessorTask, FromHost, HostPoll};
use task_group::TaskGroupHook;

// Whether an abort was asked for.
fn is_aborted(phase: Phase) -> bool
    ensures { result ≡ is_aborted phase }
{
    matches!(phase, Phase::AbortRequested)
}

// What a work tells that has ended.
fn told_at_end(course: Course) -> PollNews
    requires { has_end course ≡ true }
    ensures { TellsPoll result (polled_course course) }
{
    match course {
        Course::Value { value } => PollNews::Ends(Some(value)),
        _ => PollNews::Ends(None),
    }
}

// What a work tells that was polled.
fn told_of(answer: HostPoll) -> PollNews
    ensures { result ≡ told_of answer }
{
    match answer {
        HostPoll::Pending => PollNews::Pends,
        HostPoll::Value(value) => PollNews::Ends(Some(value)),
        HostPoll::Failed => PollNews::Fails,
    }
}

impl<T, H: AccessorTask<T>, G: TaskGroupHook> Store<T, H, G> {
    /// Spawns a work beside the calls of the store. It is queued, becomes live when a run takes it, and is polled from then on, at
    /// most once a turn, until it ends. A core in order stays so, whosever turn it is. If it is out of memory, no work is made.
    pub fn spawn(&mut self, work: H) -> Result<SpawnHandle, TaskError>
        requires given { given self.old.state.core < 2 ^ 61 }
        ensures spawns { Spawns H.course work result self.old self.new }
    {
        let number = self.state.made().works + 1;
        let left = work.left();
        let Ok(()) = self.works.keep(number, work) else {
            return Err(TaskError::NoMemory);
        };
        match self.state.queue_spawn(left) {
            Ok(work) => Ok(SpawnHandle { work, number }),
            Err(_) => {
                self.works.let_go(number);
                Err(TaskError::NoMemory)
            }
        }
    }

    // Polls the work, which has this number, and answers what it tells. One that was aborted is let go, and isn't polled;
    // one that isn't held has ended.
    #[inline(always)]
    fn tell(&mut self, work: WorkId, number: u64) -> PollNews
        requires hosts { HoldsHosts H.course self.old }
        requires number { number ≡ work_of self.old.state work }
        ensures answer { TellsPoll result (poll_of (work_of self.old.state work) self.old.state.core) }
        ensures told { HoldsPolled result (work_of self.old.state work) (held_by H.course self.new) self.old.state.core }
        ensures rest { self.new ≡ record self.old { value = self.new.value; works = self.new.works } }
    {
        if is_aborted(self.state.phase(work)) {
            self.works.let_go(number);
            return PollNews::Ends(None);
        }
        match self.works.poll(number, &mut self.value) {
            Some(answer) => told_of(answer),
            None => told_at_end(self.state.course(work)),
        }
    }

    /// Polls the live work that is next, past those with numbers up to `polled`. Its group is asked.
    pub fn poll_next(&mut self, polled: u64, worked: &mut Option<u64>) -> MadeStep
        requires may { MayPoll polled self.old.state }
        requires hosts { HoldsHosts H.course self.old }
        ensures worked { worked.new ≡ tracked_worked_group self.old.state (Turn.Futures polled) }
        ensures turns { TurnsBeside (Turn.Futures polled) self.old.state result self.new.state }
        ensures works { KeepsTold self.old.state self.new.state }
        ensures hosts { HoldsHosts H.course self.new }
        ensures rest { self.new ≡ record self.old { value = self.new.value; state = self.new.state; works = self.new.works } }
    {
        let Some(work) = self.state.next_polled(polled) else {
            unreachable!()
        };
        *worked = self.state.work_group(work);
        let number = self.state.work_number(work);
        let told = self.tell(work, number);
        poll(&mut self.state, work, number, polled, told)
    }
}

impl<T, H: AccessorTask<T>, G: TaskGroupHook> Store<T, H, G> {
    /// Holds a work under the next number, for a guest's call that is to make it. If it is out of memory, it isn't held.
    pub fn hold_next(&mut self, work: H) -> Result<u64, NoMemory>
        requires given { given self.old.state.core < 2 ^ 61 }
        ensures number { IfOk result (λ i. i ≡ next_work self.old.state.core) }
        ensures ok { OnOk result (HoldsBut (next_work self.old.state.core) (running (H.course work)) (held_by H.course self.old) (held_by H.course self.new)) }
        ensures err { OnErr result ((i : ℕ) → held_by H.course self.new i ≡ held_by H.course self.old i) }
        ensures rest { self.new ≡ record self.old { works = self.new.works } }
    {
        let number = self.state.made().works + 1;
        self.works.keep(number, work)?;
        Ok(number)
    }

    /// Polls the work with this number, which is held and wasn't polled yet, for a guest's call that is to make it.
    pub fn poll_held(&mut self, number: u64) -> HostPoll
        requires { (d : HostDef) × (held_by H.course self.old number ≡ running d) }
        ensures answer { MayAnswer (held_by H.course self.old number) (Some result) }
        ensures left { HoldsBut number (after_poll (Some result) (held_by H.course self.old number)) (held_by H.course self.old) (held_by H.course self.new) }
        ensures rest { self.new ≡ record self.old { value = self.new.value; works = self.new.works } }
    {
        match self.works.poll(number, &mut self.value) {
            Some(answer) => answer,
            None => unreachable!(),
        }
    }

    /// Lets the work with this number go, whose call was refused.
    pub fn let_held_go(&mut self, number: u64)
        ensures left { HoldsBut number None (held_by H.course self.old) (held_by H.course self.new) }
        ensures rest { self.new ≡ record self.old { works = self.new.works } }
    {
        self.works.let_go(number);
    }
}

impl<T, H: AccessorTask<T> + FromHost, G: TaskGroupHook> Store<T, H, G> {
    /// Makes the work of the host that a guest's call polls first, which has this place in the component, and polls it. Where
    /// the call polls none, nothing is done.
    pub fn first_called(&mut self, host: Option<(u32, HostDef)>) -> (Option<H>, HostPoll)
        ensures left { option_map H.course result.0 ≡ option_map (λ h. one_fewer h.1) host }
        ensures rest { self.new ≡ record self.old { value = self.new.value } }
    {
        let Some((place, def)) = host else {
            return (None, HostPoll::Pending);
        };
        let mut work = H::from_host(place, def);
        let answer = work.poll(&mut self.value);
        (Some(work), answer)
    }

    /// Holds the work that a guest's call has polled first, if the call goes on with it. It is held from then on. If it is out of
    /// memory, it isn't.
    pub fn hold_called(&mut self, called: Option<H>, work: Option<WorkId>) -> Result<(), NoMemory>
        ensures held { OnOk result (HoldsCalled H.course (option_map (λ id. work_of self.old.state id) work) called self.old self.new) }
        ensures err { OnErr result ((i : ℕ) → held_by H.course self.new i ≡ held_by H.course self.old i) }
        ensures rest { self.new ≡ record self.old { works = self.new.works } }
    {
        let Some(work) = work else {
            return Ok(());
        };
        let Some(host) = called else {
            return Ok(());
        };
        self.works.keep(self.state.work_number(work), host)
    }
}
