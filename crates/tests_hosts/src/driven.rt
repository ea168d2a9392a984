//! Scenarios that are driven in a store with a hook.
ghost use Rattle.machine_data.specs.declared.scenario.Version.TheVariants as versions;
ghost use Rattle.tests_hosts.specs.Hooks.{counting};
ghost use Rattle.std.specs.Prelude.{◌≡◌, None, false, is_ok, length, true};
ghost use Rattle.store_works.specs.KeptWorks.{HoldsNone};
ghost use Rattle.task_group.specs.Heard.{Tells, notice_of};
ghost use Rattle.machine_data.specs.Core.{fresh};
ghost use Rattle.core_records.specs.Seen.{nothing};
ghost use Rattle.task_run.specs.Runnable.{IsRunnable};
ghost use Rattle.core_primitives.specs.Groups.{IsAsked};
ghost use Rattle.core_primitives.specs.StateView.{with_core};

use machine_data::Trap;
use std::alloc::Global;
use std::cell::Cell;
use std::process::Abort;
use task_group::{HookError, NoticeKind, TaskGroupHook, TaskGroupId};
use task_loop::{Outcome, Trace, run_concurrent};
use task_run::{Scenario, ScriptMain, read_scenario};
use task_store::{ScriptedHost, Store};

pub(crate) const TWO_CALLS: &[u8] =
    b"scenario 1\nhandles 100000\ntable 1000000\nidle trap\ninstance a\nexport f callback 1\nret r0\nexit\nmain\nstart a.f 7\nstart a.f 7\nfinish 1 r0\nfinish 2 r0\nanswer r0\nend\n";

// The second start doesn't fit, and traps the store.
const FULL_TABLE: &[u8] =
    b"scenario 1\nhandles 100000\ntable 7\nidle trap\ninstance a\nexport f callback 0\nret 1\nexit\nmain\nstart a.f\nstart a.f\nstart a.f\nfinish 1 r0\nanswer r0\nend\n";

// A hook writes down two digits for each notice: what happened, and to which group.
pub(crate) const START: u64 = 10;

pub(crate) const ENTER: u64 = 20;

pub(crate) const EXIT: u64 = 30;

pub(crate) const FINISH: u64 = 40;

fn written(kind: NoticeKind) -> u64 {
    match kind {
        NoticeKind::Start => START,
        NoticeKind::Enter => ENTER,
        NoticeKind::Exit => EXIT,
        NoticeKind::Finish => FINISH,
    }
}

// A hook that answers one notice with an error, 0 for none.
#[derive(Drop)]
pub(crate) struct Recorder<'a> {
    told: &'a Cell<u64>,
    fails: u64,
    errors: u64,
}

impl Recorder<'_> {
    fn answer(&mut self, kind: NoticeKind, id: TaskGroupId) -> Result<(), HookError>
        ensures { Tells (notice_of kind id) (counting self.old.errors) (counting self.new.errors) (is_ok result) }
    {
        let notice = written(kind).wrapping_add(id.number);
        let before = self.told.get().wrapping_mul(100);
        self.told.set(before.wrapping_add(notice));
        if self.fails == notice && self.errors < u64::MAX {
            self.errors += 1;
            return Err(HookError);
        }
        Ok(())
    }
}

impl TaskGroupHook for Recorder<'_> {
    ghost heard = { λ r. record { told = None; answers = None; errors = r.errors } };

    ghost listens = { true };

    fn listens() -> bool
        ensures { result ≡ true }
    {
        true
    }

    fn handle_start(&mut self, id: TaskGroupId) -> Result<(), HookError> {
        self.answer(NoticeKind::Start, id)
    }

    fn handle_enter(&mut self, id: TaskGroupId) -> Result<(), HookError> {
        self.answer(NoticeKind::Enter, id)
    }

    fn handle_exit(&mut self, id: TaskGroupId) -> Result<(), HookError> {
        self.answer(NoticeKind::Exit, id)
    }

    fn handle_finish(&mut self, id: TaskGroupId) -> Result<(), HookError> {
        self.answer(NoticeKind::Finish, id)
    }
}

pub(crate) type Watched<'a> = Store<(), ScriptedHost, Recorder<'a>>;

// A store of one instance with this room for entries, whose hook writes to this cell and fails at this notice.
pub(crate) fn watched<'a>(
    rt: &impl Abort,
    alloc: Global,
    told: &'a Cell<u64>,
    table: u32,
    fails: u64,
) -> Watched<'a>
    ensures state { result.state ≡ with_core (fresh versions.One 1 100000 table) nothing }
    ensures works { HoldsNone result.works }
    ensures groups { IsAsked result.state }
    ensures running { result.running ≡ false }
{
    let mut store: Watched<'a> = Store::new(alloc, (), true, 1);
    store.set_table_capacity(table as usize);
    store.set_max_component_handles(100000);
    match store.add_instance() {
        Ok(_) => {}
        Err(_) => panic!(rt; "no memory"),
    }
    let hook = Recorder {
        told,
        fails,
        errors: 0,
    };
    store.task_group_hook(hook);
    store
}

// What the scenario results in in the store.
fn driven(rt: &impl Abort, alloc: Global, scenario: &Scenario, store: &mut Watched<'_>) -> Outcome
    requires runnable { IsRunnable scenario.now }
    requires one { length scenario.now.component.instances ≡ 1 }
    requires fresh { store.old.state ≡ with_core (fresh versions.One 1 100000 scenario.now.table) nothing }
    requires works { HoldsNone store.old.works }
    requires groups { IsAsked store.old.state }
    requires free { store.old.running ≡ false }
{
    let Ok(mut run) = run_concurrent(store, true) else {
        panic!(rt; "a run")
    };
    let mut trace = Trace::new(alloc);
    let mut main = ScriptMain::new(alloc, scenario.main.as_slice());
    let driven = run.drive(&scenario.component, store, &mut main, 40, &mut trace);
    let Ok(outcome) = driven else {
        panic!(rt; "no memory")
    };
    run.end(store);
    outcome
}

// What the scenario results in with a hook that fails at this notice, whether the store is trapped then, and what the hook was
// told.
fn ran(rt: &impl Abort, alloc: Global, text: &[u8], fails: u64) -> (Outcome, bool, u64) {
    assert!(rt; text.len() <= 1_048_576);
    let Ok(scenario) = read_scenario(alloc, text) else {
        panic!(rt; "a scenario")
    };
    assert!(rt; scenario.component.instances.len() == 1);
    let told = Cell::new(0);
    let mut store = watched(rt, alloc, &told, scenario.table, fails);
    let outcome = driven(rt, alloc, &scenario, &mut store);
    (outcome, store.trapped(), told.get())
}

// A hook that fails at this notice traps the store, and is told just this: what came before it, it, and the finish of what is left.
fn fails_at(rt: &impl Abort, alloc: Global, notice: u64, want: u64) {
    let (outcome, trapped, told) = ran(rt, alloc, TWO_CALLS, notice);
    assert!(rt; matches!(outcome, Outcome::Trap(Trap::HookFailed)));
    assert!(rt; trapped && told == want);
}

#[test]
fn an_error_of_the_hook_traps_the_store(rt: HostRuntime) {
    fails_at(&rt, rt.alloc(), START + 2, 11_12_41);
    fails_at(&rt, rt.alloc(), ENTER + 2, 11_12_21_31_41_22_42);
    fails_at(&rt, rt.alloc(), EXIT + 1, 11_12_21_31_41_42);
    fails_at(&rt, rt.alloc(), FINISH + 1, 11_12_21_31_41_42);
    fails_at(&rt, rt.alloc(), FINISH + 2, 11_12_21_31_41_22_32_42);
}

#[test]
fn a_hook_is_told_just_the_notices_of_the_run(rt: HostRuntime) {
    let (outcome, trapped, told) = ran(&rt, rt.alloc(), TWO_CALLS, 0);
    assert!(rt; matches!(outcome, Outcome::Done(7)) && !trapped);
    assert!(rt; told == 11_12_21_31_41_22_32_42);
}

#[test]
fn a_start_that_does_not_fit_finishes_all_groups(rt: HostRuntime) {
    let (outcome, trapped, told) = ran(&rt, rt.alloc(), FULL_TABLE, 0);
    assert!(rt; matches!(outcome, Outcome::Done(1)) && trapped);
    assert!(rt; told == 11_41);
}
