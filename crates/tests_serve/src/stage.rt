//! What the tests run: a component of one export, a store for it, and a main that waits.
ghost use Rattle.machine_data.specs.declared.scenario.Version.TheVariants as versions;
ghost use Rattle.std.specs.Prelude.{◌≡◌, IfOk, length};
ghost use Rattle.store_works.specs.KeptWorks.{HoldsNone};
ghost use Rattle.tests_serve.specs.Stage.{IsReady, TakesOne};
ghost use Rattle.task_loop.specs.Says.{unscripted};
ghost use Rattle.machine_data.specs.Core.{fresh};
ghost use Rattle.task_nursery.specs.Later.{scope_later};
ghost use Rattle.task_nursery.specs.Scope.{IsOf};
ghost use Rattle.core_records.specs.Seen.{nothing};
ghost use Rattle.core_primitives.specs.Groups.{IsAsked};
ghost use Rattle.task_store.specs.Hosts.{HoldsHosts, WorksNumbered};
ghost use Rattle.ops_turns.specs.Covered.{HasPlainExports};
ghost use Rattle.ops_turns.specs.Turn.{given};
ghost use Rattle.ops_turns.specs.WellFormed.{IsWellFormed};
ghost use Rattle.core_primitives.specs.StateView.{with_core};

use machine_data::{ExportKind, Seq, TaskOp};
use std::alloc::{AllocError, Global};
use std::process::Abort;
use task_group::NoHook;
use task_loop::{
    Component, ExportDef, Func, Instance, InstanceDef, MainStep, MainTask, Op, Operand, Outcome,
    TaskError, Trace, run_concurrent,
};
use task_nursery::Nursery;
use task_store::{Access, HostWork, ScriptedHost, Store, Whole};

/// Returns 9.
pub(crate) const NINE: Func = Func {
    instance: Instance { index: 0 },
    export: 0,
};

// A component with that export alone.
fn made_component(alloc: Global) -> Result<Component, AllocError>
    ensures exports { IfOk result HasPlainExports }
    ensures takes { IfOk result (λ c. TakesOne c NINE) }
    ensures one { IfOk result (λ c. length c.instances ≡ 1) }
{
    let start = [
        Op::Task(TaskOp::Ret {
            value: Operand::Number(9),
        }),
        Op::Task(TaskOp::Exit),
    ];
    let export = ExportDef {
        kind: ExportKind::Callback,
        params: 1,
        start: Seq::from_vec(Vec::from_array(alloc, start)?),
        react: Seq::new(alloc),
    };
    let instance = InstanceDef {
        exports: Seq::from_vec(Vec::from_array(alloc, [export])?),
        slots: Seq::new(alloc),
    };
    Ok(Component {
        instances: Seq::from_vec(Vec::from_array(alloc, [instance])?),
        hosts: Seq::new(alloc),
    })
}

pub(crate) fn component(rt: &impl Abort, alloc: Global) -> Component
    ensures exports { HasPlainExports result }
    ensures covered { IsWellFormed result }
    ensures takes { TakesOne result NINE }
    ensures one { length result.instances ≡ 1 }
{
    match made_component(alloc) {
        Ok(component) => component,
        Err(_) => panic!(rt; "no memory"),
    }
}

// A new store with one instance.
fn new_store(rt: &impl Abort, alloc: Global) -> Store<(), ScriptedHost>
    ensures state { result.state ≡ with_core (fresh versions.One 1 100000 1000000) nothing }
    ensures works { HoldsNone result.works }
    ensures groups { IsAsked result.state }
{
    let mut store: Store<(), ScriptedHost> = Store::new(alloc, (), true, 1);
    match store.add_instance() {
        Ok(_) => store,
        Err(_) => panic!(rt; "no memory"),
    }
}

// Sets the stage for that component.
pub(crate) fn store(
    rt: &impl Abort,
    alloc: Global,
    component: &Component,
) -> Store<(), ScriptedHost>
    requires exports { HasPlainExports component.now }
    requires one { length component.now.instances ≡ 1 }
    ensures ready { IsReady ⟦<ScriptedHost as HostWork>⟧.course component.now result }
    ensures given { given result.state.core ≡ 0 }
    ensures numbered { WorksNumbered result.state.core }
{
    let _component = component;
    new_store(rt, alloc)
}

// A main that waits, and holds a scope.
#[derive(Drop)]
pub(crate) struct Scoped {
    pub(crate) scope: Nursery,
}

impl MainTask<(), ScriptedHost, NoHook> for Scoped {
    ghost says = { unscripted (λ m c. Unit {0}) (λ m s. IsOf m.scope s) (λ m s step n t. n ≡ m) };

    ghost stays = { λ main s t last known. scope_later main.scope s t last known };

    fn step(
        &mut self,
        _access: &mut Access<'_, (), Whole, ScriptedHost>,
        _component: &Component,
    ) -> Result<MainStep, TaskError> {
        Ok(MainStep::Pends)
    }
}

// Drives the store until nothing goes on, while main waits.
pub(crate) fn settle(
    rt: &impl Abort,
    alloc: Global,
    component: &Component,
    store: &mut Store<(), ScriptedHost>,
    main: &mut Scoped,
) -> Outcome
    requires covered { IsWellFormed component.now }
    requires ready { IsReady ⟦<ScriptedHost as HostWork>⟧.course component.now store.old }
    requires of { IsOf main.old.scope store.old.state }
    ensures hosts { HoldsHosts ⟦<ScriptedHost as HostWork>⟧.course store.new }
    ensures of { IsOf main.new.scope store.new.state }
{
    let Ok(mut run) = run_concurrent(store, false) else {
        panic!(rt; "a run")
    };
    let mut trace = Trace::new(alloc);
    let Ok(outcome) = run.drive(component, store, main, 64, &mut trace) else {
        panic!(rt; "no memory")
    };
    run.end(store);
    outcome
}
