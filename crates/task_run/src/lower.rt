//! From the text's tree to what is run: empty lines of the tree are gone, and the names are apart.
ghost use Rattle.std.specs.Prelude.{◌≡◌, ◌≤◌, [], ◌∷◌, ◌++◌, length, map, replicate, slice_set, unwrap_or, IfOk, OnOk, IsOkUnless};
ghost use Rattle.task_run.specs.Lower.{host_def, host_name, export_def, instance_def, names_of, func_of, main_op, scenario_of, Reads, ReadsAs};
ghost use Rattle.task_run.specs.declared.scenario.Scenario.{Scenario};

use crate::copy::copy_component;
use crate::scenario::{InstanceNames, MainOp, Scenario};
use machine_data::{
    Callee, Component, ExportDef, HostDef, InstanceDef, NoMemory, Op, Operand, Seq, Slot,
};
use std::alloc::{AllocError, Global};
use task_loop::{Func, Instance};
use text_reader::{RunError, read_tree};
use text_scenario::{
    ExportText, HostText, HostWork, InstanceText, MainOpText, PartText, ScenarioText,
};

fn empty_slots(alloc: Global) -> Result<Vec<Slot>, AllocError>
    ensures { IfOk result (λ slots. slots.items ≡ replicate 16 Slot.Empty) }
{
    let mut slots = Vec::new(alloc);
    while slots.len() < 16 {
        slots.push(Slot::Empty)?;
    }
    Ok(slots)
}

// Puts something into a slot.
fn fill(slots: &mut Vec<Slot>, place: u8, with: Slot)
    ensures { slots.new.items ≡ slice_set slots.old.items place with }
{
    let place = place as usize;
    if place < slots.len() {
        slots[place] = with;
    }
}

fn host_def(host: &HostText) -> HostDef
    ensures { result ≡ host_def host.now }
{
    match host.work {
        HostWork::Value(polls, value) => HostDef::Settled {
            polls: Some(polls),
            value: Some(value),
        },
        HostWork::Fail(polls) => HostDef::Settled {
            polls: Some(polls),
            value: None,
        },
        HostWork::Never => HostDef::Settled {
            polls: None,
            value: None,
        },
    }
}

type Hosts = (Seq<Seq<u8>>, Seq<HostDef>);

fn host_defs(alloc: Global, hosts: Seq<HostText>) -> Result<Hosts, AllocError>
    ensures { IfOk result (λ p. p ≡ (map host_name hosts, map host_def hosts)) }
{
    let mut names = Seq::new(alloc);
    let mut defs = Seq::new(alloc);
    for host in hosts.into_vec() {
        defs.push(host_def(&host))?;
        names.push(host.name)?;
    }
    Ok((names, defs))
}

fn ops_or_none(alloc: Global, ops: Option<Seq<Op>>) -> Seq<Op>
    ensures { result ≡ unwrap_or ops [] }
{
    match ops {
        Some(ops) => ops,
        None => Seq::new(alloc),
    }
}

// What runs of an export, beside its name.
fn export_def(alloc: Global, export: ExportText) -> (Seq<u8>, ExportDef)
    ensures { result ≡ (export.name, export_def export) }
{
    let def = ExportDef {
        kind: export.kind,
        params: export.params,
        start: export.start,
        react: ops_or_none(alloc, export.react),
    };
    (export.name, def)
}

// What the parts of an instance so far have said.
#[derive(Drop)]
struct ScenarioParts {
    names: Seq<Seq<u8>>,
    exports: Seq<ExportDef>,
    slots: Vec<Slot>,
}

impl ScenarioParts {
    ghost use Rattle.text_scenario.specs.Spelling.{exports_in};
    ghost use Rattle.task_run.specs.Lower.{slots_with};

    fn new(alloc: Global) -> Result<ScenarioParts, AllocError>
        ensures names { IfOk result (λ p. p.names ≡ []) }
        ensures exports { IfOk result (λ p. p.exports ≡ []) }
        ensures slots { IfOk result (λ p. p.slots.items ≡ replicate 16 Slot.Empty) }
    {
        Ok(ScenarioParts {
            names: Seq::new(alloc),
            exports: Seq::new(alloc),
            slots: empty_slots(alloc)?,
        })
    }

    fn add(&mut self, alloc: Global, part: PartText) -> Result<(), AllocError>
        ensures names { OnOk result (self.new.names ≡ self.old.names ++ map (λ e. e.name) (exports_in (part ∷ []))) }
        ensures exports { OnOk result (self.new.exports ≡ self.old.exports ++ map export_def (exports_in (part ∷ []))) }
        ensures slots { OnOk result (self.new.slots.items ≡ slots_with self.old.slots.items part) }
    {
        match part {
            PartText::Export(export) => {
                let (name, def) = export_def(alloc, export);
                self.names.push(name)?;
                self.exports.push(def)?;
            }
            PartText::Thread(slot, ops) => fill(&mut self.slots, slot, Slot::Script(ops)),
            PartText::Bad(slot) => fill(&mut self.slots, slot, Slot::Bad),
        }
        Ok(())
    }
}

#[tactic(auto, using(crate::proofs::PartLemmas::slots_more, crate::proofs::PartLemmas::exports_more))]
fn instance_def(
    alloc: Global,
    instance: InstanceText,
) -> Result<(InstanceNames, InstanceDef), AllocError>
    ensures { IfOk result (λ p. p ≡ (names_of instance, instance_def instance)) }
{
    let mut parts = ScenarioParts::new(alloc)?;
    for part in instance.parts.into_vec() {
        parts.add(alloc, part)?;
    }
    let names = InstanceNames {
        instance: instance.name,
        exports: parts.names,
    };
    let def = InstanceDef {
        exports: parts.exports,
        slots: Seq::from_vec(parts.slots),
    };
    Ok((names, def))
}

fn func(callee: Callee) -> Func
    ensures { result ≡ func_of callee }
{
    Func {
        instance: Instance {
            index: callee.instance,
        },
        export: callee.export,
    }
}

fn main_op(op: MainOpText) -> MainOp
    ensures { result ≡ main_op op }
{
    match op {
        MainOpText::Start(callee, params) => MainOp::Start(func(callee), params),
        MainOpText::Finish(start, to) => MainOp::Finish(start, to),
        MainOpText::Spawn(host) => MainOp::Spawn(host),
        MainOpText::Abort(spawn) => MainOp::Abort(spawn),
        MainOpText::Await(spawn) => MainOp::Await(spawn),
        MainOpText::Quiet => MainOp::Quiet,
        MainOpText::Ready(callee) => MainOp::Ready(func(callee)),
    }
}

fn main_ops(
    alloc: Global,
    lines: Seq<MainOpText>,
    answer: Operand,
) -> Result<Seq<MainOp>, AllocError>
    ensures { IfOk result (λ ops. ops ≡ map main_op lines ++ MainOp.Answer answer ∷ []) }
{
    let mut ops = Seq::new(alloc);
    for line in lines.into_vec() {
        ops.push(main_op(line))?;
    }
    ops.push(MainOp::Answer(answer))?;
    Ok(ops)
}

type Instances = (Seq<InstanceNames>, Seq<InstanceDef>);

fn instance_defs(alloc: Global, instances: Seq<InstanceText>) -> Result<Instances, AllocError>
    ensures { IfOk result (λ p. p ≡ (map names_of instances, map instance_def instances)) }
{
    let mut names = Seq::new(alloc);
    let mut defs = Seq::new(alloc);
    for instance in instances.into_vec() {
        let (instance_names, def) = instance_def(alloc, instance)?;
        names.push(instance_names)?;
        defs.push(def)?;
    }
    Ok((names, defs))
}

/// Makes the scenario of a text's tree.
pub fn scenario_of(alloc: Global, text: ScenarioText) -> Result<Scenario, AllocError>
    ensures { IfOk result (λ x. x ≡ scenario_of text) }
{
    let (names, instances) = instance_defs(alloc, text.instances)?;
    let (host_names, hosts) = host_defs(alloc, text.hosts)?;
    Ok(Scenario {
        rules: text.version,
        handles: text.handles,
        table: text.table,
        idle: text.idle,
        component: Component { instances, hosts },
        names,
        host_names,
        main: main_ops(alloc, text.main, text.answer)?,
        aborters: text.aborters,
    })
}

/// Returns the scenario of a text of at most 1,048,576 bytes. A text that is none is refused with its first bad line, from 1 to one
/// past the last.
pub fn read_scenario(alloc: Global, text: &[u8]) -> Result<Scenario, RunError>
    requires { length text.now ≤ 1048576 }
    // A scenario is the text's own, and a line is the bad one.
    ensures answer { ReadsAs text.now result }
    // A scenario's text is refused for lack of memory alone.
    ensures only { (x : Scenario) → Reads text.now x → IsOkUnless result RunError.NoMemory }
{
    match read_tree(alloc, text) {
        Ok(tree) => match scenario_of(alloc, tree) {
            Ok(scenario) => Ok(scenario),
            Err(_) => Err(RunError::NoMemory),
        },
        Err(why) => Err(why),
    }
}

/// Returns a copy of a scenario's component.
pub fn component_of(alloc: Global, scenario: &Scenario) -> Result<Component, NoMemory>
    ensures { IfOk result (λ c. c ≡ scenario.now.component) }
{
    Ok(copy_component(alloc, &scenario.component)?)
}
