//! Copies of components.
ghost use Rattle.std.specs.Prelude.{◌≡◌, IfOk};

use machine_data::{CallOp, Component, ExportDef, HostDef, InstanceDef, Op, Operand, Seq, Slot};
use std::alloc::{AllocError, Global};

fn copy_operands(alloc: Global, operands: &Seq<Operand>) -> Result<Seq<Operand>, AllocError>
    ensures { IfOk result (λ c. c ≡ operands.now) }
{
    Ok(Seq::from_vec(Vec::from_slice(alloc, operands.as_slice())?))
}

fn copy_hosts(alloc: Global, hosts: &Seq<HostDef>) -> Result<Seq<HostDef>, AllocError>
    ensures { IfOk result (λ c. c ≡ hosts.now) }
{
    Ok(Seq::from_vec(Vec::from_slice(alloc, hosts.as_slice())?))
}

fn copy_call(alloc: Global, op: &CallOp) -> Result<CallOp, AllocError>
    ensures { IfOk result (λ c. c ≡ op.now) }
{
    Ok(match *op {
        CallOp::Call {
            to,
            result: register,
            callee,
            ref params,
        } => CallOp::Call {
            to,
            result: register,
            callee,
            params: copy_operands(alloc, params)?,
        },
        CallOp::CallSync {
            to,
            callee,
            ref params,
        } => CallOp::CallSync {
            to,
            callee,
            params: copy_operands(alloc, params)?,
        },
        CallOp::CallHost {
            to,
            result: register,
            host,
        } => CallOp::CallHost {
            to,
            result: register,
            host,
        },
        CallOp::CallSyncHost { to, host } => CallOp::CallSyncHost { to, host },
        CallOp::Cancel { to, subtask } => CallOp::Cancel { to, subtask },
        CallOp::CancelSync { to, subtask } => CallOp::CancelSync { to, subtask },
        CallOp::Drop { subtask } => CallOp::Drop { subtask },
    })
}

fn copy_op(alloc: Global, op: &Op) -> Result<Op, AllocError>
    ensures { IfOk result (λ c. c ≡ op.now) }
{
    Ok(match op {
        Op::Data(op) => Op::Data(*op),
        Op::Task(op) => Op::Task(*op),
        Op::Set(op) => Op::Set(*op),
        Op::Call(op) => Op::Call(copy_call(alloc, op)?),
        Op::Thread(op) => Op::Thread(*op),
    })
}

fn copy_ops(alloc: Global, ops: &Seq<Op>) -> Result<Seq<Op>, AllocError>
    ensures { IfOk result (λ c. c ≡ ops.now) }
{
    let mut copies = Seq::new(alloc);
    for op in ops.as_slice() {
        copies.push(copy_op(alloc, op)?)?;
    }
    Ok(copies)
}

fn copy_export(alloc: Global, export: &ExportDef) -> Result<ExportDef, AllocError>
    ensures { IfOk result (λ c. c ≡ export.now) }
{
    Ok(ExportDef {
        kind: export.kind,
        params: export.params,
        start: copy_ops(alloc, &export.start)?,
        react: copy_ops(alloc, &export.react)?,
    })
}

fn copy_exports(alloc: Global, exports: &Seq<ExportDef>) -> Result<Seq<ExportDef>, AllocError>
    ensures { IfOk result (λ c. c ≡ exports.now) }
{
    let mut copies = Seq::new(alloc);
    for export in exports.as_slice() {
        copies.push(copy_export(alloc, export)?)?;
    }
    Ok(copies)
}

fn copy_slot(alloc: Global, slot: &Slot) -> Result<Slot, AllocError>
    ensures { IfOk result (λ c. c ≡ slot.now) }
{
    Ok(match slot {
        Slot::Empty => Slot::Empty,
        Slot::Bad => Slot::Bad,
        Slot::Script(ops) => Slot::Script(copy_ops(alloc, ops)?),
    })
}

fn copy_slots(alloc: Global, slots: &Seq<Slot>) -> Result<Seq<Slot>, AllocError>
    ensures { IfOk result (λ c. c ≡ slots.now) }
{
    let mut copies = Seq::new(alloc);
    for slot in slots.as_slice() {
        copies.push(copy_slot(alloc, slot)?)?;
    }
    Ok(copies)
}

fn copy_instance(alloc: Global, instance: &InstanceDef) -> Result<InstanceDef, AllocError>
    ensures { IfOk result (λ c. c ≡ instance.now) }
{
    Ok(InstanceDef {
        exports: copy_exports(alloc, &instance.exports)?,
        slots: copy_slots(alloc, &instance.slots)?,
    })
}

type Instances = Seq<InstanceDef>;

fn copy_instances(alloc: Global, instances: &Instances) -> Result<Instances, AllocError>
    ensures { IfOk result (λ c. c ≡ instances.now) }
{
    let mut copies = Seq::new(alloc);
    for instance in instances.as_slice() {
        copies.push(copy_instance(alloc, instance)?)?;
    }
    Ok(copies)
}

/// Returns a copy of a component.
pub fn copy_component(alloc: Global, component: &Component) -> Result<Component, AllocError>
    ensures { IfOk result (λ c. c ≡ component.now) }
{
    Ok(Component {
        instances: copy_instances(alloc, &component.instances)?,
        hosts: copy_hosts(alloc, &component.hosts)?,
    })
}
