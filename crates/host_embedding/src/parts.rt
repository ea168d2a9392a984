//! What is run: two instances with an export each.
ghost use Rattle.std.specs.Prelude.{◌≡◌, length, IfOk};
ghost use Rattle.machine_data.specs.declared.component.ExportDef.{ExportDef};
ghost use Rattle.ops_turns.specs.Covered.{HasPlainExports};
ghost use Rattle.host_embedding.specs.Host.{HasOneExport, TakesOne};

use machine_data::{DataOp, ExportKind, Seq, TaskOp};
use std::alloc::{AllocError, Global};
use task_loop::{Component, ExportDef, Func, Instance, InstanceDef, Op, Operand};

/// Answers twice its word.
pub const DOUBLE: Func = Func {
    instance: Instance { index: 0 },
    export: 0,
};

/// Answers one more than its word.
pub const NEXT: Func = Func {
    instance: Instance { index: 1 },
    export: 0,
};

// An instance whose one export answers its word plus this.
fn adder(alloc: Global, more: Operand) -> Result<InstanceDef, AllocError>
    ensures { IfOk result HasOneExport }
{
    let start = [
        Op::Data(DataOp::Add { to: 0, value: more }),
        Op::Task(TaskOp::Ret {
            value: Operand::Register(0),
        }),
        Op::Task(TaskOp::Exit),
    ];
    let export = ExportDef {
        kind: ExportKind::Callback,
        params: 1,
        start: Seq::from_vec(Vec::from_array(alloc, start)?),
        react: Seq::new(alloc),
    };
    Ok(InstanceDef {
        exports: Seq::from_vec(Vec::from_array(alloc, [export])?),
        slots: Seq::new(alloc),
    })
}

/// Returns the instance of `DOUBLE`, and that of `NEXT`.
pub fn component(alloc: Global) -> Result<Component, AllocError>
    ensures exports { IfOk result HasPlainExports }
    ensures double { IfOk result (λ c. TakesOne c DOUBLE) }
    ensures next { IfOk result (λ c. TakesOne c NEXT) }
    ensures two { IfOk result (λ c. length c.instances ≡ 2) }
{
    let double = adder(alloc, Operand::Register(0))?;
    let next = adder(alloc, Operand::Number(1))?;
    Ok(Component {
        instances: Seq::from_vec(Vec::from_array(alloc, [double, next])?),
        hosts: Seq::new(alloc),
    })
}
