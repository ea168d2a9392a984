use crate::component::Callee;
use crate::seq::Seq;

/// A number, or what a register has.
#[derive(Clone, Copy)]
pub enum Operand {
    Number(u64),
    /// 0 to 15.
    Register(u8),
}

/// An op of a guest's script.
#[derive(Drop)]
pub enum Op {
    Data(DataOp),
    Task(TaskOp),
    Set(SetOp),
    Call(CallOp),
    Thread(ThreadOp),
}

/// An op on registers and on the instance's memory cells; `to` is the register that is written.
#[derive(Clone, Copy)]
pub enum DataOp {
    /// `set R X`
    Set {
        to: u8,
        value: Operand,
    },
    /// `add R X`
    Add {
        to: u8,
        value: Operand,
    },
    /// `handle R X`: the handle in a packed status.
    Handle {
        to: u8,
        value: Operand,
    },
    /// `load R W`
    Load {
        to: u8,
        cell: u8,
    },
    /// `store W X`
    Store {
        cell: u8,
        value: Operand,
    },
    /// `skip_eq X Y N`
    SkipEq {
        left: Operand,
        right: Operand,
        ops: u32,
    },
}

/// An op that ends a task, an activation or a thread, or that says whether the instance takes
/// calls.
#[derive(Clone, Copy)]
pub enum TaskOp {
    /// `ret X`
    Ret { value: Operand },
    /// `ret_bad X`: a return whose type doesn't fit.
    RetBad { value: Operand },
    /// `task_cancel`
    TaskCancel,
    /// `exit`
    Exit,
    /// `cb_yield`
    CbYield,
    /// `cb_wait X`
    CbWait { set: Operand },
    /// `code X`
    Code { code: Operand },
    /// `bp_inc`
    BpInc,
    /// `bp_dec`
    BpDec,
}

/// An op on waitable sets; an event is written to `to` and the two registers after it.
#[derive(Clone, Copy)]
pub enum SetOp {
    /// `set_new R`
    New { to: u8 },
    /// `set_drop X`
    Drop { set: Operand },
    /// `wait R X`, R at most r13
    Wait { to: u8, set: Operand },
    /// `poll R X`, R at most r13
    Poll { to: u8, set: Operand },
    /// `join X Y`, Y 0 for no set
    Join { waitable: Operand, set: Operand },
}

/// An op on subtasks: calls of earlier instances' exports and of hosts, cancels and drops.
#[derive(Drop)]
pub enum CallOp {
    /// `call R Q F X*`
    Call {
        to: u8,
        result: u8,
        callee: Callee,
        params: Seq<Operand>,
    },
    /// `call_sync R F X*`
    CallSync {
        to: u8,
        callee: Callee,
        params: Seq<Operand>,
    },
    /// `call R Q H`, H a host's place
    CallHost {
        to: u8,
        result: u8,
        host: u32,
    },
    /// `call_sync R H`, H a host's place
    CallSyncHost {
        to: u8,
        host: u32,
    },
    /// `cancel R X`
    Cancel {
        to: u8,
        subtask: Operand,
    },
    /// `cancel_sync R X`
    CancelSync {
        to: u8,
        subtask: Operand,
    },
    /// `drop X`
    Drop {
        subtask: Operand,
    },
}

/// An op on the task's own threads.
#[derive(Clone, Copy)]
pub enum ThreadOp {
    /// `thread_new R S X`, S a slot, 0 to 15
    New { to: u8, slot: u8, context: Operand },
    /// `thread_index R`
    Index { to: u8 },
    /// `resume_later X`
    ResumeLater { thread: Operand },
    /// `suspend`
    Suspend,
    /// `yield`
    Yield,
    /// `suspend_then_resume X`
    SuspendThenResume { thread: Operand },
    /// `yield_then_resume X`
    YieldThenResume { thread: Operand },
    /// `suspend_then_promote X`
    SuspendThenPromote { thread: Operand },
    /// `yield_then_promote X`
    YieldThenPromote { thread: Operand },
}
