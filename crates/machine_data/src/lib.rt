//! The plain data that the component machine's definitions and the code both speak of.
#![tactic(auto)]

mod component;
mod label;
mod memory;
mod op;
mod outcome;
mod records;
mod scenario;
mod seq;
mod statuses;
mod trap;

pub use component::{Callee, Component, ExportDef, ExportKind, HostDef, InstanceDef, Slot};
pub use label::{
    CallLabel, DataLabel, Label, LoopLabel, MainLabel, SetLabel, TakeLabel, TaskLabel, ThreadLabel,
};
pub use memory::NoMemory;
pub use op::{CallOp, DataOp, Op, Operand, SetOp, TaskOp, ThreadOp};
pub use outcome::Outcome;
pub use records::{
    Call, CallEnd, Caller, Course, Delivery, Entry, Goal, Instance, Join, MadeCounts, Named,
    Notice, NoticeKind, OpProgress, Place, Script, Set, Stage, Subtask, Thread, Turn, Why, Work,
    WorkCaller,
};
pub use scenario::{IdleLine, MainOpDef, NamesDef, ScenarioDef, Version};
pub use seq::Seq;
pub use statuses::{Given, HostPoll, Mark, Phase, Status, TaskEvent};
pub use trap::Trap;
