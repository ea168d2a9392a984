use machine_data::{Component, IdleLine, Operand, Seq, Version};
use task_loop::Func;

/// The names that a text gives to an instance and its exports.
#[derive(Drop)]
pub struct InstanceNames {
    pub instance: Seq<u8>,
    pub exports: Seq<Seq<u8>>,
}

/// An op of main. Starts and spawns are counted apart, from 1, in the order of their ops.
#[derive(Drop)]
pub enum MainOp {
    /// `start F X*`
    Start(Func, Seq<Operand>),
    /// `finish K R`
    Finish(u32, u8),
    /// `spawn H`, H a host's place
    Spawn(u32),
    /// `abort K`
    Abort(u32),
    /// `await K`
    Await(u32),
    /// `quiet`
    Quiet,
    /// `ready F`
    Ready(Func),
    /// `answer X`
    Answer(Operand),
}

/// A scenario: what a text says, in the order of its lines.
#[derive(Drop)]
pub struct Scenario {
    /// By which rules it is run: those of `scenario 1` or of `scenario 2`.
    pub rules: Version,
    /// How many handles may be live at once, at most 268,435,455.
    pub handles: u32,
    /// How many entries the resource table may have, at most 1,000,000.
    pub table: u32,
    pub idle: IdleLine,
    pub component: Component,
    /// The names that the text gives; a run doesn't use them.
    pub names: Seq<InstanceNames>,
    /// The names that the text gives to its hosts, in order; a run doesn't use them either.
    pub host_names: Seq<Seq<u8>>,
    pub main: Seq<MainOp>,
    /// For each aborter the spawns that it aborts, in order.
    pub aborters: Seq<Seq<u32>>,
}
