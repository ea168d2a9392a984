use crate::component::{Callee, Component};
use crate::op::Operand;
use crate::seq::Seq;

/// By which rules a text is run.
#[derive(Clone, Copy, PartialEq, Eq)]
pub enum Version {
    One,
    Two,
}

/// What happens where nothing can go on and no host work is live: `idle trap` or `idle wait`.
#[derive(Clone, Copy)]
pub enum IdleLine {
    /// The run ends as a deadlock.
    Trap,
    /// The run ends as idle.
    Wait,
}

/// An op of main's script. Starts and spawns are named by their lines, counted apart from 1.
#[derive(Drop)]
pub enum MainOpDef {
    /// `start F X*`
    Start(Callee, Seq<Operand>),
    /// `finish K R`
    Finish(u32, u8),
    /// `spawn H`, H a host's place
    Spawn(u32),
    /// `abort K`
    Abort(u32),
    /// `await K`
    Await(u32),
    /// `quiet`
    Quiet,
    /// `ready F`
    Ready(Callee),
    /// `answer X`
    Answer(Operand),
}

/// The names that a text gives to an instance and its exports.
#[derive(Drop)]
pub struct NamesDef {
    pub instance: Seq<u8>,
    pub exports: Seq<Seq<u8>>,
}

/// A scenario: the limits, what is run, and what main does.
#[derive(Drop)]
pub struct ScenarioDef {
    pub version: Version,
    /// How many handles may be live at once.
    pub handles: u32,
    /// How many entries the resource table has room for.
    pub table: u32,
    pub idle: IdleLine,
    pub component: Component,
    pub names: Seq<NamesDef>,
    pub main: Seq<MainOpDef>,
    /// The spawns that each aborter aborts beside a run.
    pub aborters: Seq<Seq<u32>>,
}
