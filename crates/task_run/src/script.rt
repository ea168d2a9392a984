//! Main as a script, and how far it has come.
ghost use Rattle.std.specs.Prelude.{◌≤◌, length};

use crate::scenario::MainOp;
use machine_data::Trap;
use std::alloc::Global;
use task_store::SpawnHandle;

// A start by main: the number of its call, or why it was refused.
#[derive(Clone, Copy)]
pub enum Start {
    Called(u64),
    Refused(Trap),
}

/// Main as a script: it takes its ops one by one. Each start and each spawn that it made was an op of its own.
#[derive(Drop)]
pub struct ScriptMain<'a> {
    pub(crate) alloc: Global,
    pub(crate) ops: &'a [MainOp],
    pub(crate) at: usize,
    pub(crate) registers: [u64; 16],
    pub(crate) starts: Vec<Start>,
    // The works that it spawned.
    pub(crate) spawns: Vec<SpawnHandle>,
    ghost started: { length starts.items ≤ at },
    ghost spawned: { length spawns.items ≤ at },
}
