use crate::op::Op;
use crate::seq::Seq;

/// How an export is typed and lifted.
#[derive(Clone, Copy)]
pub enum ExportKind {
    /// Sync-typed and sync-lifted: it may not block.
    Sync,
    /// Async-typed and sync-lifted.
    Blocking,
    /// Async-typed and async-lifted, on a stack of its own.
    Stackful,
    /// Async-typed and async-lifted, called back with each event.
    Callback,
}

/// An export, named by the place of its instance and its own place there, both from 0.
#[derive(Clone, Copy)]
pub struct Callee {
    pub instance: u32,
    pub export: u32,
}

/// What runs under one export: its kind, how many values it takes (0 to 16), the script that it
/// starts with and, of a callback, the script that each event runs.
#[derive(Drop)]
pub struct ExportDef {
    pub kind: ExportKind,
    pub params: u32,
    pub start: Seq<Op>,
    pub react: Seq<Op>,
}

/// What is in one of an instance's 16 places for thread scripts.
#[derive(Drop)]
pub enum Slot {
    /// Nothing.
    Empty,
    /// A script of the wrong type.
    Bad,
    Script(Seq<Op>),
}

/// An instance: its exports, and its 16 slots.
#[derive(Drop)]
pub struct InstanceDef {
    pub exports: Seq<ExportDef>,
    pub slots: Seq<Slot>,
}

/// What is known of a host function before it is called.
#[derive(Clone, Copy)]
pub enum HostDef {
    /// How many of its polls pend (none: it never ends), and the value that it ends with (none: it
    /// fails).
    Settled {
        polls: Option<u32>,
        value: Option<u64>,
    },
    /// Nothing: each poll tells whether it pends, ends with a value or fails.
    Open,
}

/// What is run: instances, each of which calls only earlier ones, and host functions.
#[derive(Drop)]
pub struct Component {
    pub instances: Seq<InstanceDef>,
    pub hosts: Seq<HostDef>,
}
