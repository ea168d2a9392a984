//! The tree of a scenario text: a field for each line, in the order of the lines.

use machine_data::{Callee, ExportKind, IdleLine, Op, Operand, Seq, Version};
use text_lines::{HostWork, Name};

/// A `host` line.
#[derive(Drop)]
pub struct HostText {
    pub name: Name,
    pub work: HostWork,
}

/// An `export` line, with its number of parameters, 0 to 16, the script after it and, where there
/// is a `react` line, the script after that.
#[derive(Drop)]
pub struct ExportText {
    pub name: Name,
    pub kind: ExportKind,
    pub params: u32,
    pub start: Seq<Op>,
    pub react: Option<Seq<Op>>,
}

/// What is in an instance.
#[derive(Drop)]
pub enum PartText {
    Export(ExportText),
    /// A `thread` line, with its slot and the script after it.
    Thread(u8, Seq<Op>),
    /// A `bad` line, with its slot.
    Bad(u8),
}

/// An `instance` line, and what is after it.
#[derive(Drop)]
pub struct InstanceText {
    pub name: Name,
    pub parts: Seq<PartText>,
}

/// A line between `main` and `answer`. Starts and spawns are counted apart, from 1.
#[derive(Drop)]
pub enum MainOpText {
    /// `start F X*`, F by the places of its instance and its export.
    Start(Callee, Seq<Operand>),
    /// `finish K R`
    Finish(u32, u8),
    /// `spawn H`, H by its host's place
    Spawn(u32),
    /// `abort K`
    Abort(u32),
    /// `await K`
    Await(u32),
    /// `quiet`
    Quiet,
    /// `ready F`, F by the places of its instance and its export
    Ready(Callee),
}

/// A scenario text. A callee in it is a place: of a host, or of an instance and of an export among
/// the exports of that instance, all from 0.
#[derive(Drop)]
pub struct ScenarioText {
    pub version: Version,
    pub handles: u32,
    pub table: u32,
    pub idle: IdleLine,
    pub hosts: Seq<HostText>,
    pub instances: Seq<InstanceText>,
    pub main: Seq<MainOpText>,
    /// What the line `answer X` says.
    pub answer: Operand,
    /// The numbers of spawns that each `aborter` line has.
    pub aborters: Seq<Seq<u32>>,
}
