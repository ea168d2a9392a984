//! The ops of main so far, with what later lines ask of them.
ghost use Rattle.std.specs.Prelude.{◌≡◌, ◌<◌, ◌≤◌, [], ◌∷◌, ◌++◌, List, OnErr, OnOk};
ghost use Rattle.std.specs.List.{list_all, list_any};
ghost use Rattle.text_scenario.specs.declared.tree.MainOpText.{MainOpText};
ghost use Rattle.text_scenario.specs.declared.tree.MainOpText.TheVariants as main;
ghost use Rattle.text_scenario.specs.MainLines.{FinishesStart};
ghost use Rattle.text_scenario.specs.Placement.{aborter_opens, finishes, finish_opens, is_spawned, main_has_room, spawn_named, spawn_opens, start_count, start_opens};

use crate::tree::MainOpText;
use machine_data::{Callee, Operand, Seq};
use std::alloc::{AllocError, Global};
use std::marker::Model;

// The most ops of main before its answer, and the most starts and the most spawns among them.
const MAIN_OPS: usize = 4_095;

const STARTS: usize = 256;

const SPAWNS: usize = 256;

// The most aborters, and the most spawns that one aborts.
const ABORTERS: usize = 8;

const ABORTS: usize = 16;

/// The ops of main, which contracts see as their list. What a line asks of those before it is kept, so
/// that none is looked at again.
pub struct MainLines {
    ops: Seq<MainOpText>,
    starts: usize,
    spawns: usize,
    // Of each start whether an op finishes it.
    finished: Vec<bool>,
}

// By hand, as that of a state is.
impl Drop for MainLines {
    fn drop(self) {
        let MainLines {
            ops: _,
            starts: _,
            spawns: _,
            finished: _,
        } = self;
    }
}

impl Model for MainLines {
    ghost use Rattle.std.specs.Prelude.{List};
    ghost use Rattle.text_scenario.specs.declared.tree.MainOpText.{MainOpText};
    ghost use Rattle.text_scenario.specs.MainLines.{IsKept};

    ghost Value = { List MainOpText };

    ghost view = { λ m. m.ops };

    ghost invariant = { λ m. IsKept m.ops m.starts m.spawns m.finished.items };
}

impl MainLines {
    /// Makes an empty list of ops.
    pub fn new(alloc: Global) -> Self
        ensures { result ≡ [] }
    {
        MainLines {
            ops: Seq::new(alloc),
            starts: 0,
            spawns: 0,
            finished: Vec::new(alloc),
        }
    }

    /// Returns the ops, in order.
    pub fn into_ops(self) -> Seq<MainOpText>
        ensures { result ≡ self }
    {
        let MainLines {
            ops,
            starts: _,
            spawns: _,
            finished: _,
        } = self;
        ops
    }

    /// Returns whether an op may follow these, if nothing else forbids it.
    pub fn has_room(&self) -> bool
        ensures { result ≡ main_has_room self.now }
    {
        self.ops.len() < MAIN_OPS
    }

    /// Returns whether a start may follow these ops.
    pub fn start_opens(&self) -> bool
        ensures { result ≡ start_opens self.now }
    {
        self.has_room() && self.starts < STARTS
    }

    fn is_finished(&self, start: u32) -> bool
        requires some { 0 < start }
        requires known { start ≤ start_count self.now }
        ensures { result ≡ list_any (finishes start) self.now }
    {
        self.finished[start as usize - 1]
    }

    /// Returns whether a finish of this start, an earlier one that isn't finished, may follow these ops.
    pub fn finish_opens(&self, start: u32) -> bool
        ensures { result ≡ finish_opens self.now start }
    {
        self.has_room() && 1 <= start && start as usize <= self.starts && !self.is_finished(start)
    }

    /// Returns whether a spawn may follow these ops.
    pub fn spawn_opens(&self) -> bool
        ensures { result ≡ spawn_opens self.now }
    {
        self.has_room() && self.spawns < SPAWNS
    }

    /// Returns whether this spawn is an earlier one.
    pub fn is_spawned(&self, spawn: u32) -> bool
        ensures { result ≡ is_spawned self.now spawn }
    {
        1 <= spawn && spawn as usize <= self.spawns
    }

    /// Returns whether an op on this spawn, an earlier one, may follow these ops.
    pub fn spawn_named(&self, spawn: u32) -> bool
        ensures { result ≡ spawn_named self.now spawn }
    {
        self.has_room() && self.is_spawned(spawn)
    }

    fn all_spawned(&self, spawns: &[u32]) -> bool
        ensures { result ≡ list_all (is_spawned self.now) spawns.now }
    {
        spawns.iter().all(|k| self.is_spawned(*k))
    }

    /// Returns whether an aborter of these spawns may follow those before it.
    pub fn aborter_opens(&self, before: &[Seq<u32>], spawns: &[u32]) -> bool
        ensures { result ≡ aborter_opens self.now before.now spawns.now }
    {
        before.len() < ABORTERS
            && 1 <= spawns.len()
            && spawns.len() <= ABORTS
            && self.all_spawned(spawns)
    }

    /// Adds a start; if it is out of memory, the ops are as before.
    pub fn push_start(&mut self, callee: Callee, operands: Seq<Operand>) -> Result<(), AllocError>
        ensures ok { OnOk result (self.new ≡ self.old ++ main.Start callee operands ∷ []) }
        ensures err { OnErr result (self.new ≡ self.old) }
    {
        self.finished.push(false)?;
        match self.ops.push(MainOpText::Start(callee, operands)) {
            Ok(()) => {
                self.starts += 1;
                Ok(())
            }
            Err(e) => {
                let _last = self.finished.pop();
                Err(e)
            }
        }
    }

    #[tactic(auto, using(crate::proofs::MainKept::few_spawns))]
    fn push_spawn(&mut self, host: u32) -> Result<(), AllocError>
        ensures ok { OnOk result (self.new ≡ self.old ++ main.Spawn host ∷ []) }
        ensures err { OnErr result (self.new ≡ self.old) }
    {
        self.ops.push(MainOpText::Spawn(host))?;
        // read so that the proof knows the invariant of `self`
        let _count = self.ops.len();
        self.spawns += 1;
        Ok(())
    }

    /// Adds an op, which finishes no later start than those that it follows; if it is out of memory, the ops are as before.
    pub fn push(&mut self, op: MainOpText) -> Result<(), AllocError>
        requires { FinishesStart self.old op }
        ensures ok { OnOk result (self.new ≡ self.old ++ op ∷ []) }
        ensures err { OnErr result (self.new ≡ self.old) }
    {
        match op {
            MainOpText::Start(callee, operands) => self.push_start(callee, operands),
            MainOpText::Finish(start, to) => {
                self.ops.push(MainOpText::Finish(start, to))?;
                if 1 <= start {
                    self.finished[start as usize - 1] = true;
                }
                Ok(())
            }
            MainOpText::Spawn(host) => self.push_spawn(host),
            MainOpText::Abort(spawn) => {
                self.ops.push(MainOpText::Abort(spawn))?;
                Ok(())
            }
            MainOpText::Await(spawn) => {
                self.ops.push(MainOpText::Await(spawn))?;
                Ok(())
            }
            MainOpText::Quiet => {
                self.ops.push(MainOpText::Quiet)?;
                Ok(())
            }
            MainOpText::Ready(callee) => {
                self.ops.push(MainOpText::Ready(callee))?;
                Ok(())
            }
        }
    }
}
