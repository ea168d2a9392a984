//! The main: it doubles its word by one call, then adds one by another, and answers that.
ghost use Rattle.host_embedding.specs.Host.{TakesOne};
ghost use Rattle.host_embedding.specs.Keeps.{Keeps, keeps_later};
ghost use Rattle.host_embedding.specs.Says.{HasRelayed, relay_says};
ghost use Rattle.std.specs.Prelude.{◌≡◌, ◌<◌, IfErr, IfOk};
ghost use Rattle.task_loop.specs.HasRun.{MayStep};
ghost use Rattle.task_loop.specs.Constants.{constants};
ghost use Rattle.task_loop.specs.Hooked.{LacksOp};
ghost use Rattle.core_primitives.specs.StateView.{StateView};

use crate::parts::{DOUBLE, NEXT};
use machine_data::MainLabel;
use std::alloc::Global;
use task_group::NoHook;
use task_loop::{Component, Func, Label, MainStep, MainTask, TaskError};
use task_nursery::{Nursery, NurseryError};
use task_store::{Access, HostWork, ScriptedHost, Whole};

/// Where main is.
#[derive(Drop)]
pub struct Relay {
    word: u64,
    // How many calls were started, and two once one was refused.
    started: u32,
    // These calls, of which one is open at a time.
    calls: Nursery,
    // Whether one is open.
    waits: bool,
}

impl Relay {
    /// Makes main with a value, before its first call.
    pub fn new(alloc: Global, word: u64) -> Self
        ensures word { result.word ≡ word }
        ensures keeps { (s : StateView) → Keeps result s }
    {
        Relay {
            word,
            started: 0,
            calls: Nursery::new(alloc, 1),
            waits: false,
        }
    }
}

// Calls the export with main's word. Where the store refuses it, main has no further call.
fn start(
    relay: &mut Relay,
    access: &mut Access<'_, (), Whole, ScriptedHost>,
    component: &Component,
    func: Func,
) -> Result<MainStep, TaskError>
    requires may { MayStep relay_says ⟦<ScriptedHost as HostWork>⟧.course component.now relay.old access.old.store.now }
    requires takes { TakesOne component.now func }
    requires few { relay.old.started < 2 }
    ensures same { access.new.store.ghost_name ≡ access.old.store.ghost_name }
    ensures constants_stay { constants access.new.store.now ≡ constants access.old.store.now }
    ensures step { IfOk result (λ step. HasRelayed component.now step relay.old access.old.store.now relay.new access.new.store.now) }
    ensures err { IfErr result (λ e. LacksOp e access.old.store.now.listeners access.new.store.now.listeners) }
{
    let number = relay.started + 1;
    match relay
        .calls
        .start(component, access.store, func, &[relay.word])
    {
        Ok(child) => {
            let Some(thread) = relay.calls.thread(child) else {
                unreachable!()
            };
            relay.waits = true;
            relay.started = number;
            Ok(MainStep::Did(Label::Main(MainLabel::Start(number, thread))))
        }
        Err(NurseryError::Trap(trap)) => {
            relay.started = 2;
            Ok(MainStep::Did(Label::Main(MainLabel::StartRefused(trap, number))))
        }
        Err(NurseryError::NoMemory) => Err(TaskError::NoMemory),
        Err(NurseryError::Closed) => Ok(MainStep::Pends),
        Err(NurseryError::Full) => Ok(MainStep::Pends),
    }
}

// The word becomes the value of the call that is open, once it has returned.
fn finish(
    relay: &mut Relay,
    access: &mut Access<'_, (), Whole, ScriptedHost>,
    component: &Component,
) -> MainStep
    requires may { MayStep relay_says ⟦<ScriptedHost as HostWork>⟧.course component.now relay.old access.old.store.now }
    ensures same { access.new.store.ghost_name ≡ access.old.store.ghost_name }
    ensures constants_stay { constants access.new.store.now ≡ constants access.old.store.now }
    ensures step { HasRelayed component.now result relay.old access.old.store.now relay.new access.new.store.now }
{
    // only the contract speaks of `component`
    let _component = component;
    let Some(child) = relay.calls.turn(access.store) else {
        return MainStep::Pends;
    };
    let Some(value) = relay.calls.value(child) else {
        return MainStep::Pends;
    };
    relay.word = value;
    relay.waits = false;
    MainStep::Did(Label::Main(MainLabel::Finish(child.number, value)))
}

impl MainTask<(), ScriptedHost, NoHook> for Relay {
    ghost says = { relay_says };

    ghost stays = { λ main before after last known. keeps_later main before after last known };

    fn step(
        &mut self,
        access: &mut Access<'_, (), Whole, ScriptedHost>,
        component: &Component,
    ) -> Result<MainStep, TaskError> {
        if self.waits {
            return Ok(finish(self, access, component));
        }
        match self.started {
            0 => start(self, access, component, DOUBLE),
            1 => start(self, access, component, NEXT),
            _ => Ok(MainStep::Answer(self.word)),
        }
    }
}
