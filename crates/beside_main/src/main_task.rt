//! Main as a script, before whose pending a gate is.

ghost use Rattle.std.specs.Prelude.{◌≡◌};

use beside_works::Gate;
use machine_data::Component;
use task_group::TaskGroupHook;
use task_loop::{MainStep, MainTask, TaskError};
use task_run::ScriptMain;
use task_store::{Access, AccessorTask, FromHost, Whole};

/// Main as a script, with the gate, and how often it has pended.
#[derive(Drop)]
pub struct GatedMain<'a, G> {
    pub(crate) script: ScriptMain<'a>,
    pub(crate) gate: &'a G,
    pub(crate) pends: u32,
}

impl<G: Gate> GatedMain<'_, G> {
    // Is at the gate, if main has pended.
    fn note(&mut self, step: &MainStep)
        ensures { self.new ≡ record self.old { pends = self.new.pends } }
    {
        if let MainStep::Pends = step {
            self.pends = self.pends.saturating_add(1);
            self.gate.pends(self.pends);
        }
    }
}

impl<T, H: AccessorTask<T> + FromHost, G: TaskGroupHook, E: Gate> MainTask<T, H, G>
    for GatedMain<'_, E> {
    ghost use Rattle.beside_main.specs.Course.{gated_says};
    ghost use Rattle.task_run.specs.Knows.{knows_later};

    ghost says = { gated_says };

    ghost stays = { λ m s t last knows. knows_later m.script s t last knows };

    fn step(
        &mut self,
        access: &mut Access<'_, T, Whole, H, G>,
        component: &Component,
    ) -> Result<MainStep, TaskError> {
        match self.script.step(access, component) {
            Ok(step) => {
                self.note(&step);
                Ok(step)
            }
            Err(error) => Err(error),
        }
    }
}
