//! What a step of main shows.
ghost use Rattle.std.specs.Prelude.{◌≡◌, None};
ghost use Rattle.ops_turns.specs.Does.{label_of_step};
ghost use Rattle.ops_turns.specs.Main.{StepTurns};
ghost use Rattle.ops_turns.specs.Turn.{running_of};

use crate::made::MadeStep;
use crate::settles::turn_where;
use core_primitives::Primitives;
use machine_data::{Label, LoopLabel, MainLabel, Turn};

/// What main's next op resulted in.
#[derive(Clone, Copy)]
pub enum MainStep {
    /// The op is done, with this label.
    Did(Label),
    /// The op waits for a call.
    Pends,
    /// Main is over.
    Answer(u64),
}

/// Returns what main's step shows, in the state that it has left. Where main waits, the live works are polled, or else an entry is
/// taken.
pub fn made_by_main<W: Primitives>(w: &W, step: MainStep) -> MadeStep
    requires { running_of (W.view w.now) ≡ None }
    ensures label { result.label ≡ label_of_step step }
    ensures turns { StepTurns step result (W.view w.now) }
{
    match step {
        MainStep::Did(label) => MadeStep {
            label,
            turn: Turn::Main,
        },
        MainStep::Pends => MadeStep {
            label: Label::Loop(LoopLabel::MainPends),
            turn: turn_where(0, w.next_polled(0).is_some()),
        },
        MainStep::Answer(value) => MadeStep {
            label: Label::Main(MainLabel::Answer(value)),
            turn: Turn::Over,
        },
    }
}
