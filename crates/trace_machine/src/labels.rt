//! What a label says of a run.
ghost use Rattle.machine_rules.specs.Outcome.{outcome_of_label};
ghost use Rattle.std.specs.Option.{option_and_then};
ghost use Rattle.std.specs.Prelude.{◌≡◌};
ghost use Rattle.trace_machine.specs.Machines.{held_in};

use machine_data::{CallLabel, Label, LoopLabel, MainLabel, Outcome, TakeLabel};

// The outcome that a label gives as the last one of a run.
fn outcome_of_label(label: Label) -> Option<Outcome>
    ensures { result ≡ outcome_of_label label }
{
    match label {
        Label::Main(MainLabel::Answer(value)) => Some(Outcome::Done(value)),
        Label::Loop(LoopLabel::Trap(trap, _)) => Some(Outcome::Trap(trap)),
        Label::Loop(LoopLabel::Deadlock(trap)) => Some(Outcome::Deadlock(trap)),
        Label::Loop(LoopLabel::FutureFails(work)) => Some(Outcome::HostFailed(work)),
        Label::Call(CallLabel::Fails(_, work)) => Some(Outcome::HostFailed(work)),
        _ => None,
    }
}

/// Returns the outcome that the last label of a run gives, if there is one.
pub(crate) fn outcome_of_last(last: Option<Label>) -> Option<Outcome>
    ensures { result ≡ option_and_then outcome_of_label last }
{
    match last {
        Some(label) => outcome_of_label(label),
        None => None,
    }
}

/// Returns the thread that a label says is held, if it says so of one.
pub(crate) fn held_in(label: Label) -> Option<u64>
    ensures { result ≡ held_in label }
{
    match label {
        Label::Take(TakeLabel::Held(_, thread)) => Some(thread),
        Label::Take(TakeLabel::HeldWakes(_, thread, _)) => Some(thread),
        _ => None,
    }
}
