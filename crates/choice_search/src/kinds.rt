//! Which outcomes are looked for.
ghost use Rattle.choice_search.specs.Searched.{all_kinds, is_of, no_kinds};
ghost use Rattle.std.specs.Prelude.{◌≡◌};

use machine_data::Outcome;

/// The kinds of outcomes that count as found.
#[derive(Clone, Copy)]
pub struct Kinds {
    pub deadlock: bool,
    pub trap: bool,
    pub failed: bool,
    pub idle: bool,
}

impl Kinds {
    /// Makes that of all faults.
    pub fn all() -> Kinds
        ensures { result ≡ all_kinds }
    {
        Kinds {
            deadlock: true,
            trap: true,
            failed: true,
            idle: true,
        }
    }

    /// Makes that of no fault.
    pub fn none() -> Kinds
        ensures { result ≡ no_kinds }
    {
        Kinds {
            deadlock: false,
            trap: false,
            failed: false,
            idle: false,
        }
    }

    /// Returns whether the outcome is of one of these kinds.
    pub fn has(self, outcome: Outcome) -> bool
        ensures { result ≡ is_of self outcome }
    {
        match outcome {
            Outcome::Done(_) | Outcome::OutOfSteps => false,
            Outcome::Trap(_) => self.trap,
            Outcome::HostFailed(_) => self.failed,
            Outcome::Deadlock(_) => self.deadlock,
            Outcome::Idle => self.idle,
        }
    }
}
