//! The trace of runs, as hosts see it.
ghost use Rattle.std.specs.List.{last_or};
ghost use Rattle.std.specs.Prelude.{◌≡◌, [], None};

use machine_data::Label;
use run_trace::{Labels, PackedLabels};
use std::alloc::Global;
use std::marker::Model;

/// The labels of the steps that runs made. A contract sees the list of them, the first one first. A host makes a trace, reads it and
/// hands it to runs: their calls alone add to it, so each label in it is of a step that a run made.
#[derive(Drop)]
pub struct Trace {
    pub(crate) labels: PackedLabels,
}

impl Model for Trace {
    ghost use Rattle.std.specs.Prelude.{List};
    ghost use Rattle.machine_data.specs.declared.label.Label.{Label};

    ghost Value = { List Label };

    ghost view = { λ t. t.labels.labels };
}

impl Trace {
    /// Makes a trace with no label.
    #[inline(always)]
    pub fn new(alloc: Global) -> Self
        ensures { result ≡ [] }
    {
        Trace {
            labels: PackedLabels::new(alloc),
        }
    }

    /// Returns the labels, the first one first.
    #[inline(always)]
    pub fn labels(&self) -> Labels<'_>
        ensures { result ≡ self.now }
    {
        self.labels.labels()
    }

    /// Returns the label that was added last, in constant time; none if there is none.
    #[inline(always)]
    pub fn last(&self) -> Option<Label>
        ensures { result ≡ last_or None self.now }
    {
        self.labels.last()
    }
}
