//! Labels of runs in little room (a label takes 8 bytes, and 8 for each number after its first one), and how far a run has come
//! since it last yielded.
#![tactic(auto)]

mod groups;
mod kinds;
mod last;
mod marks;
mod open;
mod pack;
mod packed;
mod policy;
mod yield_budget;

pub use kinds::{
    CallKind, DataKind, HandleKind, Head, LARGE, LabelKind, LoopKind, MainKind, OwnKind, SetKind,
    TakeKind, TaskKind, ThreadKind,
};
pub use open::{Labels, first, later, listed};
pub use packed::PackedLabels;
pub use policy::{Driven, Policy, Polled, ended_by, rests_with, spent_by, yields_by};
pub use yield_budget::{YieldBudget, rests};
