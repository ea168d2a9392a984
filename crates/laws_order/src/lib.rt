//! Laws of what a host does between the steps of a run: order is kept and no wake is lost by each of its moves, what calls and
//! works tell is told once, turns take entries first in, first out, and what a step leaves of a host's work and of its phase.
//! Each function here is the statement of a law.
#![tactic(auto)]

mod answer_laws;
mod borrows;
mod call_laws;
mod end_laws;
mod event_laws;
mod given;
mod kept_laws;
mod laws_of_cells;
mod laws_of_spawns;
mod moves;
mod pieces;
mod rests;
mod takes;
mod walked;
mod work_laws;

pub use answer_laws::answers_lose_none;
pub use borrows::borrows_keep_order;
pub use call_laws::{enters_keep, prepares_keep, starts_keep};
pub use end_laws::exits_keep;
pub use event_laws::{
    events_are_reached, runs_tell_higher, starts_wait_unstarted, steps_tell_higher,
};
pub use given::{
    given_ops_keep_order, host_calls_keep_order, host_ops_keep_order, steps_have_own_ops,
};
pub use kept_laws::{entries_keep_order, events_keep_order, turns_keep_order};
pub use laws_of_cells::{
    cells_stay, cells_stay_inside, cells_stay_walked, works_stay_running, works_stay_taken,
    works_stay_walked,
};
pub use laws_of_spawns::{runs_keep_spawns, spawns_stay};
pub use moves::{events_keep, order_loses_no_wake, threads_keep, waits_find_nothing};
pub use pieces::first_keeps;
pub use rests::rests_lower_polls;
pub use takes::{runs_move_entries, runs_take_in_turn, steps_move_entries};
pub use walked::walked_in_order;
pub use work_laws::{
    no_work_end_is_covered, work_ends_are_handed_as_told, work_ends_are_said,
    work_ends_are_told_as_recorded, written_work_ends_are_new,
};
