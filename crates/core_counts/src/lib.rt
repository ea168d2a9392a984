//! Primitives that answer by the numbers that a core keeps: what is left of a call or a set, how
//! full a store is, and whether something moves.
#![tactic(auto)]

mod endings;
mod entries;
mod limit_counts;
mod member_counts;
mod result_counts;
mod settings;
mod stalls;
mod work_counts;

pub use endings::{count_ended, ended, forget_ended, has_ended};
pub use limit_counts::{
    at_handle_limit, count_work, current, fits, has_interesting, made, set_current, set_trapped,
    set_uninteresting, trapped,
};
pub use member_counts::{
    has_member, has_waiters, is_deletable, is_last_thread, set_number, threads,
};
pub use result_counts::{close_room, give_result, has_results, make_room, result, take_result};
pub use settings::{capacity, handle_limit, set_capacity, set_handle_limit, used};
pub use stalls::some_may_not_suspend;
pub use work_counts::{
    has_live_work, has_moving_work, is_moving, recounted, set_course, set_phase,
};
