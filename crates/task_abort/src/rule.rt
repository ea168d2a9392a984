//! The rule over the word and the passes, and what each step tells its caller.
ghost use Rattle.task_abort.specs.PhaseLog.{first_view, split_left, split_right, joined, spent_view};
ghost use Rattle.task_abort.specs.Rule.{KeptPass, Called, Settled};
ghost use Rattle.task_abort.specs.declared.log.PhaseCall.TheVariants.{Abort, PollFuture, PollHandle, Finish};

use crate::log::PassView;
use atomic_table::{Join, Play, Split, TableRule};

/// There is one log, of which the word has the phase and each pass has seen a beginning.
pub struct OneLog;

impl TableRule<u8, PassView, ()> for OneLog {
    ghost holds = { λ _ s. KeptPass s.words s.views };

    ghost first = { λ _. first_view };
}

/// The step of an abort.
pub struct Aborting;

impl Play<u8, PassView> for Aborting {
    ghost then = { λ _ m r n. Called Abort m r n };
}

/// The step of a poll of the future.
pub struct PollingFuture;

impl Play<u8, PassView> for PollingFuture {
    ghost then = { λ _ m r n. Called PollFuture m r n };
}

/// The step of a poll of the handle.
pub struct PollingHandle;

impl Play<u8, PassView> for PollingHandle {
    ghost then = { λ _ m r n. Called PollHandle m r n };
}

/// The step of a finish.
pub struct Finishing;

impl Play<u8, PassView> for Finishing {
    ghost then = { λ _ m r n. Called Finish m r n };
}

/// The step of a split.
pub struct Splitting;

impl Split<PassView> for Splitting {
    ghost left = { split_left };

    ghost right = { split_right };
}

/// The first step of a meet.
pub struct Joining;

impl Join<PassView> for Joining {
    ghost both = { joined };

    ghost spent = { spent_view };
}

/// The second step of a meet.
pub struct Settling;

impl Play<u8, PassView> for Settling {
    ghost then = { λ _ m r n. Settled m n };
}
