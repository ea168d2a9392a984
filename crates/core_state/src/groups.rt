//! The groups that have ended.
ghost use Rattle.core_state.specs.Lends.{StaysAs};
ghost use Rattle.std.specs.Borrow.{sem};
ghost use Rattle.machine_data.specs.Read.{is_nil};
ghost use Rattle.std.specs.Prelude.{◌≡◌, ◌<◌, false, not};
ghost use Rattle.core_primitives.specs.Groups.{CountsEnded, IsAsked, asked, ended_groups, tracked_group};
ghost use Rattle.core_primitives.specs.StateView.{thread_of};

use crate::task_core::TaskCore;
use core_primitives::ThreadId;

impl TaskCore {
    /// Returns the number of the group of a thread that is there, as long as that group is tracked: nothing is tested. 0 once its
    /// end was told.
    #[inline(always)]
    pub fn group_unchecked(&self, thread: ThreadId) -> u64
        requires { 0 < thread_of self.now thread }
        ensures { result ≡ tracked_group (thread_of self.now thread) self.now }
    {
        core_fields::group_unchecked(&self.parts, thread)
    }

    /// Returns whether a group has ended since the core was last asked which.
    #[inline(always)]
    pub fn has_ended(&self) -> bool
        ensures ended { result ≡ not (is_nil (ended_groups self.now)) }
        ensures none { result ≡ false → IsAsked self.now }
    {
        core_counts::has_ended(&self.parts)
    }

    /// Returns the groups that have ended since the core was last asked, in order of number: those that were live then, less those
    /// that are live now. The core is as before: `forget_ended` says that it was asked. It takes time that grows with the number of
    /// these groups, times its logarithm.
    pub fn ended(&mut self) -> &[u64]
        ensures numbers { result.now ≡ ended_groups self.old }
        ensures* same { sem 𝓛 (StaysAs self.entry self.old) }
    {
        core_counts::ended(&mut self.parts)
    }

    /// Says that each live group is tracked: those that have ended and the live ones are as many as are tracked.
    pub fn count_ended(&self)
        ensures { CountsEnded self.now }
    {
        core_counts::count_ended(&self.parts);
    }

    /// Forgets the groups that have ended: the core was asked for them, and tracks the live ones alone from now on.
    #[inline(always)]
    pub fn forget_ended(&mut self)
        ensures { self.new ≡ asked self.old }
    {
        core_counts::forget_ended(&mut self.parts);
    }
}
