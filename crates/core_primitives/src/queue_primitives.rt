ghost use Rattle.std.specs.Prelude.{◌≡◌, ◌<◌, IfSome, is_none, option_map, true};
ghost use Rattle.machine_data.specs.Moves.{first_entry, unqueued};
ghost use Rattle.machine_data.specs.Read.{next_entry};
ghost use Rattle.machine_data.specs.Write.{push_high, push_high_first, push_low, set_switch};
ghost use Rattle.machine_data.specs.declared.records.Entry.TheVariants as entries;
ghost use Rattle.machine_rules.specs.Takes.{popped};
ghost use Rattle.core_primitives.specs.Apart.{IsUnqueued, work_entries};
ghost use Rattle.core_primitives.specs.Names.{entry_in};
ghost use Rattle.core_primitives.specs.StateView.{on_core, thread_of, work_of, thread_if_any};

use crate::names::{EntryId, ThreadId, WorkId};
use crate::view::View;
use machine_data::Mark;

/// The three marks.
pub trait QueuePrimitives: View {
    /// Returns the thread at switch.
    fn switch(&self) -> Option<ThreadId>
        ensures is { thread_if_any (Self.view self.now) result ≡ (Self.view self.now).core.queues.switch }
        ensures live { IfSome result (λ id. 0 < thread_of (Self.view self.now) id) };

    /// Returns the thread of the first entry of an instance, at high, else at low.
    fn first_entry(&self, instance: u32) -> Option<ThreadId>
        ensures is { thread_if_any (Self.view self.now) result ≡ first_entry instance (Self.view self.now).core }
        ensures live { IfSome result (λ id. 0 < thread_of (Self.view self.now) id) };

    /// Returns the entry that is taken next, with its mark.
    fn next_entry(&self) -> Option<(Mark, EntryId)>
        ensures { option_map (λ e. (e.0, entry_in (Self.view self.now).tags e.1)) result ≡ next_entry (Self.view self.now).core };

    /// Removes the first entry of the mark.
    fn pop(&mut self, mark: Mark)
        ensures { Self.view self.new ≡ on_core (popped mark) (Self.view self.old) };

    /// Removes the entry that is taken next from its mark, and returns it.
    fn take_next(&mut self) -> Option<(Mark, EntryId)>
        ensures next { option_map (λ e. (e.0, entry_in (Self.view self.old).tags e.1)) result ≡ next_entry (Self.view self.old).core }
        ensures taken { IfSome result (λ e. Self.view self.new ≡ on_core (popped e.0) (Self.view self.old)) }
        ensures none { is_none result ≡ true → Self.view self.new ≡ Self.view self.old };

    /// Gives this thread the entry at switch, or leaves switch empty.
    fn set_switch(&mut self, thread: Option<ThreadId>)
        requires { IfSome thread (λ id. 0 < thread_of (Self.view self.old) id) }
        ensures { Self.view self.new ≡ on_core (set_switch (thread_if_any (Self.view self.old) thread)) (Self.view self.old) };

    /// Puts the thread's entry at the end of high.
    fn push_high(&mut self, thread: ThreadId)
        requires live { 0 < thread_of (Self.view self.old) thread }
        requires unqueued { IsUnqueued (thread_of (Self.view self.old) thread) (Self.view self.old).core }
        ensures { Self.view self.new ≡ on_core (push_high (entries.Thread (thread_of (Self.view self.old) thread))) (Self.view self.old) };

    /// Puts the thread's entry at the front of high.
    fn push_high_first(&mut self, thread: ThreadId)
        requires live { 0 < thread_of (Self.view self.old) thread }
        requires unqueued { IsUnqueued (thread_of (Self.view self.old) thread) (Self.view self.old).core }
        ensures { Self.view self.new ≡ on_core (push_high_first (entries.Thread (thread_of (Self.view self.old) thread))) (Self.view self.old) };

    /// Puts the thread's entry at the end of low.
    fn push_low(&mut self, thread: ThreadId)
        requires live { 0 < thread_of (Self.view self.old) thread }
        requires unqueued { IsUnqueued (thread_of (Self.view self.old) thread) (Self.view self.old).core }
        ensures { Self.view self.new ≡ on_core (push_low (entries.Thread (thread_of (Self.view self.old) thread))) (Self.view self.old) };

    /// Queues the host entry of a work that has ended.
    fn push_host(&mut self, work: WorkId)
        requires live { 0 < work_of (Self.view self.old) work }
        requires unqueued { work_entries (work_of (Self.view self.old) work) (Self.view self.old).core.queues.high ≡ 0 }
        ensures { Self.view self.new ≡ on_core (push_high (entries.Host (work_of (Self.view self.old) work))) (Self.view self.old) };

    /// Removes the thread's entry from high, or else from low.
    fn unqueue(&mut self, thread: ThreadId)
        ensures { Self.view self.new ≡ on_core (unqueued (thread_of (Self.view self.old) thread)) (Self.view self.old) };
}
