ghost use Rattle.std.specs.Prelude.{◌≡◌, ◌∷◌, [], Some, false, is_some, true};
ghost use Rattle.store_notices.specs.Moves.{AnswersAsHook, TellsAsFar, finishes, moved, one, switched};
ghost use Rattle.task_group.specs.Listeners.{ToldListeners, ToldWithHookOk};
ghost use Rattle.machine_rules.specs.Notices.{around, told_of};

use machine_data::NoticeKind;
use task_group::{HookError, Listeners, TaskGroupHook, TaskGroupId};

/// The groups of a turn before its step: the group of the thread that runs, 0 if none does or its group is finished, and that of
/// the work which the turn works on, as long as it isn't.
#[derive(Clone, Copy)]
pub struct GroupsBefore {
    pub running: u64,
    pub worked: Option<u64>,
}

// One notice of a group; none of 0.
#[inline(always)]
fn tell_one<H: TaskGroupHook>(
    listeners: &mut Listeners<H>,
    kind: NoticeKind,
    group: u64,
) -> Result<(), HookError>
    ensures told { ToldListeners (one kind group) listeners.old listeners.new }
    ensures hook { AnswersAsHook result listeners.old listeners.new }
{
    if group == 0 {
        return Ok(());
    }
    listeners.tell(kind, TaskGroupId { number: group })
}

// A thread of the new group runs, or of none.
#[inline(always)]
fn switch<H: TaskGroupHook>(
    listeners: &mut Listeners<H>,
    old: u64,
    new: u64,
) -> Result<(), HookError>
    ensures { TellsAsFar (switched old new) result listeners.old listeners.new }
{
    if old == new {
        return Ok(());
    }
    tell_one(listeners, NoticeKind::Exit, old)?;
    tell_one(listeners, NoticeKind::Enter, new)
}

// A work of the group was worked on, and left again.
fn visit<H: TaskGroupHook>(
    listeners: &mut Listeners<H>,
    worked: Option<u64>,
) -> Result<(), HookError>
    ensures { TellsAsFar (around worked) result listeners.old listeners.new }
{
    match worked {
        None => Ok(()),
        Some(group) => {
            listeners.tell(NoticeKind::Enter, TaskGroupId { number: group })?;
            listeners.tell(NoticeKind::Exit, TaskGroupId { number: group })
        }
    }
}

/// Tells the exits and enters of a step, before which these were the groups, and after which a thread of the group `running` runs,
/// or none if that is 0. An error is the hook's: after it the rest isn't told.
pub fn tell_moves<H: TaskGroupHook>(
    listeners: &mut Listeners<H>,
    groups_before: &GroupsBefore,
    running: u64,
) -> Result<(), HookError>
    ensures { TellsAsFar (moved groups_before.now running) result listeners.old listeners.new }
{
    switch(listeners, groups_before.running, running)?;
    visit(listeners, groups_before.worked)
}

/// Tells that these groups finish, in their order. An error is the hook's: the rest is told all the same.
pub fn tell_finishes<H: TaskGroupHook>(
    listeners: &mut Listeners<H>,
    ended: &[u64],
) -> Result<(), HookError>
    ensures told { ToldListeners (finishes ended.now) listeners.old listeners.new }
    ensures hook { AnswersAsHook result listeners.old listeners.new }
{
    let mut hook_is_ok = true;
    for number in ended {
        let id = TaskGroupId { number: *number };
        if listeners.tell(NoticeKind::Finish, id).is_err() {
            hook_is_ok = false;
        }
    }
    if hook_is_ok { Ok(()) } else { Err(HookError) }
}

// Another group runs, or none: told at once, where that takes one notice at most, which is kept in four bytes, and there is no
// hook. Answers whether it was told; else nothing is.
#[inline(always)]
fn switch_at_once<H: TaskGroupHook>(listeners: &mut Listeners<H>, old: u64, new: u64) -> bool
    ensures told { result ≡ true → ToldWithHookOk (switched old new) listeners.old listeners.new }
    ensures none { result ≡ false → listeners.new ≡ listeners.old }
{
    if old == new {
        return true;
    }
    if new == 0 {
        return listeners.tell_word(NoticeKind::Exit, TaskGroupId { number: old });
    }
    if old == 0 {
        return listeners.tell_word(NoticeKind::Enter, TaskGroupId { number: new });
    }
    false
}

// The exit from a group that was entered at once. Most are told so, too.
#[inline(always)]
fn leave<H: TaskGroupHook>(listeners: &mut Listeners<H>, id: TaskGroupId)
    requires { is_some listeners.old.hook ≡ false }
    ensures { ToldWithHookOk (told_of NoticeKind.Exit id.number ∷ []) listeners.old listeners.new }
{
    if listeners.tell_word(NoticeKind::Exit, id) {
        return;
    }
    let _ = listeners.tell(NoticeKind::Exit, id);
}

// A work of the group was worked on, and left again, where no thread ran before it, nor does after it: told at once, in the same way.
#[inline(always)]
fn visit_at_once<H: TaskGroupHook>(listeners: &mut Listeners<H>, group: u64) -> bool
    requires { is_some listeners.old.hook ≡ false }
    ensures told { result ≡ true → ToldWithHookOk (around (Some group)) listeners.old listeners.new }
    ensures none { result ≡ false → listeners.new ≡ listeners.old }
{
    let id = TaskGroupId { number: group };
    if listeners.tell_word(NoticeKind::Enter, id) {
        leave(listeners, id);
        return true;
    }
    false
}

/// Does what `tell_moves` does if that can be told at once, as most can: one notice of a switch or the visit of one group's work,
/// where there is no hook. Answers whether it was told; if not, nothing was.
#[inline(always)]
pub fn tell_at_once<H: TaskGroupHook>(
    listeners: &mut Listeners<H>,
    groups_before: &GroupsBefore,
    running: u64,
) -> bool
    requires unhooked { is_some listeners.old.hook ≡ false }
    ensures told { result ≡ true → ToldWithHookOk (moved groups_before.now running) listeners.old listeners.new }
    ensures none { result ≡ false → listeners.new ≡ listeners.old }
    ensures hook { is_some listeners.new.hook ≡ is_some listeners.old.hook }
{
    match groups_before.worked {
        None => switch_at_once(listeners, groups_before.running, running),
        Some(group) => {
            if groups_before.running != 0 || running != 0 {
                return false;
            }
            visit_at_once(listeners, group)
        }
    }
}
