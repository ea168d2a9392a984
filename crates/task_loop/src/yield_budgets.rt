//! Laws of what drives and starts leave, each the contract of a function.
ghost use Rattle.task_loop.specs.Begun.{HookIsReason};
ghost use Rattle.task_loop.specs.HasRun.{At};
ghost use Rattle.task_loop.specs.YieldBudgets.{LastPollIsDrive, PollThenDrive};

use crate::main_task::MainTask;
use task_group::TaskGroupHook;
use task_store::HostWork;

/// Says that a drive leaves what its polls leave, one after another: the poll with which it ends leaves what a drive leaves; and so
/// do a poll after which it goes on, and then the drive from there.
pub fn drive_is_polls<T, H: HostWork, G: TaskGroupHook, M: MainTask<T, H, G>>()
    ensures last { (a : At M T H G) → LastPollIsDrive M.says H.course a }
    ensures more { (a : At M T H G) → PollThenDrive M.says H.course a }
{}

/// Says that if a group isn't made, and the hook answered an error, that is the reason: trap 22.
pub fn hook_is_reason()
    ensures { HookIsReason }
{}
