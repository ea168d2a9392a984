ghost use Rattle.std.specs.Prelude.{◌≡◌, ◌<◌, ◌^◌, IfOk, OnErr, OnOk, is_some, true};
ghost use Rattle.machine_data.specs.Maps.{get};
ghost use Rattle.machine_data.specs.Read.{new_handle};
ghost use Rattle.machine_data.specs.declared.records.Named.TheVariants as names;
ghost use Rattle.core_records.specs.Instances.{named_of};
ghost use Rattle.core_records.specs.Names.{IsHeldNamed, kinds};
ghost use Rattle.core_records.specs.Seen.{IsSoundCore, parts_of, seen};
ghost use Rattle.core_records.specs.Sound.{bare};
ghost use Rattle.machine_rules.specs.Calls.{with_handle};
ghost use Rattle.core_primitives.specs.Names.{subtask_in};
ghost use Rattle.core_primitives.specs.StateView.{on_core};

use crate::items::insert_handle;
use crate::{call_number, set_subtask_handle, work_number};
use core_primitives::SubtaskId;
use core_records::CoreParts;
use machine_data::NoMemory;
use task_handles::{HandleKind, HeldItem, Rep, WaitableKind};

// What a handle of the subtask keeps.
fn subtask_held(parts: &CoreParts, subtask: SubtaskId) -> HeldItem
    requires { IsSoundCore parts.now }
    ensures stands { IsHeldNamed (kinds (bare (parts_of parts.now))) result.kind result.rep }
    ensures named { named_of result ≡ names.Subtask (subtask_in (seen parts.now).tags subtask) }
{
    match subtask {
        SubtaskId::Guest(call) => {
            let rep = Rep {
                id: call.rep,
                serial: call_number(parts, call),
            };
            HeldItem {
                kind: HandleKind::Waitable(WaitableKind::GuestSubtask),
                rep,
            }
        }
        SubtaskId::Host(work) => {
            let rep = Rep {
                id: work.rep,
                serial: work_number(parts, work),
            };
            HeldItem {
                kind: HandleKind::Waitable(WaitableKind::HostSubtask),
                rep,
            }
        }
    }
}

/// Gives a subtask its handle in an instance. If it is out of memory, all is as before.
pub fn name_subtask(
    parts: &mut CoreParts,
    instance: u32,
    subtask: SubtaskId,
) -> Result<u32, NoMemory>
    requires sound { IsSoundCore parts.old }
    requires there { is_some (get (seen parts.old).core.handles instance) ≡ true }
    ensures sound { IsSoundCore parts.new }
    ensures handle { IfOk result (λ h. h ≡ new_handle instance (seen parts.old).core) }
    ensures small { IfOk result (λ h. h < 2 ^ 28) }
    ensures new { OnOk result (seen parts.new ≡ on_core (with_handle instance (subtask_in (seen parts.old).tags subtask)) (seen parts.old)) }
    ensures err { OnErr result (seen parts.new ≡ seen parts.old) }
{
    let item = subtask_held(parts, subtask);
    match insert_handle(parts, instance, item) {
        Ok(handle) => {
            set_subtask_handle(parts, subtask, Some(handle));
            Ok(handle)
        }
        Err(why) => Err(why),
    }
}
