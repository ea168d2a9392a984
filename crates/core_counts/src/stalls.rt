ghost use Rattle.std.specs.List.{list_any};
ghost use Rattle.std.specs.Prelude.{◌≡◌};
ghost use Rattle.machine_data.specs.Read.{may_not_suspend};
ghost use Rattle.core_records.specs.Seen.{IsSoundCore, seen};
ghost use Rattle.machine_rules.specs.Stalled.{some_may_not_suspend};
ghost use Rattle.task_table.specs.Entries.{entries};

use core_records::{CoreParts, GuestTask};

fn may_not_suspend(parts: &CoreParts, call: &GuestTask) -> bool
    ensures { result ≡ may_not_suspend call.now.call.callee.instance (seen parts.now).core }
{
    match core_records::instance(parts, call.call.callee.instance) {
        Some(entry) => entry.instance.do_not_suspend,
        None => false,
    }
}

fn some_entry_may_not(parts: &CoreParts) -> bool
    ensures { result ≡ list_any (λ e. may_not_suspend e.1.item.call.callee.instance (seen parts.now).core) (entries parts.now.calls) }
{
    parts
        .calls
        .iter()
        .any(|e| may_not_suspend(parts, &e.1.item))
}

/// Returns whether the instance of some call may not suspend. It looks at all calls.
pub fn some_may_not_suspend(parts: &CoreParts) -> bool
    requires { IsSoundCore parts.now }
    ensures { result ≡ some_may_not_suspend (seen parts.now).core }
{
    some_entry_may_not(parts)
}
