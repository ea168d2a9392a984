//! Where a line may be: the limits, and the names that rest on earlier lines.
ghost use Rattle.std.specs.Prelude.{◌≡◌, ◌+◌, ◌-◌, ◌&&◌};
ghost use Rattle.std.specs.List.{list_any};
ghost use Rattle.std.specs.Str.{bytes_eq};
ghost use Rattle.machine_data.specs.Read.{is_callback};
ghost use Rattle.text_scenario.specs.Placement.{host_opens, has_room_for_op, is_callback_end, op_suits, is_export, is_export_named, exports_among, export_count, export_opens, fills, slot_opens, instance_opens};

use crate::tree::{HostText, InstanceText, PartText};
use machine_data::{ExportKind, Op, TaskOp};

// The most ops of a script.
const OPS: usize = 4_096;

// The most hosts, the most instances, and the most exports of a text in all.
const HOSTS: usize = 256;

const INSTANCES: usize = 64;

const EXPORTS: usize = 256;

fn has_host(before: &[HostText], name: &[u8]) -> bool
    ensures { result ≡ list_any (λ h. bytes_eq h.name name.now) before.now }
{
    before.iter().any(|h| h.name.as_slice() == name)
}

/// Returns whether a host of this name may be after those before it.
pub fn host_opens(before: &[HostText], name: &[u8]) -> bool
    ensures { result ≡ host_opens before.now name.now }
{
    before.len() < HOSTS && !has_host(before, name)
}

fn has_room_for_op(before: &[Op]) -> bool
    ensures { result ≡ has_room_for_op before.now }
{
    before.len() < OPS
}

fn is_callback_end(op: TaskOp) -> bool
    ensures { result ≡ is_callback_end op }
{
    matches!(
        op,
        TaskOp::CbYield | TaskOp::CbWait { .. } | TaskOp::Code { .. }
    )
}

fn op_suits(callback: bool, op: &Op) -> bool
    ensures { result ≡ op_suits callback op.now }
{
    match op {
        Op::Task(op) => callback || !is_callback_end(*op),
        _ => true,
    }
}

/// Returns whether an op may follow these in a script, of a callback or not.
pub fn op_opens(callback: bool, before: &[Op], op: &Op) -> bool
    ensures { result ≡ (has_room_for_op before.now && op_suits callback op.now) }
{
    has_room_for_op(before) && op_suits(callback, op)
}

/// Returns whether an export of this kind has a react script.
pub fn is_callback(kind: ExportKind) -> bool
    ensures { result ≡ is_callback kind }
{
    matches!(kind, ExportKind::Callback)
}

fn has_instance(before: &[InstanceText], name: &[u8]) -> bool
    ensures { result ≡ list_any (λ i. bytes_eq i.name name.now) before.now }
{
    before.iter().any(|i| i.name.as_slice() == name)
}

/// Returns whether an instance of this name may begin after those before it.
pub fn instance_opens(before: &[InstanceText], name: &[u8]) -> bool
    ensures { result ≡ instance_opens before.now name.now }
{
    before.len() < INSTANCES && !has_instance(before, name)
}

fn is_export(part: &PartText) -> bool
    ensures { result ≡ is_export part.now }
{
    matches!(part, PartText::Export(_))
}

#[tactic(auto, using(std::proofs::lemmas::List::Sums::count_by_more_yes, std::proofs::lemmas::List::Sums::count_by_more_no))]
fn export_total(parts: &[PartText]) -> usize
    ensures { result ≡ exports_among parts.now }
{
    let mut total = 0;
    for part in parts {
        if is_export(part) {
            total += 1;
        }
    }
    total
}

// How many exports there may still be, beside those of these instances and so many more.
fn room_for_exports(instances: &[InstanceText], more: usize) -> usize
    ensures { result ≡ 256 - (export_count instances.now + more) }
{
    let mut room = EXPORTS.saturating_sub(more);
    for i in instances {
        room = room.saturating_sub(export_total(i.parts.as_slice()));
    }
    room
}

fn is_export_named(part: &PartText, name: &[u8]) -> bool
    ensures { result ≡ is_export_named name.now part.now }
{
    match part {
        PartText::Export(export) => export.name.as_slice() == name,
        _ => false,
    }
}

fn has_export(before: &[PartText], name: &[u8]) -> bool
    ensures { result ≡ list_any (is_export_named name.now) before.now }
{
    before.iter().any(|p| is_export_named(p, name))
}

/// Returns whether an export of this name may begin after those of earlier instances and these parts of its own.
#[tactic(auto, unfolding(crate::specs::Placement::export_opens))]
pub fn export_opens(earlier: &[InstanceText], before: &[PartText], name: &[u8]) -> bool
    ensures { result ≡ export_opens earlier.now before.now name.now }
{
    room_for_exports(earlier, export_total(before)) > 0 && !has_export(before, name)
}

fn fills(part: &PartText, slot: u8) -> bool
    ensures { result ≡ fills slot part.now }
{
    match part {
        PartText::Export(_) => false,
        PartText::Thread(s, _) => *s == slot,
        PartText::Bad(s) => *s == slot,
    }
}

fn is_filled(before: &[PartText], slot: u8) -> bool
    ensures { result ≡ list_any (fills slot) before.now }
{
    before.iter().any(|p| fills(p, slot))
}

/// Returns whether a slot may be given after these parts of its instance.
pub fn slot_opens(before: &[PartText], slot: u8) -> bool
    ensures { result ≡ slot_opens before.now slot }
{
    !is_filled(before, slot)
}
