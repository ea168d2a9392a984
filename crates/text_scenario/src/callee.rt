//! The places of named hosts and exports.
ghost use Rattle.std.specs.Prelude.{◌≡◌, position, slice_get};
ghost use Rattle.std.specs.Option.{option_map};
ghost use Rattle.std.specs.Str.{bytes_eq};
ghost use Rattle.text_scenario.specs.Spelling.{exports_in, exports_of};
ghost use Rattle.text_scenario.specs.Placement.{params_of};
ghost use Rattle.text_scenario.specs.State.{instance_place, export_place, callee_of, fitting_export, host_place, fitting_host, call_to, call_sync_to, call_of};

use crate::tree::{ExportText, HostText, InstanceText, PartText};
use machine_data::{CallOp, Callee, Operand, Seq};
use text_lines::{CalleeName, NamedCall};

fn instance_position(instances: &[InstanceText], name: &[u8]) -> Option<usize>
    ensures { result ≡ position (λ i. bytes_eq i.name name.now) instances.now }
{
    instances.iter().position(|i| i.name.as_slice() == name)
}

// The place of an export of this name among the exports.
fn export_position(parts: &[PartText], name: &[u8]) -> Option<usize>
    ensures { result ≡ position (λ e. bytes_eq e.name name.now) (exports_in parts.now) }
{
    let mut place = 0;
    for part in parts {
        if let PartText::Export(export) = part {
            if export.name.as_slice() == name {
                return Some(place);
            }
            place += 1;
        }
    }
    None
}

// The export at a place among the exports.
fn export_at(parts: &[PartText], place: usize) -> Option<&ExportText>
    ensures { option_map (λ e. e.now) result ≡ slice_get (exports_in parts.now) place }
{
    let mut left = place;
    for part in parts {
        if let PartText::Export(export) = part {
            if left == 0 {
                return Some(export);
            }
            left -= 1;
        }
    }
    None
}

fn instance_place(instances: &[InstanceText], name: &[u8]) -> Option<u32>
    ensures { result ≡ instance_place instances.now name.now }
{
    u32::try_from(instance_position(instances, name)?).ok()
}

fn export_place(parts: &[PartText], name: &[u8]) -> Option<u32>
    ensures { result ≡ export_place (exports_in parts.now) name.now }
{
    u32::try_from(export_position(parts, name)?).ok()
}

fn parts_of(instances: &[InstanceText], place: u32) -> &[PartText]
    ensures { exports_in result.now ≡ exports_of instances.now place }
{
    match instances.get(place as usize) {
        Some(instance) => instance.parts.as_slice(),
        None => &[],
    }
}

/// Finds the export of these names.
#[tactic(auto, unfolding(crate::specs::State::callee_of))]
pub fn callee_of(instances: &[InstanceText], instance: &[u8], export: &[u8]) -> Option<Callee>
    ensures { result ≡ callee_of instances.now instance.now export.now }
{
    let instance = instance_place(instances, instance)?;
    let export = export_place(parts_of(instances, instance), export)?;
    Some(Callee { instance, export })
}

/// Returns how many parameters an export has, where there is one.
pub fn params_of(instances: &[InstanceText], callee: Callee) -> Option<u32>
    ensures { result ≡ params_of instances.now callee }
{
    let parts = parts_of(instances, callee.instance);
    let export = export_at(parts, callee.export as usize)?;
    Some(export.params)
}

/// Finds the export of these names, if it takes so many operands.
#[tactic(auto, unfolding(crate::specs::State::fitting_export))]
pub fn fitting_export(
    instances: &[InstanceText],
    instance: &[u8],
    export: &[u8],
    operands: &[Operand],
) -> Option<Callee>
    ensures { result ≡ fitting_export instances.now instance.now export.now operands.now }
{
    let callee = callee_of(instances, instance, export)?;
    let params = params_of(instances, callee)?;
    if params as usize != operands.len() {
        return None;
    }
    Some(callee)
}

fn host_position(hosts: &[HostText], name: &[u8]) -> Option<usize>
    ensures { result ≡ position (λ h. bytes_eq h.name name.now) hosts.now }
{
    hosts.iter().position(|h| h.name.as_slice() == name)
}

/// Returns the host of this name.
pub fn host_place(hosts: &[HostText], name: &[u8]) -> Option<u32>
    ensures { result ≡ host_place hosts.now name.now }
{
    u32::try_from(host_position(hosts, name)?).ok()
}

// The host of this name, which takes no operands.
#[tactic(auto, unfolding(crate::specs::State::fitting_host))]
fn fitting_host(hosts: &[HostText], name: &[u8], operands: &[Operand]) -> Option<u32>
    ensures { result ≡ fitting_host hosts.now name.now operands.now }
{
    let host = host_place(hosts, name)?;
    operands.is_empty().then_some(host)
}

#[tactic(auto, unfolding(crate::specs::State::call_to))]
fn call_to(
    hosts: &[HostText],
    earlier: &[InstanceText],
    to: u8,
    result_to: u8,
    callee: CalleeName,
    params: Seq<Operand>,
) -> Option<CallOp>
    ensures { result ≡ call_to hosts.now earlier.now to result_to callee params }
{
    match callee {
        CalleeName::Export(instance, export) => {
            let (instance, export) = (instance.as_slice(), export.as_slice());
            let callee = fitting_export(earlier, instance, export, params.as_slice())?;
            Some(CallOp::Call {
                to,
                result: result_to,
                callee,
                params,
            })
        }
        CalleeName::Host(name) => {
            let host = fitting_host(hosts, name.as_slice(), params.as_slice())?;
            Some(CallOp::CallHost {
                to,
                result: result_to,
                host,
            })
        }
    }
}

#[tactic(auto, unfolding(crate::specs::State::call_sync_to))]
fn call_sync_to(
    hosts: &[HostText],
    earlier: &[InstanceText],
    to: u8,
    callee: CalleeName,
    params: Seq<Operand>,
) -> Option<CallOp>
    ensures { result ≡ call_sync_to hosts.now earlier.now to callee params }
{
    match callee {
        CalleeName::Export(instance, export) => {
            let (instance, export) = (instance.as_slice(), export.as_slice());
            let callee = fitting_export(earlier, instance, export, params.as_slice())?;
            Some(CallOp::CallSync { to, callee, params })
        }
        CalleeName::Host(name) => {
            let host = fitting_host(hosts, name.as_slice(), params.as_slice())?;
            Some(CallOp::CallSyncHost { to, host })
        }
    }
}

/// Returns the call whose callee has this name, of a host or of an export of an earlier instance.
#[tactic(auto, unfolding(crate::specs::State::call_of))]
pub fn call_of(hosts: &[HostText], earlier: &[InstanceText], call: NamedCall) -> Option<CallOp>
    ensures { result ≡ call_of hosts.now earlier.now call }
{
    match call {
        NamedCall::Call(to, result_to, callee, params) => {
            call_to(hosts, earlier, to, result_to, callee, params)
        }
        NamedCall::CallSync(to, callee, params) => {
            call_sync_to(hosts, earlier, to, callee, params)
        }
    }
}
