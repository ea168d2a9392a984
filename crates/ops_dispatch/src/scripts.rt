//! The scripts of a component.
ghost use Rattle.std.specs.Prelude.{◌≡◌, option_and_then, option_copied, slice_get};
ghost use Rattle.machine_rules.specs.Scripts.{export_at, export_kind, host_at, script_in, slot_at, slot_script};

use machine_data::{Callee, Component, ExportDef, ExportKind, HostDef, Op, Script, Slot};

/// Returns what runs under an export, none if the component has no such export.
pub fn export_def(component: &Component, callee: Callee) -> Option<&ExportDef>
    ensures { option_copied result ≡ export_at component.now callee }
{
    let instance = component
        .instances
        .as_slice()
        .get(callee.instance as usize)?;
    instance.exports.as_slice().get(callee.export as usize)
}

/// Returns an export's kind.
pub(crate) fn export_kind(component: &Component, callee: Callee) -> ExportKind
    ensures { result ≡ export_kind component.now callee }
{
    match export_def(component, callee) {
        Some(def) => def.kind,
        None => ExportKind::Callback,
    }
}

/// Returns a host; one that never ends, where the component has no such host.
pub(crate) fn host_def(component: &Component, host: u32) -> HostDef
    ensures { result ≡ host_at component.now host }
{
    match component.hosts.as_slice().get(host as usize) {
        Some(def) => *def,
        None => HostDef::Settled {
            polls: None,
            value: None,
        },
    }
}

/// Returns what is in a slot of an instance, none if the component has no such slot.
pub(crate) fn slot_line(component: &Component, instance: u32, slot: u8) -> Option<&Slot>
    ensures { option_copied result ≡ option_and_then (λ d. slice_get d.slots slot) (slice_get component.now.instances instance) }
{
    let def = component.instances.as_slice().get(instance as usize)?;
    def.slots.as_slice().get(slot as usize)
}

// The script of a slot; empty where there is none.
fn slot_ops(component: &Component, instance: u32, slot: u8) -> &[Op]
    ensures { result.now ≡ slot_script (slot_at component.now instance slot) }
{
    match slot_line(component, instance, slot) {
        Some(Slot::Script(ops)) => ops.as_slice(),
        _ => &[],
    }
}

/// Returns a script; empty where the component has none.
pub fn script_ops(component: &Component, callee: Callee, script: Script) -> &[Op]
    ensures { result.now ≡ script_in component.now callee script }
{
    if let Script::Slot { slot } = script {
        return slot_ops(component, callee.instance, slot);
    }
    let Some(def) = export_def(component, callee) else {
        return &[];
    };
    match script {
        Script::React => def.react.as_slice(),
        _ => def.start.as_slice(),
    }
}

/// Returns the op at a place of a script, none at its end.
pub fn op_at(script: &[Op], position: u32) -> Option<&Op>
    ensures { option_copied result ≡ slice_get script.now position }
{
    script.get(position as usize)
}
