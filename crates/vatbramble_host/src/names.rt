//! The places of named exports.
ghost use Rattle.std.specs.Prelude.{◌≡◌, position};
ghost use Rattle.std.specs.Str.{bytes_eq};
ghost use Rattle.vatbramble_host.specs.Named.{exports_named, func_named, instance_place, name_place};

use machine_data::Seq;
use task_loop::{Func, Instance};
use task_run::InstanceNames;

fn instance_position(names: &[InstanceNames], name: &[u8]) -> Option<usize>
    ensures { result ≡ position (λ n. bytes_eq n.instance name.now) names.now }
{
    names.iter().position(|n| n.instance.as_slice() == name)
}

fn instance_place(names: &[InstanceNames], name: &[u8]) -> Option<u32>
    ensures { result ≡ instance_place names.now name.now }
{
    u32::try_from(instance_position(names, name)?).ok()
}

fn name_position(names: &[Seq<u8>], name: &[u8]) -> Option<usize>
    ensures { result ≡ position (λ n. bytes_eq n name.now) names.now }
{
    names.iter().position(|n| n.as_slice() == name)
}

/// Finds the place of the first of the names that is this.
pub(crate) fn name_place(names: &[Seq<u8>], name: &[u8]) -> Option<u32>
    ensures { result ≡ name_place names.now name.now }
{
    u32::try_from(name_position(names, name)?).ok()
}

fn exports_named(names: &[InstanceNames], place: u32) -> &[Seq<u8>]
    ensures { result.now ≡ exports_named names.now place }
{
    match names.get(place as usize) {
        Some(instance) => instance.exports.as_slice(),
        None => &[],
    }
}

/// Finds the export of these names.
#[tactic(auto, unfolding(crate::specs::Named::func_named))]
pub(crate) fn func_named(names: &[InstanceNames], instance: &[u8], export: &[u8]) -> Option<Func>
    ensures { result ≡ func_named names.now instance.now export.now }
{
    let index = instance_place(names, instance)?;
    let export = name_place(exports_named(names, index), export)?;
    Some(Func {
        instance: Instance { index },
        export,
    })
}
