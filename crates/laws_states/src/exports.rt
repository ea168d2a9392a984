ghost use Rattle.laws_states.specs.Exports.{HandleTablesStay, InstancesStay, StepsKeepExports};

/// Each call is of an export that the component has: each step keeps that, where the component
/// has each export that main's script starts or that a script calls.
#[tactic(auto, using(crate::proofs::Exported::steps_keep_exports))]
pub fn calls_name_exports()
    ensures { StepsKeepExports }
{}

/// No step makes an instance, or takes one away.
#[tactic(auto, using(crate::proofs::Exported::instances_stay))]
pub fn instances_stay()
    ensures { InstancesStay }
{}

/// Nor an instance's table of handles.
#[tactic(auto, using(crate::proofs::Exported::handle_tables_stay))]
pub fn handle_tables_stay()
    ensures { HandleTablesStay }
{}
