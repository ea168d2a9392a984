ghost use Rattle.laws_order.specs.Spawns.{RunsKeepSpawns, SpawnsStay};

/// No step from a state in order takes away the record of a work that main has spawned, also once it has ended. So main may
/// wait for it and ask that it end as long as the run goes on.
#[tactic(auto, using(crate::proofs::SpawnLemmas::spawns_stay))]
pub fn spawns_stay()
    ensures { SpawnsStay }
{}

/// Nor does a run.
#[tactic(auto, using(crate::proofs::SpawnLemmas::runs_keep_spawns))]
pub fn runs_keep_spawns()
    ensures { RunsKeepSpawns }
{}
