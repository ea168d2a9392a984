//! Scenarios: their text is read, run, and reported.
#![tactic(auto)]

mod asked;
mod copy;
mod lower;
mod main_script;
mod program;
mod report;
mod scenario;
mod script;

pub use asked::AskedSpawns;
pub use lower::{component_of, read_scenario, scenario_of};
pub use machine_data::{IdleLine, NoMemory, Operand, Seq, Version};
pub use program::{TOO_LONG, ToolEnd, USAGE, counted, tool};
pub use report::{Report, new_store, print_report, print_run, run_scenario, traps_on_idle};
pub use scenario::{InstanceNames, MainOp, Scenario};
pub use script::ScriptMain;
pub use task_store::ScriptedHost;
pub use text_bytes::{
    MemorySink, MemorySource, Read, Sink, Source, StdSink, StdSource, SureSink, SureSource, Wrote,
};
pub use text_reader::RunError;
pub use text_report::make_scenario;
