ghost use Rattle.std.specs.Prelude.{◌≡◌, None};

use core_primitives::WorkId;
use machine_data::HostDef;
use ops_guests::OpResult;

/// What an op of the running thread resulted in.
#[derive(Clone, Copy)]
pub struct Done {
    pub op_result: OpResult,
    /// The host that was polled first in it.
    pub polled: Option<HostDef>,
    /// The work that was made.
    pub work: Option<WorkId>,
}

/// Returns an op that polled no host.
pub(crate) fn plain(op_result: OpResult) -> Done
    ensures { result ≡ record { op_result = op_result; polled = None; work = None } }
{
    Done {
        op_result,
        polled: None,
        work: None,
    }
}
