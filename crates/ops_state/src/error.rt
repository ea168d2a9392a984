use machine_data::Trap;
use std::alloc::AllocError;

/// Why a call of a task was refused.
#[derive(Clone, Copy)]
pub enum TaskError {
    NoMemory,
    Trap(Trap),
    /// The host work of this number failed.
    HostFailed(u64),
}

impl From<AllocError> for TaskError {
    ghost use Rattle.std.specs.Prelude.{◌≡◌};
    ghost use Rattle.ops_state.specs.declared.error.TaskError.TheVariants.{NoMemory};

    ghost from_gives = { λ _ e. e ≡ NoMemory };

    fn from(_e: AllocError) -> TaskError {
        TaskError::NoMemory
    }
}
