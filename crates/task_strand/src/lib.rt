//! Strands: the frames of a call that has stopped in the middle, owned by value, in place of a native stack.
#![tactic(auto)]

mod frame;
mod strand;

pub use frame::{Frame, Half, StoreFiberYield};
pub use machine_data::NoMemory;
pub use strand::{MAX_FRAMES, Strand};
