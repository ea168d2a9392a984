//! Among what a step chooses: where it chooses is found in the state before the step, and what is offered there is listed. Whether a choice
//! fits that, and what it wants of the core.
#![tactic(auto)]

mod cancel_spots;
mod choice;
mod fitting;
mod held;
mod offered;
mod op_spots;
mod spots;
mod take_spots;

pub use choice::{Choice, Offer};
pub use fitting::fits;
pub use held::{HeldOrder, NamedThread};
pub use offered::{NamedMember, Offered};
pub use op_spots::op_spot;
pub use spots::{Opening, Spot, Woken, no_spot};
pub use take_spots::take_spot;
