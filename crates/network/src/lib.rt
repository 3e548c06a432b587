// Many members together as a running thing: whatever is delivered, no two honest ones agree on different values.
#![tactic(auto)]

mod agreed;
mod begin;
mod deliver;
mod errors;
mod members;
mod parts;
mod seats;
mod state;

pub use errors::{BeginError, DeliverError};
pub use members::Members;
pub use state::Network;
