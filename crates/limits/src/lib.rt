// The limits with which a network is opened, the quorum, and the memory that a member asks for.
#![tactic(auto)]

mod bounds;
mod ranges;
mod sizes;

pub use bounds::{Limit, Limits};
