// A member by value with its memory in parts, and what it does with each event that it takes.
#![tactic(auto)]

mod agrees;
mod events;
mod moves;
mod parts;
mod state;
mod timeouts;

pub use parts::{is_heard, is_taken};
pub use state::{Member, WithTime};
