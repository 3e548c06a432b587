// A member that runs in lent memory: opened with its limits, then called for each event.
#![tactic(auto)]

mod answers;
mod calls;
mod checks;
mod header;
mod looks;
mod opening;
mod promises;

pub use calls::{NotOpen, OpenError};
pub use looks::{look, said};
pub use moves::{Member, WithTime};
pub use opening::{call, open, take};
pub use promises::{enough_memory_stands, refusal_keeps_stands, right_stands};
