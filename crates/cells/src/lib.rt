// Values, proposals and blocks in lent memory.
#![tactic(auto)]

mod blocks;
mod cells;
mod proposals;
mod valid;

pub use blocks::{add_block, has_block};
pub use cells::{clear, put_value, value_at};
pub use proposals::{keep, proposed_for};
pub use valid::ValidProposal;
