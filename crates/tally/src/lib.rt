// Votes, proposals and blocks in lent memory: heard once, counted.
#![tactic(auto)]

mod blocks;
mod decided;
mod ranges;
mod rows;
mod sizes;
mod slots;
mod valid;
mod votes;

pub use blocks::add_block;
pub use cells::{clear, has_block, keep, proposed_for, put_value, value_at};
pub use decided::HeardVotes;
pub use sizes::{blocks_size, proposals_size, votes_size};
pub use valid::ValidVote;
