// What the lines of a play say, and how a play is printed.
#![tactic(auto)]

mod reads;
mod shown;
mod stands;

pub use reads::{FaultyError, first_line, read_delivery, read_faulty};
pub use shown::{MemberLine, PlayedLine};
pub use stands::{
    deliveries_one_spelling_stands, deliveries_read_back_stands, played_has_delivery_stands,
};
