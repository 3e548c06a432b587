// Values in decimal, read and shown.
#![tactic(auto)]

mod reading;
mod shown;
mod tens;

pub use shown::Decimal;
