// A value below 2^256 as four numbers, and numbers and values to and from bytes.
#![tactic(auto)]

mod bytes;
mod value;

pub use bytes::{read_number, read_value, write_number, write_value};
pub use value::Value;
