// Lines of text: words, numbers, and the line that says which limits a network has.
#![tactic(auto)]

mod network;
mod numbers;
mod words;

pub use network::{NetworkError, read_network};
pub use numbers::{FromDigits, number};
pub use words::{cut, is_word};
