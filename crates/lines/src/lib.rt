// Events and answers as lines of text.
#![tactic(auto)]

mod answers;
mod events;
mod fields;
mod shown;
mod stands;

pub use answers::{AnswerLine, AnswerLines};
pub use decimals::Decimal;
pub use events::read_line;
pub use shown::EventText;
pub use stands::{answers_by_lines_stands, events_one_spelling_stands, events_read_back_stands};
