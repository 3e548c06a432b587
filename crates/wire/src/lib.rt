// Votes, proposals, events and answers, and their bytes.
#![tactic(auto)]

mod answers;
mod events;
mod number;
mod stands;
mod votes;

pub use answers::{Answer, Refusal, Said, read_answer, write_answer};
pub use events::{Event, read_event, write_event};
pub use number::UnknownNumber;
pub use stands::{
    answers_one_spelling_stands, answers_read_back_stands, events_one_spelling_stands,
    events_place_stands, events_read_back_stands,
};
pub use votes::{Kind, Proposal, Vote};
