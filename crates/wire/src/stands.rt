// What is promised of the bytes of events and answers: these functions only carry the theorems.
ghost use Rattle.wire.specs.Statements.{EventsReadBack, EventsOneSpelling, EventsPlace};
ghost use Rattle.wire.specs.Statements.{AnswersReadBack, AnswersOneSpelling};

// Every event that is written is read back.
#[tactic(auto, using(crate::proofs::EventsBack::events_read_back))]
pub fn events_read_back_stands()
    ensures stands { EventsReadBack }
{}

// Bytes that read to an event are those that writing it gives.
#[tactic(auto, using(crate::proofs::EventsBack::events_one_spelling))]
pub fn events_one_spelling_stands()
    ensures stands { EventsOneSpelling }
{}

// The place of a refusal is the first at which no event can go on.
#[tactic(auto, using(crate::proofs::EventsPlace::events_place))]
pub fn events_place_stands()
    ensures stands { EventsPlace }
{}

// Every answer that is written is read back.
#[tactic(auto, using(crate::proofs::AnswersBack::answers_read_back))]
pub fn answers_read_back_stands()
    ensures stands { AnswersReadBack }
{}

// Bytes that read to an answer are those that writing it gives.
pub fn answers_one_spelling_stands()
    ensures stands { AnswersOneSpelling }
{}
