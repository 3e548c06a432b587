// What is promised of lines that were printed: these functions only carry the theorems.
ghost use Rattle.lines.specs.Reads.{EventsReadBack, EventsOneSpelling, AnswersByLines};

// Every event that is printed is read back.
pub fn events_read_back_stands()
    ensures stands { EventsReadBack }
{}

// A line that says an event is what printing it gives.
pub fn events_one_spelling_stands()
    ensures stands { EventsOneSpelling }
{}

// The lines of a printed answer are its parts: so the others read each vote that is said.
pub fn answers_by_lines_stands()
    ensures stands { AnswersByLines }
{}
