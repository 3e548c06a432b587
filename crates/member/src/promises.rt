// What is promised of a member that runs: these functions only carry the theorems.
ghost use Rattle.protocol.specs.Promises.{thin, all};
ghost use Rattle.member.specs.Runs.{RightStands, RefusalKeepsStands, EnoughMemoryStands};

// After any events, each answer is what the definitions say.
pub fn right_stands()
    ensures thin { RightStands thin }
    ensures all { RightStands all }
{}

// What is refused leaves memory exactly as it was.
pub fn refusal_keeps_stands()
    ensures thin { RefusalKeepsStands thin }
    ensures all { RefusalKeepsStands all }
{}

// The memory that the limits ask for is enough for any events.
pub fn enough_memory_stands()
    ensures thin { EnoughMemoryStands thin }
    ensures all { EnoughMemoryStands all }
{}
