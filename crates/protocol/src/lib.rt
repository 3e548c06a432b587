// What a member is and does, what can happen to all members together, and what is promised: definitions in specs/.
// The functions here only carry theorems about them.
#![tactic(auto)]

ghost use Rattle.protocol.specs.Worked.{TwoWays, AllAgree, SpokenOf, four, third_faulty};

// The worked table of four members is what the definitions compute, and can happen, in a network of which the promises
// speak.
pub fn two_ways_stands()
    ensures stands { TwoWays }
    ensures spoken { SpokenOf four third_faulty }
{}

// So is the run in which all honest members agree.
pub fn all_agree_stands()
    ensures stands { AllAgree }
    ensures spoken { SpokenOf four third_faulty }
{}
