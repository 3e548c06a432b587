// The promises about the definitions, proved: each stands on the contract of a function here. No code runs.
#![tactic(auto)]

ghost use Rattle.protocol.specs.Promises.{thin, all, QuorumsMeet, TurnedAway, AgreedStays, PeriodsGoOn};
ghost use Rattle.protocol.specs.Promises.{NeverStuck, SaysOneThing, SaidOnce, OneChosen, OneWayOn};
ghost use Rattle.protocol.specs.Promises.{HeardHasBundle, LockedAfter, OneCertified, AgreedHasBoth, OneAgreed};
ghost use Rattle.safety.specs.Said.{SaidIsOwn};
ghost use Rattle.safety.specs.Alone.{HeardOnce, HeardInRange, InItsPlace, OwnFresh, OneValueHeard};
ghost use Rattle.safety.specs.Alone.{Begins, AgreesAtOnce, CertainIsSaid, CertainAtOnce};

// Of fewer than a third faulty, two quorums have an honest member in common.
pub fn quorums_meet_stands()
    ensures stands { QuorumsMeet }
{}

// What is turned away changes nothing.
pub fn turned_away_stands()
    ensures stands { TurnedAway }
{}

// What was agreed stays.
pub fn agreed_stays_stands()
    ensures stands { AgreedStays }
{}

// Periods only go on.
pub fn periods_go_on_stands()
    ensures stands { PeriodsGoOn }
{}

// Nobody is stuck: a member that has not agreed and has steps left can always go on.
pub fn never_stuck_stands()
    ensures stands { NeverStuck }
{}

// An honest member says one thing where it says anything.
pub fn says_one_thing_stands()
    ensures thin { SaysOneThing thin }
    ensures all { SaysOneThing all }
{}

// No vote is said twice by an honest member.
pub fn said_once_stands()
    ensures thin { SaidOnce thin }
    ensures all { SaidOnce all }
{}

// What an honest member said is what it heard of itself.
pub fn said_is_own_stands()
    ensures thin { SaidIsOwn thin }
    ensures all { SaidIsOwn all }
{}

// Two honest members in one period have no two chosen values.
pub fn one_chosen_stands()
    ensures thin { OneChosen thin }
    ensures all { OneChosen all }
{}

// There is one way to go on from a step of a period.
pub fn one_way_on_stands()
    ensures thin { OneWayOn thin }
    ensures all { OneWayOn all }
{}

// What a member heard a quorum of can be shown to anybody.
pub fn heard_has_bundle_stands()
    ensures thin { HeardHasBundle thin }
    ensures all { HeardHasBundle all }
{}

// After a certificate, every later period begins with its value.
pub fn locked_after_stands()
    ensures thin { LockedAfter thin }
    ensures all { LockedAfter all }
{}

// No two certificates are for different values, in whatever periods.
pub fn one_certified_stands()
    ensures thin { OneCertified thin }
    ensures all { OneCertified all }
{}

// What is agreed has its block, and a certificate.
pub fn agreed_has_both_stands()
    ensures thin { AgreedHasBoth thin }
    ensures all { AgreedHasBoth all }
{}

// No two honest members agree on different values.
pub fn one_agreed_stands()
    ensures thin { OneAgreed thin }
    ensures all { OneAgreed all }
{}

// One member alone, after any events: it hears each slot of each member at most once, ...
pub fn heard_once_stands()
    ensures stands { HeardOnce }
{}

// ... all that it heard is in range, ...
pub fn heard_in_range_stands()
    ensures stands { HeardInRange }
{}

// ... it stands within the limits, ...
pub fn in_its_place_stands()
    ensures stands { InItsPlace }
{}

// ... its own slots from where it stands on are free, ...
pub fn own_fresh_stands()
    ensures stands { OwnFresh }
{}

// ... quorums of one kind, period and step that it heard are for one value, ...
pub fn one_value_heard_stands()
    ensures stands { OneValueHeard }
{}

// ... it is free, or began its period with one value, ...
pub fn begins_stands()
    ensures stands { Begins }
{}

// ... if it has not agreed, there is no certified value whose block is here, ...
pub fn agrees_at_once_stands()
    ensures stands { AgreesAtOnce }
{}

// ... it is certain just where it said so in this period, ...
pub fn certain_is_said_stands()
    ensures stands { CertainIsSaid }
{}

// ... and at step 1 it says so as soon as a value is chosen.
pub fn certain_at_once_stands()
    ensures stands { CertainAtOnce }
{}
