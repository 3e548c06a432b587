// What honest members agreed on, and where each stands.
ghost use Rattle.std.specs.Prelude.{MatchOption};
ghost use Rattle.values.specs.Values.{value_of};
ghost use Rattle.wire.specs.Meaning.{agreed_of};
ghost use Rattle.network.specs.Calls.{LooksAt, AllAgreed, AgreementStands, AgreedBy, NotAgreed};
ghost use Rattle.network.specs.Calls.{limits_in, faulty_in, memory_in};

use super::state::Network;
use member::Member;
use values::Value;

impl Network {
    // Where an honest member stands; none if this is no honest member.
    pub fn look(&self, member: u64) -> Option<Member>
        ensures is { LooksAt self.now member result }
    {
        if member >= self.limits.members || self.faulty.has(member) {
            return None;
        }
        member::look(self.part(member))
    }

    // What a member agreed on; none if it has not yet, or is no honest member.
    fn agreed_by(&self, member: u64) -> Option<Value>
        ensures is { MatchOption result
            (NotAgreed (limits_in self.now) (faulty_in self.now) (memory_in self.now) member)
            (λ x. AgreedBy (limits_in self.now) (faulty_in self.now) (memory_in self.now) member (value_of x)) }
    {
        self.look(member)?.agreed
    }

    // What honest members agreed on: none yet, or the one value. There are never two, of members or of certificates.
    pub fn agreed(&self) -> Option<Value>
        ensures is { AllAgreed self.now (agreed_of result) }
        ensures stands { AgreementStands self.now }
    {
        (0..self.limits.members).find_map(|member| self.agreed_by(member))
    }
}
