// The range of each limit, and its name.
ghost use Rattle.std.specs.Prelude.{◌≡◌, true, false, MatchResult, Some};
ghost use Rattle.limits.specs.Limits.{most, name_of, within};

use super::bounds::Limit;
use std::fmt;

impl Limit {
    // The most that it may be; the least is 1.
    pub fn most(self) -> u64
        ensures is { result ≡ most self }
    {
        match self {
            Limit::Members => 64,
            Limit::Periods => 32,
            Limit::Steps => 8,
            Limit::Blocks => 256,
        }
    }

    // The limit itself, where the number is out of its range.
    pub(crate) fn check(self, number: u64) -> Result<(), Limit>
        ensures is { MatchResult result (λ _. within (most self) number ≡ true)
            (λ e. (within (most self) number ≡ false) × (e ≡ self)) }
    {
        if (1..=self.most()).contains(&number) {
            Ok(())
        } else {
            Err(self)
        }
    }
}

// Its name in the line that says the limits.
impl fmt::Display for Limit {
    ghost output = { λ x. Some (name_of x) };

    fn fmt<W: fmt::Write>(&self, f: &mut fmt::Formatter<W>) -> fmt::Result {
        f.write_str(match self {
            Limit::Members => "MEMBERS",
            Limit::Periods => "PERIODS",
            Limit::Steps => "STEPS",
            Limit::Blocks => "BLOCKS",
        })
    }
}
