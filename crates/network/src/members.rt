// Sets of members, as the bits of one number.
ghost use Rattle.std.specs.Prelude.{◌≡◌, ℕ, ◌^◌, ◌<◌, ◌≤◌, false, ◌||◌, ◌==◌};
ghost use Rattle.network.specs.Members.{has};
ghost use Rattle.network.specs.Seats.{seat};

#[derive(Clone, Copy)]
pub struct Members {
    bits: u64,
    ghost word: { bits < 2 ^ 64 },
}

impl Members {
    pub fn none() -> Members
        ensures is { (i : ℕ) → has result.bits i ≡ false }
    {
        Members { bits: 0 }
    }

    // These members and this one; numbers of 64 and more are nobody's.
    pub fn with(self, member: u64) -> Members
        ensures is { member < 64 → (i : ℕ) → has result.bits i ≡ (i == member) || has self.bits i }
        ensures same { 64 ≤ member → result.bits ≡ self.bits }
    {
        if member >= 64 {
            return self;
        }
        Members {
            bits: self.bits | (1 << member),
        }
    }

    pub fn has(self, member: u64) -> bool
        ensures is { result ≡ has self.bits member }
    {
        member < 64 && (self.bits >> member) & 1 == 1
    }

    // How many below a number are not among them.
    pub(crate) fn others_below(self, end: u64) -> u64
        ensures is { result ≡ seat (has self.bits) end }
        ensures few { result ≤ end }
    {
        (0..end).map(|member| u64::from(!self.has(member))).sum()
    }
}
