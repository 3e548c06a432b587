// A network begins: each honest member is opened in its part of the memory.
ghost use Rattle.std.specs.Prelude.{◌≤◌, length, vec_len};
ghost use Rattle.limits.specs.Limits.{limits_of};
ghost use Rattle.protocol.specs.Promises.{all};
ghost use Rattle.network.specs.Begins.{AllNew, ByBegin};
ghost use Rattle.network.specs.Members.{has};
ghost use Rattle.network.specs.Seats.{room_for};

use super::errors::BeginError;
use super::members::Members;
use super::parts::open_in;
use super::state::Network;
use limits::Limits;

// Opens each honest member, one after the other.
fn open_all(memory: &mut [u64], limits: Limits, faulty: Members)
    requires room { room_for (limits_of all limits) (has faulty.bits) ≤ length memory.old }
    ensures is { AllNew (limits_of all limits) (has faulty.bits) memory.new }
{
    let size = limits.memory() as usize;
    let honest = (0..limits.members).filter(|member| !faulty.has(*member));
    for (seat, member) in honest.enumerate() {
        let start = seat * size;
        open_in(memory, start..start + size, limits, member);
    }
}

impl Network {
    // A network of new members in the memory lent; or why not: a third or more are faulty, or the memory is too short
    // for all honest members together. If it is refused, the memory is dropped.
    pub fn new(mut memory: Vec<u64>, limits: Limits, faulty: Members) -> Result<Network, BeginError>
        ensures is { ByBegin (vec_len memory) limits faulty result }
    {
        let honest = faulty.others_below(limits.members);
        if 3 * (limits.members - honest) >= limits.members {
            return Err(BeginError::TooManyFaulty);
        }
        let needed = honest * limits.memory();
        if (memory.len() as u64) < needed {
            return Err(BeginError::TooShort(needed));
        }
        open_all(memory.as_mut_slice(), limits, faulty);
        Ok(Network {
            limits,
            faulty,
            memory,
        })
    }
}
