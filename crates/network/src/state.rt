// The network: its limits, who is faulty, and the memory of all honest members, one after the other.
ghost use Rattle.std.specs.Prelude.{◌*◌, ◌<◌, ◌≤◌, vec_len};
ghost use Rattle.limits.specs.Limits.{limits_of};
ghost use Rattle.protocol.specs.Network.{how_many};
ghost use Rattle.protocol.specs.Promises.{all};
ghost use Rattle.network.specs.Members.{has};
ghost use Rattle.network.specs.Running.{Running};
ghost use Rattle.network.specs.Seats.{room_for};

use super::members::Members;
use limits::Limits;

#[derive(Drop)]
pub struct Network {
    pub(crate) limits: Limits,
    pub(crate) faulty: Members,
    pub(crate) memory: Vec<u64>,
    // fewer than a third are faulty
    ghost few: { 3 * how_many limits.members (has faulty.bits) < limits.members },
    ghost room: { room_for (limits_of all limits) (has faulty.bits) ≤ vec_len memory },
    // whatever was delivered, in whatever order, this is a state that the protocol can come to
    ghost runs: { ∥ Running (limits_of all limits) (has faulty.bits) memory.items ∥₁ },
}
