// The values whose blocks are here.
// Kept so: adding needs the room behind the blocks that are here, so the part and their count come side by side.
ghost use Rattle.std.specs.Prelude.{◌≡◌, ◌+◌, ◌*◌, ◌≤◌, true, length};
ghost use Rattle.values.specs.Digits.{number_of};
ghost use Rattle.protocol.specs.Member.{is_in};
ghost use Rattle.cells.specs.Cells.{Only};
ghost use Rattle.cells.specs.Blocks.{blocks_in, Added};

use super::cells::put_value;
use values::Value;

// Is the block of this value among the first `count`?
pub fn has_block(blocks: &[u64], count: u64, value: Value) -> bool
    requires within { 4 * count ≤ length blocks.now }
    ensures is { result ≡ is_in (number_of value.limbs) (blocks_in blocks.now count) }
{
    let (blocks, _) = blocks.as_chunks::<4>();
    blocks[..count as usize].contains(&value.limbs())
}

// Adds the block of this value, unless it is here; the number of blocks then. None, and nothing changes, if it is not
// here and there is no room for it.
pub fn add_block(blocks: &mut [u64], count: u64, value: Value) -> Option<u64>
    requires within { 4 * count ≤ length blocks.old }
    ensures is { Added (number_of value.limbs) count blocks.old blocks.new result }
    ensures only { Only (4 * count) (4 * count + 4) blocks.old blocks.new }
    ensures kept { is_in (number_of value.limbs) (blocks_in blocks.old count) ≡ true →
        blocks.new ≡ blocks.old }
{
    if has_block(blocks, count, value) {
        return Some(count);
    }
    let start = 4 * count as usize;
    if blocks.len() - start < 4 {
        return None;
    }
    put_value(blocks, start, value);
    Some(count + 1)
}
