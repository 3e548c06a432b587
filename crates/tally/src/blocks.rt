// Adding a block for which there is room.
// Kept so: `cells::add_block` may give none; this one cannot fail, for a caller that knows that there is room.
// Kept so: adding needs the room behind the blocks that are here, so the part and their count come side by side.
ghost use Rattle.std.specs.Prelude.{◌≡◌, ◌+◌, ◌*◌, ◌≤◌, false, length};
ghost use Rattle.values.specs.Digits.{number_of};
ghost use Rattle.protocol.specs.Member.{is_in, add_block};
ghost use Rattle.cells.specs.Cells.{Only};
ghost use Rattle.cells.specs.Blocks.{blocks_in};

use values::Value;

// Adds the block of this value, unless it is here; the number of blocks then.
pub fn add_block(blocks: &mut [u64], count: u64, value: Value) -> u64
    requires within { 4 * count ≤ length blocks.old }
    requires room { is_in (number_of value.limbs) (blocks_in blocks.old count) ≡ false →
        4 * count + 4 ≤ length blocks.old }
    ensures is { blocks_in blocks.new result
        ≡ add_block (number_of value.limbs) (blocks_in blocks.old count) }
    ensures only { Only (4 * count) (4 * count + 4) blocks.old blocks.new }
{
    cells::add_block(blocks, count, value).unwrap()
}
