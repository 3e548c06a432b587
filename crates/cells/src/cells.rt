// Values in memory, four numbers each.
ghost use Rattle.std.specs.Prelude.{◌≡◌, ℕ, ◌+◌, ◌≤◌, length, slice_index};
ghost use Rattle.values.specs.Digits.{number_of};
ghost use Rattle.cells.specs.Cells.{value_at, Only};

use values::Value;

// The value that stands at a place.
pub fn value_at(part: &[u64], at: usize) -> Value
    requires within { at + 4 ≤ length part.now }
    ensures is { number_of result.limbs ≡ value_at part.now at }
{
    let limbs: [u64; 4] = part[at..at + 4].try_into().unwrap();
    Value::from(limbs)
}

pub fn put_value(part: &mut [u64], at: usize, value: Value)
    requires within { at + 4 ≤ length part.old }
    ensures is { value_at part.new at ≡ number_of value.limbs }
    ensures only { Only at (at + 4) part.old part.new }
{
    part[at..at + 4].copy_from_slice(&value.limbs());
}

// Every number 0.
pub fn clear(part: &mut [u64])
    ensures is { (i : ℕ) → slice_index part.new i ≡ 0 }
{
    part.fill(0);
}
