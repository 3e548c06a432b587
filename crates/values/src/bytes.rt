// Numbers and values to and from their bytes, little-endian.
ghost use Rattle.std.specs.Prelude.{◌≡◌, ◌^◌, ◌<◌, length};
ghost use Rattle.values.specs.Digits.{le_number, le_bytes};
ghost use Rattle.values.specs.Values.{value_of};

use crate::Value;
use std::array;

impl Value {
    // The value that these bytes write, the least significant first; written back, it gives them.
    pub fn from_le_bytes(bytes: [u8; 32]) -> Value
        ensures is { value_of result ≡ le_number bytes }
        ensures back { le_bytes 32 (value_of result) ≡ bytes }
    {
        let (words, _) = bytes.as_chunks::<8>();
        Value::from(array::from_fn(|i| u64::from_le_bytes(words[i])))
    }

    // The value's bytes; read back, they give it.
    pub fn to_le_bytes(self) -> [u8; 32]
        ensures is { result ≡ le_bytes 32 (value_of self) }
        ensures back { le_number result ≡ value_of self }
    {
        let words = self.limbs().map(u64::to_le_bytes);
        words.as_flattened().try_into().unwrap()
    }
}

// Kept so: four functions of a line each; a trait over `u64` and `Value`, with its laws and two impls, would be longer.

// The number that eight bytes write.
#[tactic(auto, using(crate::proofs::Words::word_number, crate::proofs::Places::bytes_back))]
pub fn read_number(part: &[u8]) -> u64
    requires { length part.now ≡ 8 }
    ensures is { result ≡ le_number part.now }
    ensures bytes { le_bytes 8 result ≡ part.now }
{
    u64::from_le_bytes(part.try_into().unwrap())
}

// The eight bytes of a number.
#[tactic(auto, using(crate::proofs::Words::word_bytes))]
pub fn write_number(part: &mut [u8], number: u64)
    requires { length part.old ≡ 8 }
    ensures is { part.new ≡ le_bytes 8 number }
    ensures fits { number < 2 ^ 64 }
{
    part.copy_from_slice(&number.to_le_bytes());
}

// The value that thirty-two bytes write.
pub fn read_value(part: &[u8]) -> Value
    requires { length part.now ≡ 32 }
    ensures is { value_of result ≡ le_number part.now }
    ensures bytes { le_bytes 32 (value_of result) ≡ part.now }
{
    Value::from_le_bytes(part.try_into().unwrap())
}

// The thirty-two bytes of a value.
pub fn write_value(part: &mut [u8], value: Value)
    requires { length part.old ≡ 32 }
    ensures is { part.new ≡ le_bytes 32 (value_of value) }
{
    part.copy_from_slice(&value.to_le_bytes());
}
