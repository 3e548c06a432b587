// Bytes written as hexadecimal digits.
ghost use Rattle.std.specs.Prelude.{◌<◌, ◌≤◌, length};

// The number of a digit, 0 for what is none.
fn nibble(digit: u8) -> u8
    ensures { result < 16 }
{
    match digit {
        b'0'..=b'9' => digit - b'0',
        b'a'..=b'f' => digit - b'a' + 10,
        _ => 0,
    }
}

// Fills the bytes with what the digits write, two to a byte, and gives how many were filled.
// Kept so: what is tested reads and writes lent bytes and gives their number, so the tests lend some too.
pub(crate) fn unhex(digits: &[u8], out: &mut [u8]) -> usize
    ensures { result ≤ length out.new }
{
    for (byte, pair) in out.iter_mut().zip(digits.chunks_exact(2)) {
        *byte = nibble(pair[0]) * 16 + nibble(pair[1]);
    }
    out.len().min(digits.len() / 2)
}
