// Rows of entries: the votes of one slot, one entry for each member, side by side.
ghost use Rattle.std.specs.Prelude.{◌≡◌, ℕ, ◌*◌, ◌≤◌, true, length, ◌≢◌, nat_le};
ghost use Rattle.protocol.specs.Vote.{quorum};
ghost use Rattle.values.specs.Digits.{number_of};
ghost use Rattle.cells.specs.Cells.{listed};
ghost use Rattle.tally.specs.Votes.{heard_at};
ghost use Rattle.tally.specs.Rows.{is_for, number_for};

use limits::Limits;
use values::Value;

// What was heard at an entry.
// Kept so: it reads an entry, as rows are counted; `option_at` of `member` reads five numbers of a longer slice.
// Kept so: its first number says whether there is a value: lent memory is laid out so.
pub(crate) fn heard(entry: &[u64; 8]) -> Option<Value>
    ensures is { listed result ≡ heard_at entry.now 0 }
{
    let [heard, a, b, c, d, _, _, _] = *entry;
    (heard != 0).then_some(Value::from([a, b, c, d]))
}

// Was this value heard at an entry?
fn is_for(entry: &[u64; 8], value: Value) -> bool
    ensures is { result ≡ is_for (number_of value.limbs) entry.now }
{
    heard(entry) == Some(value)
}

// How many of the row are for this value.
pub(crate) fn count_in(row: &[[u64; 8]], value: Value) -> u64
    ensures is { result ≡ number_for (number_of value.limbs) row.now }
{
    row.iter().filter(|entry| is_for(entry, value)).count() as u64
}

// Is a quorum of the row for this value? Counts no further than that.
// Kept so: by a rule of the project this is a loop that is left by a label.
pub(crate) fn quorum_in(row: &[[u64; 8]], limits: Limits, value: Value) -> bool
    ensures is { result ≡ nat_le (quorum limits.members) (number_for (number_of value.limbs) row.now) }
{
    let quorum = limits.quorum();
    let mut count = 0;
    'votes: for entry in row {
        if is_for(entry, value) {
            count += 1;
            if count == quorum {
                break 'votes;
            }
        }
    }
    quorum <= count
}

// The only value that more than half of the members can have voted for in the row, found in one pass: votes for other
// values cancel those for the candidate one by one.
pub(crate) fn majority(row: &[[u64; 8]]) -> Value
    ensures is { (x : ℕ) → (x ≢ number_of result.limbs) → 2 * number_for x row.now ≤ length row.now }
{
    let mut candidate = Value::zero();
    let mut lead: u64 = 0;
    // Kept so: of `filter_map(heard)` the proof did not close: its lemma asks for an entry's `Option`, not its number.
    for entry in row {
        let Some(vote) = heard(entry) else {
            continue;
        };
        if lead == 0 {
            candidate = vote;
            lead = 1;
        } else if vote == candidate {
            lead += 1;
        } else {
            lead -= 1;
        }
    }
    candidate
}
