//! How many messages of each validator are kept.

ghost use Rattle.std.specs.Prelude.{◌≡◌, ◌<◌, ◌+◌, ◌==◌, cond, min, ℕ, slice_index_or};

use powers::MOST_VALIDATORS;

/// How many messages of each validator are kept, up to 65,535.
pub type Counts = [u16; MOST_VALIDATORS];

/// No message of any.
pub fn none_counted() -> Counts
    ensures { (i : ℕ) → i < 128 → slice_index_or result i 0 ≡ 0 }
{
    [0; MOST_VALIDATORS]
}

/// One more message of a validator.
pub fn count_one(counts: &mut Counts, validator: u16)
    ensures { (i : ℕ) → i < 128 → slice_index_or counts.new i 0 ≡ cond (validator == i) (min (slice_index_or counts.old i 0 + 1) 65535) (slice_index_or counts.old i 0) }
{
    let place = usize::from(validator);
    if place < MOST_VALIDATORS {
        counts[place] = counts[place].saturating_add(1);
    }
}
