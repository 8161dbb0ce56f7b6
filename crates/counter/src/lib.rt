// A counter in its 8 bytes, the value and then the threshold: whether it is exhausted, and a count.
#![tactic(auto)]

ghost use Rattle.std.specs.Prelude.{◌≡◌, length};
ghost use Rattle.rules.specs.Object.{counter_size};
ghost use Rattle.rules.specs.Counter.{counted, exhausted, after_count};

use rules::Direction;

// How many bytes a counter has.
pub const SIZE: usize = 8;

// Where the value and the threshold begin.
const VALUE: usize = 0;

const THRESHOLD: usize = 4;

// A sum above the largest number ends at the threshold all the same.
#[tactic(auto, using(crate::proofs::Counting::counted_up, crate::proofs::Counting::counted_down))]
fn counted(direction: Direction, value: u32, threshold: u32, step: u32) -> u32
    ensures { result ≡ counted direction value threshold step }
{
    match direction {
        Direction::Up => value.saturating_add(step).min(threshold),
        Direction::Down => value.saturating_sub(step).max(threshold),
    }
}

// Whether the value is at or past its threshold already.
#[tactic(auto, unfolding(rules::specs::Counter::value, rules::specs::Counter::threshold, rules::specs::Counter::exhausted, rules::specs::Counter::at_or_past))]
pub fn exhausted(part: &[u8], direction: Direction) -> bool
    requires { length part.now ≡ counter_size }
    ensures { result ≡ exhausted direction part.now }
{
    let value = primitives::big_endian_4_at(part, VALUE);
    let threshold = primitives::big_endian_4_at(part, THRESHOLD);
    match direction {
        Direction::Up => threshold <= value,
        Direction::Down => value <= threshold,
    }
}

// Counts by a step: the threshold stays.
#[tactic(auto, unfolding(rules::specs::Basic::big_endian_4, rules::specs::Counter::value, rules::specs::Counter::threshold, rules::specs::Counter::after_count, primitives::specs::Bytes::over))]
pub fn count(part: &mut [u8], direction: Direction, step: u8)
    requires { length part.old ≡ counter_size }
    ensures { part.new ≡ after_count direction step part.old }
{
    let value = primitives::big_endian_4_at(part, VALUE);
    let threshold = primitives::big_endian_4_at(part, THRESHOLD);
    let next = counted(direction, value, threshold, step as u32);
    primitives::put_big_endian_4(part, VALUE, next);
}
