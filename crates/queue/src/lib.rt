// A fare queue in an object's data: `content` is the data up to used, `part` the whole of it, maximum bytes.
#![tactic(auto)]

ghost use Rattle.std.specs.Prelude.{◌≡◌, Some, true, ◌++◌, ℕ, ◌+◌, ◌-◌, ◌≤◌, ◌<◌, length, take, drop};
ghost use Rattle.rules.specs.Basic.{is_some, zeros};
ghost use Rattle.rules.specs.Queue.{fare, queue_head, fare_head, fare_bytes, queue_bytes, queue, queue_in, appended, present_in, acknowledged};
ghost use Rattle.primitives.specs.Bytes.{over};
ghost use Rattle.queue.specs.Ends.{fare_end};
ghost use Rattle.queue.specs.Held.{Holds, held};
ghost use Rattle.queue.specs.Fares.{whole_fare, first_number};

use rules::{Length, Offset};

// Where the fares begin: the next sequence number stands before them.
const FARES: usize = 4;

// How far into a fare its parts begin: the length is at 0.
const KIND: usize = 2;

const NUMBER: usize = 4;

pub const BODY: usize = 8;

// The one kind of a fare: an enum of one case would say nothing.
const FARE_KIND: u16 = 1;

// Limits of a fare's length.
const SHORTEST: usize = BODY + 1;

const LONGEST: usize = BODY + 200;

// Whether the fare of a number stands whole at a place.
#[tactic(auto, unfolding(rules::specs::Basic::all, crate::specs::Fares::whole_fare))]
fn fare_ok(content: &[u8], at: usize, number: u32) -> bool
    requires { at ≤ length content.now }
    ensures { result ≡ whole_fare at number content.now }
{
    let rest = content.len() - at;
    if rest < SHORTEST {
        return false;
    }
    let size = primitives::little_endian_at(content, at) as usize;
    SHORTEST <= size
        && size <= LONGEST
        && size <= rest
        && primitives::little_endian_at(content, at + KIND) == FARE_KIND
        && primitives::little_endian_4_at(content, at + NUMBER) == number
}

// The number of the first fare; the next number where there is none.
#[tactic(auto, unfolding(crate::specs::Fares::first_number))]
fn first_number(content: &[u8]) -> u32
    requires { queue_head ≤ length content.now }
    ensures { result ≡ first_number content.now }
{
    if content.len() < FARES + BODY {
        return primitives::little_endian_4_at(content, 0);
    }
    primitives::little_endian_4_at(content, FARES + NUMBER)
}

// Whether these bytes are a queue: the fares have the numbers from the first up to just below the next.
pub fn check(content: &[u8]) -> bool
    ensures { result ≡ is_some (queue content.now) }
{
    if content.len() < FARES {
        return false;
    }
    let next = primitives::little_endian_4_at(content, 0);
    let mut at = FARES;
    for number in first_number(content)..next {
        if !fare_ok(content, at, number) {
            return false;
        }
        at += primitives::little_endian_at(content, at) as usize;
    }
    at == content.len()
}

// The number that the next fare gets.
#[tactic(auto, using(crate::proofs::Search::head_inside, crate::proofs::Search::next_by))]
pub fn next_number(content: &[u8]) -> u32
    requires { is_some (queue content.now) ≡ true }
    ensures { result ≡ (queue_in content.now).next }
{
    primitives::little_endian_4_at(content, 0)
}

// Where the fare of a number ends, if there is one: only the heads of fares are read.
fn fare_end(content: &[u8], number: u32) -> Option<usize>
    requires { is_some (queue content.now) ≡ true }
    ensures { result ≡ fare_end number (queue_in content.now) }
{
    let mut at = FARES;
    // The next place is read from the bytes.
    while at < content.len() {
        let end = at + primitives::little_endian_at(content, at) as usize;
        if primitives::little_endian_4_at(content, at + NUMBER) == number {
            return Some(end);
        }
        at = end;
    }
    None
}

// Whether a fare has the number: they are numbered by ones up to just below the next number.
pub fn is_present(content: &[u8], number: u32) -> bool
    requires { is_some (queue content.now) ≡ true }
    ensures { result ≡ present_in (queue_in content.now).fares number }
{
    first_number(content) <= number && number < next_number(content)
}

// Puts a fare at a place.
#[tactic(auto, using(crate::proofs::Moves::fare_by))]
fn put_fare(part: &mut [u8], at: usize, number: u32, body: &[u8])
    requires { (at + fare_head + length body.now ≤ length part.old) × (length body.now ≤ 200) }
    ensures { part.new ≡ over at (fare_bytes (fare number body.now)) part.old }
{
    primitives::put_little_endian(part, at, (BODY + body.len()) as u16);
    primitives::put_little_endian(part, at + KIND, FARE_KIND);
    primitives::put_little_endian_4(part, at + NUMBER, number);
    primitives::put(part, at + BODY, body);
}

// Puts a body behind the fares, under the next number. The answer is what is used then.
#[tactic(auto, using(crate::proofs::Results::next_fits, crate::proofs::Results::append_by))]
// The part is lent whole: how much of it is used stands in the record's head, and `Holds` and `held` take both.
pub fn append(part: &mut [u8], used: Length, body: &[u8]) -> Length
    requires { Holds used.0 part.old × (used.0 + fare_head + length body.now ≤ length part.old) × (length body.now ≤ 200)
        × ((held used.0 part.old).next < 0xFFFFFFFF) }
    ensures { (result.0 ≡ used.0 + fare_head + length body.now)
        × (part.new ≡ queue_bytes (appended body.now (held used.0 part.old)) ++ drop result.0 part.old) }
{
    let at = used.0;
    let number = primitives::little_endian_4_at(part, 0);
    put_fare(part, at, number, body);
    primitives::put_little_endian_4(part, 0, number + 1);
    Length(at + BODY + body.len())
}

// Moves n bytes down to a place before them, the first first: a loop, since the library's copy calls memmove.
fn move_down(dst: &mut [u8], to: usize, from: usize, n: usize)
    requires { (to ≤ from) × (from + n ≤ length dst.old) }
    ensures { dst.new ≡ over to (take n (drop from dst.old)) dst.old }
{
    for i in 0..n {
        dst[to + i] = dst[from + i];
    }
}

// Drops the fare that ends at `end` and all before it: the others move to the front, zeros take the place that they leave. The answer is what is used then.
fn drop_front(part: &mut [u8], used: Length, end: Offset) -> Length
    requires { Holds used.0 part.old × (queue_head ≤ end.0) × (end.0 ≤ used.0) }
    ensures { (n : ℕ) → fare_end n (held used.0 part.old) ≡ Some end.0
        → (result.0 ≡ length (queue_bytes (acknowledged n (held used.0 part.old))))
        × (part.new ≡ queue_bytes (acknowledged n (held used.0 part.old)) ++ zeros (length part.old - result.0)) }
{
    let left = used.0 - end.0;
    let kept = FARES + left;
    move_down(part, FARES, end.0, left);
    primitives::put_zeros(part, kept, used.0 - kept);
    Length(kept)
}

// Drops the fare of a number that is present, and all before it. The answer is what is used then.
pub fn acknowledge(part: &mut [u8], used: Length, number: u32) -> Length
    requires { Holds used.0 part.old × (present_in (held used.0 part.old).fares number ≡ true) }
    ensures { (result.0 ≡ length (queue_bytes (acknowledged number (held used.0 part.old))))
        × (part.new ≡ queue_bytes (acknowledged number (held used.0 part.old)) ++ zeros (length part.old - result.0)) }
{
    let Some(end) = fare_end(&part[..used.0], number) else {
        return used;
    };
    drop_front(part, used, Offset(end))
}
