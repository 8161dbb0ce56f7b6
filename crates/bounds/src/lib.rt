// The steps 11 and 13 in numbers: bytes within a limit, how many a read shows, whether a response fits the room. Sums could wrap, so that
// differences are taken.
#![tactic(auto)]

ghost use Rattle.std.specs.Prelude.{◌≡◌, not, ◌+◌, ◌-◌, min, leb, ltb};
ghost use Rattle.rules.specs.declared.Refusal.TheVariants.{BoundaryExceeded};
ghost use Rattle.rules.specs.Chain.{◌refused◌or◌};
ghost use Rattle.rules.specs.Refusals.{fitting};

use rules::{Length, Offset, Refusal, Verdict, refuse_if};

// Bytes of a response before its answer: status, 00 and OutLen.
const HEADER: usize = 4;

// So many bytes from an offset stay within a limit: the boundary test of step 11.
pub fn fits(from: Offset, count: Length, limit: Length) -> bool
    ensures { result ≡ leb (from.0 + count.0) limit.0 }
{
    from.0 <= limit.0 && count.0 <= limit.0 - from.0
}

// How many bytes a get answers, of those in use: up to the smaller of used and offset + length.
pub fn shown_length(from: Offset, asked: Length, used: Length) -> Length
    ensures { result.0 ≡ min used.0 (from.0 + asked.0) - from.0 }
{
    Length(used.0.saturating_sub(from.0).min(asked.0))
}

// Step 13: a response whose answer has so many bytes is longer than a room of this size.
fn too_long(answer: Length, room: usize) -> bool
    ensures { result ≡ ltb room (4 + answer.0) }
{
    room < HEADER || room - HEADER < answer.0
}

// The verdict on an answer of so many bytes, for a room of this size.
pub fn fitting(answer: Length, room: usize) -> Verdict
    ensures { result ≡ fitting answer.0 room }
{
    refuse_if(too_long(answer, room), Refusal::InsufficientBuffer)
}

// Steps 11 and 13 of a get of data, where so many bytes are in use.
pub fn judge_read(from: Offset, asked: Length, used: Length, room: usize) -> Verdict
    ensures { result
        ≡ (not (leb from.0 used.0) refused BoundaryExceeded or fitting (min used.0 (from.0 + asked.0) - from.0) room) }
{
    let shown = shown_length(from, asked, used);
    refuse_if(used.0 < from.0, Refusal::BoundaryExceeded)?;
    fitting(shown, room)
}
