// Responses, written at the front of the room: bytes after the response keep their values.
// The room is the host's: each response asks for its own length.
#![tactic(auto)]

ghost use Rattle.std.specs.Prelude.{◌≡◌, [], ◌∷◌, ◌+◌, ◌<◌, ◌≤◌, length};
ghost use Rattle.rules.specs.Basic.{big_endian};
ghost use Rattle.rules.specs.Response.{put_in_front, done_response, refused_response};
ghost use Rattle.primitives.specs.Bytes.{over};

use rules::Length;

// Status FF: refused.
#[tactic(auto, using(crate::proofs::Begun::front_by), unfolding(rules::specs::Response::refused_response))]
pub fn refuse(room: &mut [u8])
    requires { 4 ≤ length room.old }
    ensures { room.new ≡ put_in_front refused_response room.old }
{
    primitives::put(room, 0, &[0xFF, 0, 0, 0]);
}

// Status 00 and OutLen; the answer's bytes are put right behind them.
pub fn head(room: &mut [u8], answer: Length)
    requires { (4 ≤ length room.old) × (answer.0 < 65536) }
    ensures { room.new ≡ over 0 (0 ∷ 0 ∷ big_endian answer.0) room.old }
{
    let [high, low] = (answer.0 as u16).to_be_bytes();
    primitives::put(room, 0, &[0, 0, high, low]);
}

// Done, with nothing to say: four zeros.
#[tactic(auto, using(crate::proofs::Begun::front_by), unfolding(rules::specs::Response::done_response))]
pub fn done(room: &mut [u8])
    requires { 4 ≤ length room.old }
    ensures { room.new ≡ put_in_front (done_response []) room.old }
{
    primitives::put_zeros(room, 0, 4);
}

// Done, with all of out.
#[tactic(auto, using(crate::proofs::Begun::head_then))]
pub fn answer(room: &mut [u8], out: &[u8])
    requires { (4 + length out.now ≤ length room.old) × (length out.now < 65536) }
    ensures { room.new ≡ put_in_front (done_response out.now) room.old }
{
    head(room, Length(out.len()));
    primitives::put(room, 4, out);
}
