// Frames at the dock: what the bytes of a frame so far amount to, and the writer.
#![tactic(auto)]

ghost use Rattle.std.specs.Prelude.{◌≡◌, ◌+◌, ◌-◌, ◌≤◌, length, take, drop};
ghost use Rattle.rules.specs.Basic.{little_endian};
ghost use Rattle.primitives.specs.Bytes.{over};
ghost use Rattle.remainder.specs.Remainder.{remainder};
ghost use Rattle.frames.specs.Frames.{kind_number, kind_numbered, fault_number, refusal_number};
ghost use Rattle.frames.specs.Frames.{around, unchecked, judged_by_head, check_right, judged, written, writing, HostWrites};

// The bytes before a body, and those around it, which are the shortest frame.
pub const HEAD: usize = 4;

pub const AROUND: usize = 6;

// The longest frame, and the longest body.
pub const LONGEST: usize = 1563;

const LONGEST_BODY: usize = LONGEST - AROUND;

// So many bytes of a frame.
#[derive(Clone, Copy, Debug, PartialEq, Eq)]
pub struct FrameLength(pub u16);

// So many bytes of a frame's body.
#[derive(Clone, Copy, Debug, PartialEq, Eq)]
pub struct BodyLength(pub u16);

#[derive(Clone, Copy, Debug, PartialEq, Eq)]
pub enum Kind {
    Command,
    Response,
}

// Why a stream stops.
#[derive(Clone, Copy, Debug, PartialEq, Eq)]
pub enum Fault {
    BadLength,
    UnknownKind,
    BadCheck,
}

// What the bytes of a frame so far amount to: a whole frame; bytes of one that is not complete; a fault.
// The project names this form: an answer of three cases, taken apart by `let .. else`.
#[derive(Clone, Copy, Debug, PartialEq, Eq)]
pub enum Step {
    Whole(Kind, BodyLength),
    NotYet(FrameLength),
    Stopped(Fault),
}

// Why a frame is not written.
#[derive(Clone, Copy, Debug, PartialEq, Eq)]
pub enum WriteRefusal {
    BodyTooLong,
    RoomTooSmall,
}

impl From<Kind> for u16 {
    ghost from_gives = { λ kind n. n ≡ kind_number kind };

    fn from(kind: Kind) -> u16 {
        match kind {
            Kind::Command => 1,
            Kind::Response => 2,
        }
    }
}

// The number that a stream stops with.
impl From<Fault> for u16 {
    ghost from_gives = { λ fault n. n ≡ fault_number fault };

    fn from(fault: Fault) -> u16 {
        match fault {
            Fault::BadLength => 1,
            Fault::UnknownKind => 2,
            Fault::BadCheck => 3,
        }
    }
}

impl From<WriteRefusal> for u8 {
    ghost from_gives = { λ refusal n. n ≡ refusal_number refusal };

    fn from(refusal: WriteRefusal) -> u8 {
        match refusal {
            WriteRefusal::BodyTooLong => 1,
            WriteRefusal::RoomTooSmall => 2,
        }
    }
}

#[tactic(auto, unfolding(crate::specs::Frames::kind_numbered))]
// An Option: an error would have nothing to tell, since the caller names the fault.
fn kind_numbered(n: u16) -> Option<Kind>
    ensures { result ≡ kind_numbered n }
{
    match n {
        1 => Some(Kind::Command),
        2 => Some(Kind::Response),
        _ => None,
    }
}

// Judges the bytes of a frame so far by length and kind: `Whole` where all its bytes are there.
#[tactic(auto, unfolding(crate::specs::Frames::judged_by_head, crate::specs::Frames::by_kind))]
pub fn judge_head(bytes: &[u8]) -> Step
    ensures { result ≡ judged_by_head bytes.now }
{
    let n = bytes.len();
    if n < 2 {
        return Step::NotYet(FrameLength(n as u16));
    }
    let length = primitives::little_endian_at(bytes, 0) as usize;
    if length < AROUND || LONGEST < length || length < n {
        return Step::Stopped(Fault::BadLength);
    }
    if n < HEAD {
        return Step::NotYet(FrameLength(n as u16));
    }
    let Some(kind) = kind_numbered(primitives::little_endian_at(bytes, 2)) else {
        return Step::Stopped(Fault::UnknownKind);
    };
    if n < length {
        return Step::NotYet(FrameLength(n as u16));
    }
    Step::Whole(kind, BodyLength((n - AROUND) as u16))
}

// Whether the last two bytes are the remainder of all before them.
#[tactic(auto, unfolding(crate::specs::Frames::check_right))]
fn check_right(bytes: &[u8]) -> bool
    requires { 2 ≤ length bytes.now }
    ensures { result ≡ check_right bytes.now }
{
    let end = bytes.len() - 2;
    remainder::remainder(&bytes[..end]) == primitives::little_endian_at(bytes, end)
}

// Judges the bytes of a frame so far: by the check too where all are there. `Whole` is made anew: the answer handed on is copied through
// memory by gcc, and `dock_feed`, byte by byte, took a third as long again.
#[tactic(auto, using(crate::proofs::Judgments::whole_long), unfolding(crate::specs::Frames::judged, crate::specs::Frames::checked))]
pub fn judge(bytes: &[u8]) -> Step
    ensures { result ≡ judged bytes.now }
{
    match judge_head(bytes) {
        Step::Whole(kind, size) if check_right(bytes) => Step::Whole(kind, size),
        Step::Whole(_, _) => Step::Stopped(Fault::BadCheck),
        answer => answer,
    }
}

// Writes a frame of n bytes up to its check.
#[tactic(auto, using(primitives::proofs::Over::over_over), unfolding(crate::specs::Frames::unchecked))]
fn write_unchecked(kind: Kind, body: &[u8], room: &mut [u8], n: u16)
    requires { (length body.now + 4 ≤ length room.old) × (n ≡ length body.now + around) }
    ensures { room.new ≡ over 0 (unchecked kind body.now) room.old }
{
    primitives::put_little_endian(room, 0, n);
    primitives::put_little_endian(room, 2, kind.into());
    primitives::put(room, HEAD, body);
}

// Writes the check of the bytes from..end behind them.
// The parameter from is 0 in the program; the edit check_without_length is one that is not.
fn write_check(room: &mut [u8], from: usize, end: usize)
    requires { (from ≤ end) × (end + 2 ≤ length room.old) }
    ensures { room.new
        ≡ over end (little_endian (remainder (take (end - from) (drop from room.old)))) room.old }
{
    let x = remainder::remainder(&room[from..end]);
    primitives::put_little_endian(room, end, x);
}

// Writes a frame at the front of the room.
#[tactic(auto, unfolding(crate::specs::Frames::writing))]
pub fn write_frame(kind: Kind, body: &[u8], room: &mut [u8]) -> Result<FrameLength, WriteRefusal>
    ensures { written result room.new ≡ writing kind body.now room.old }
{
    let n = body.len();
    if LONGEST_BODY < n {
        return Err(WriteRefusal::BodyTooLong);
    }
    if room.len() < n + AROUND {
        return Err(WriteRefusal::RoomTooSmall);
    }
    let size = (n + AROUND) as u16;
    write_unchecked(kind, body, room, size);
    write_check(room, 0, n + HEAD);
    Ok(FrameLength(size))
}

// `write_frame` for a host in C: 0 where the frame is written, else the refusal's number.
#[tactic(auto, unfolding(crate::specs::Frames::written_number))]
#[inline(never)]
pub fn write_for_host(kind: Kind, body: &[u8], room: &mut [u8]) -> u8
    ensures { HostWrites kind body.now room.old result room.new }
{
    match write_frame(kind, body, room) {
        Ok(_) => 0,
        Err(refusal) => refusal.into(),
    }
}
