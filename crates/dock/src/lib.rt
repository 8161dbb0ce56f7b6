// The stream at the dock: bytes come in pieces of any size, and whole frames come out.
#![tactic(auto)]

ghost use Rattle.std.specs.Prelude.{◌≡◌, ◌++◌, ◌+◌, ◌≤◌, length, take};
ghost use Rattle.primitives.specs.Bytes.{over};
ghost use Rattle.frames.specs.Frames.{in_frame, judged};
ghost use Rattle.dock.specs.Held.{stream_after, resting, fed, feeding};
ghost use Rattle.dock.specs.Host.{stream_of, host_of, host_fed, host_left, host_feeding};
ghost use Rattle.dock.specs.Parts.{next_judged, head_judged, reach, parted, collecting_part, part};

use frames::{AROUND, Fault, FrameLength, HEAD, LONGEST, Step};

// A stream: the bytes collected of the present frame, which stand at the front of the lent bytes, or the fault that stopped it.
// The contract of `dock_start` names it; a stopped stream is a state that goes on answering, and no error that is handed on.
#[derive(Clone, Copy, Debug, PartialEq, Eq)]
pub enum Stream {
    Collecting(FrameLength),
    Stopped(Fault),
}

// What a piece brings: the stream after it, the answer to the last byte taken, and how many bytes were taken.
#[derive(Clone, Copy, Debug, PartialEq, Eq)]
pub struct Fed {
    pub stream: Stream,
    pub step: Step,
    pub taken: usize,
}

// A stream as a host in C keeps it: the bytes collected, and the number that stopped it, 0 where none did. Every value has a meaning.
#[repr(C)]
#[derive(Clone, Copy)]
pub struct HostStream {
    pub collected: u16,
    pub stop: u16,
}

// What a piece brings, for a host in C: kind and body size of the whole frame that ended the call, 0 where none did.
#[repr(C)]
#[derive(Clone, Copy)]
pub struct HostFed {
    pub stream: HostStream,
    pub kind: u16,
    pub size: u16,
    pub taken: usize,
}

// The answer to the last of the bytes that are taken at once, and how many these are.
#[derive(Clone, Copy)]
struct Part {
    step: Step,
    taken: usize,
}

// How many bytes are collected when they are judged next: no byte before that can end the frame or stop the stream.
#[tactic(auto, unfolding(crate::specs::Parts::next_judged, crate::specs::Parts::judged_after))]
fn next_judged(bytes: &[u8]) -> usize
    ensures { result ≡ next_judged bytes.now }
{
    let n = bytes.len();
    let Step::NotYet(_) = frames::judge_head(bytes) else {
        return n + 1;
    };
    match n {
        ..2 => 2,
        ..HEAD => HEAD,
        _ => primitives::little_endian_at(bytes, 0) as usize,
    }
}

// The same of bytes that begin a frame, where its head is among them and no fault is in it; else fewer than the shortest frame has.
#[tactic(auto, unfolding(crate::specs::Parts::head_judged))]
// A number, since `reach` compares it with the shortest frame.
fn head_judged(bytes: &[u8]) -> usize
    ensures { result ≡ head_judged bytes.now }
{
    if bytes.len() < HEAD {
        return 0;
    }
    next_judged(&bytes[..HEAD])
}

// How many bytes are collected when they are judged next, with these to come behind the n in the lent bytes.
#[tactic(auto, unfolding(crate::specs::Parts::reach))]
// The lent bytes are the host's, and the count stands in its stream.
fn reach(n: usize, frame: &[u8], bytes: &[u8]) -> usize
    requires { n ≤ length frame.now }
    ensures { result ≡ reach n frame.now bytes.now }
{
    let whole = head_judged(bytes);
    if n == 0 && AROUND <= whole {
        return whole;
    }
    next_judged(&frame[..n])
}

// Puts bytes behind the n collected before them, and judges all.
#[tactic(auto, using(crate::proofs::Parting::behind_judged))]
fn put_behind(n: usize, frame: &mut [u8], bytes: &[u8]) -> Step
    requires { n + length bytes.now ≤ length frame.old }
    ensures { (result ≡ judged (take n frame.old ++ bytes.now))
        × (frame.new ≡ over n bytes.now frame.old) }
{
    primitives::put(frame, n, bytes);
    let end = n + bytes.len();
    frames::judge(&frame[..end])
}

// Takes bytes behind the n collected before them, up to where they are judged.
#[tactic(auto, using(crate::proofs::Parting::judged_ahead, crate::proofs::Parting::put_fits), unfolding(crate::specs::Parts::collecting_part, crate::specs::Parts::judged_part))]
fn collect(n: usize, frame: &mut [u8; LONGEST], bytes: &[u8]) -> Part
    ensures { parted result frame.new ≡ collecting_part n frame.old bytes.now }
{
    if LONGEST <= n {
        return Part {
            step: Step::Stopped(Fault::BadLength),
            taken: bytes.len(),
        };
    }
    let taken = (reach(n, frame, bytes) - n).min(bytes.len());
    Part {
        step: put_behind(n, frame, &bytes[..taken]),
        taken,
    }
}

impl Stream {
    // Between frames: where every stream starts, and what a reset makes of one.
    pub fn start() -> Stream
        ensures { result ≡ Stream.Collecting (in_frame 0) }
    {
        Stream::Collecting(FrameLength(0))
    }

    fn after(step: Step) -> Stream
        ensures { result ≡ stream_after step }
    {
        match step {
            Step::Whole(_, _) => Stream::start(),
            Step::NotYet(n) => Stream::Collecting(n),
            Step::Stopped(fault) => Stream::Stopped(fault),
        }
    }

    // The answer where no byte is left.
    fn resting(self) -> Step
        ensures { result ≡ resting self }
    {
        match self {
            Stream::Collecting(n) => Step::NotYet(n),
            Stream::Stopped(fault) => Step::Stopped(fault),
        }
    }

    // Takes bytes at once. A stopped stream takes all, and answers its fault.
    #[tactic(auto, unfolding(crate::specs::Parts::part))]
    fn take_part(self, frame: &mut [u8; LONGEST], bytes: &[u8]) -> Part
        ensures { parted result frame.new ≡ part self frame.old bytes.now }
    {
        match self {
            Stream::Collecting(n) => collect(n.0 as usize, frame, bytes),
            Stream::Stopped(fault) => Part {
                step: Step::Stopped(fault),
                taken: bytes.len(),
            },
        }
    }

    // Takes bytes of a piece up to the end of a frame, which then stands whole at the front of the lent bytes, or to the end of
    // the piece. The host hands over what is left of the piece in its next call.
    pub fn feed(self, frame: &mut [u8; LONGEST], piece: &[u8]) -> Fed
        ensures { fed result frame.new ≡ feeding self frame.old piece.now }
    {
        let mut stream = self;
        let mut taken: usize = 0;
        // A part is as long as its bytes say.
        while taken < piece.len() {
            let part = stream.take_part(frame, &piece[taken..]);
            stream = Stream::after(part.step);
            taken += part.taken;
            let Step::Whole(_, _) = part.step else {
                continue;
            };
            return Fed {
                stream,
                step: part.step,
                taken,
            };
        }
        Fed {
            stream,
            step: stream.resting(),
            taken,
        }
    }
}

// A stop that no fault has counts as a bad length.
impl From<HostStream> for Stream {
    ghost from_gives = { λ held stream. stream ≡ stream_of held };

    #[tactic(auto, unfolding(crate::specs::Host::stream_of))]
    fn from(held: HostStream) -> Stream {
        if held.stop == 0 {
            return Stream::Collecting(FrameLength(held.collected));
        }
        if held.stop == 2 {
            return Stream::Stopped(Fault::UnknownKind);
        }
        if held.stop == 3 {
            return Stream::Stopped(Fault::BadCheck);
        }
        Stream::Stopped(Fault::BadLength)
    }
}

impl From<Stream> for HostStream {
    ghost from_gives = { λ stream held. held ≡ host_of stream };

    #[tactic(auto, unfolding(crate::specs::Host::host_of))]
    fn from(stream: Stream) -> HostStream {
        match stream {
            Stream::Collecting(n) => HostStream {
                collected: n.0,
                stop: 0,
            },
            Stream::Stopped(fault) => HostStream {
                collected: 0,
                stop: fault.into(),
            },
        }
    }
}

impl From<Fed> for HostFed {
    ghost from_gives = { λ fed host. host ≡ host_fed fed };

    #[tactic(auto, unfolding(crate::specs::Host::host_fed, crate::specs::Host::host_told))]
    fn from(fed: Fed) -> HostFed {
        let no_frame = HostFed {
            stream: fed.stream.into(),
            kind: 0,
            size: 0,
            taken: fed.taken,
        };
        let Step::Whole(kind, size) = fed.step else {
            return no_frame;
        };
        HostFed {
            kind: kind.into(),
            size: size.0,
            ..no_frame
        }
    }
}

// A stream between frames, for a host in C.
pub fn start_for_host() -> HostStream
    ensures { result ≡ host_of (Stream.Collecting (in_frame 0)) }
{
    HostStream::from(Stream::start())
}

// `feed` for a host in C.
#[tactic(auto, unfolding(crate::specs::Host::host_feeding))]
pub fn feed_for_host(held: HostStream, frame: &mut [u8; LONGEST], piece: &[u8]) -> HostFed
    ensures { host_left result frame.new ≡ host_feeding held frame.old piece.now }
{
    HostFed::from(Stream::from(held).feed(frame, piece))
}
