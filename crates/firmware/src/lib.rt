// What firmware links: C names over lent buffers and a session of four bytes. include/element.h states each promise in plain words.
#![tactic(auto)]

ghost use Rattle.std.specs.Prelude.{◌≡◌, ◌&&◌};
ghost use Rattle.rules.specs.Basic.{is_some};
ghost use Rattle.rules.specs.Layout.{unpack};
ghost use Rattle.rules.specs.Factory.{fresh_session, factory_outcome, factory_made};
ghost use Rattle.frames.specs.Frames.{in_frame, HostWrites};
ghost use Rattle.frames.specs.declared.Kind.TheVariants.{Command, Response};
ghost use Rattle.dock.specs.declared.Stream.TheVariants.{Collecting};
ghost use Rattle.dock.specs.Host.{host_of, host_left, host_feeding};
ghost use Rattle.firmware.specs.Host.{session_of, opened_byte, bytes_of, left, HostExecutes};
ghost use Rattle.firmware.specs.Lists.{all_fit, HostRun};

use dock::{HostFed, HostStream};
use factory::WrongSize;
use frames::Kind;
use rules::Session;

// The session as a host in C keeps it. opened is 0 for closed; any other byte is open.
#[repr(C)]
#[derive(Clone, Copy, Debug, PartialEq, Eq)]
pub struct HostSession {
    pub opened: u8,
    pub lcsg: u8,
    pub lcsa: u8,
    pub error: u8,
}

impl From<HostSession> for Session {
    ghost from_gives = { λ bytes session. session ≡ session_of bytes };

    #[tactic(auto, unfolding(crate::specs::Host::session_of))]
    fn from(bytes: HostSession) -> Session {
        Session {
            opened: bytes.opened != 0,
            lcsg: bytes.lcsg,
            lcsa: bytes.lcsa,
            error: bytes.error,
        }
    }
}

// The byte of an open application stays as it is.
#[tactic(auto, unfolding(crate::specs::Host::opened_byte))]
fn opened_byte(was: u8, opened: bool) -> u8
    ensures { result ≡ opened_byte was opened }
{
    if opened { was.max(1) } else { 0 }
}

// Of two values: the byte that the host has is kept.
#[tactic(auto, unfolding(crate::specs::Host::bytes_of))]
fn bytes_of(was: HostSession, session: Session) -> HostSession
    ensures { result ≡ bytes_of was session }
{
    HostSession {
        opened: opened_byte(was.opened, session.opened),
        lcsg: session.lcsg,
        lcsa: session.lcsa,
        error: session.error,
    }
}

// One command, with the session where the host keeps it.
#[unsafe(no_mangle)]
pub extern "C" fn element_execute(
    command: &[u8],
    store: &mut [u8],
    session: &mut HostSession,
    room: &mut [u8],
) -> u8
    ensures { HostExecutes command.now room.old store.old session.old
        (left result room.new store.new session.new) }
{
    let was = *session;
    let answer = element::execute(command, store, was.into(), room);
    *session = bytes_of(was, answer.session);
    answer.outcome
}

// Whether there are as many sizes as that, and they add up to no more than the total.
fn all_fit(sizes: &[usize], count: usize, total: usize) -> bool
    ensures { result ≡ all_fit count sizes.now total }
{
    if sizes.len() < count {
        return false;
    }
    let mut left = total;
    for size in &sizes[..count] {
        if left < *size {
            return false;
        }
        left -= *size;
    }
    true
}

// Whether the sizes of so many commands and of their rooms fit what is lent.
fn fit(sizes: &[usize], commands: usize, spaces: &[usize], rooms: usize, count: usize) -> bool
    ensures { result ≡ (all_fit count sizes.now commands && all_fit count spaces.now rooms) }
{
    all_fit(sizes, count, commands) && all_fit(spaces, count, rooms)
}

// A list of commands, with the session where the host keeps it; outcome 2 where a size is missing or too large.
#[unsafe(no_mangle)]
pub extern "C" fn element_run(
    commands: &[u8],
    sizes: &[usize],
    store: &mut [u8],
    session: &mut HostSession,
    rooms: &mut [u8],
    spaces: &[usize],
    outcomes: &mut [u8],
) -> u8
    ensures { HostRun commands sizes store session.old rooms spaces outcomes result session.new }
{
    let was = *session;
    if !fit(sizes, commands.len(), spaces, rooms.len(), outcomes.len()) {
        return 2;
    }
    let after = runs::run(commands, sizes, store, was.into(), rooms, spaces, outcomes);
    *session = bytes_of(was, after);
    0
}

#[unsafe(no_mangle)]
pub extern "C" fn element_check_store(store: &[u8]) -> bool
    ensures { result ≡ is_some (unpack store.now) }
{
    store::check_store(store)
}

#[unsafe(no_mangle)]
pub extern "C" fn element_make_factory_store(store: &mut [u8]) -> u8
    ensures { (result ≡ factory_outcome store.old) × (store.new ≡ factory_made store.old) }
{
    match factory::make_factory_store(store) {
        Ok(()) => 0,
        Err(WrongSize) => 2,
    }
}

// A new session: as the rules give it, in bytes that were 0.
#[unsafe(no_mangle)]
pub extern "C" fn element_fresh_session() -> HostSession
    ensures { result ≡ bytes_of (record { opened = 0; lcsg = 0; lcsa = 0; error = 0 }) fresh_session }
{
    let nothing = HostSession {
        opened: 0,
        lcsg: 0,
        lcsa: 0,
        error: 0,
    };
    bytes_of(nothing, factory::fresh_session())
}

// A stream at the dock, between frames: where it starts, and its reset.
#[unsafe(no_mangle)]
pub extern "C" fn dock_start() -> HostStream
    ensures { result ≡ host_of (Collecting (in_frame 0)) }
{
    dock::start_for_host()
}

// A piece of what comes in at the dock.
#[unsafe(no_mangle)]
pub extern "C" fn dock_feed(
    stream: HostStream,
    frame: &mut [u8; frames::LONGEST],
    piece: &[u8],
) -> HostFed
    ensures { host_left result frame.new ≡ host_feeding stream frame.old piece.now }
{
    dock::feed_for_host(stream, frame, piece)
}

#[unsafe(no_mangle)]
pub extern "C" fn dock_write_command(body: &[u8], room: &mut [u8]) -> u8
    ensures { HostWrites Command body.now room.old result room.new }
{
    frames::write_for_host(Kind::Command, body, room)
}

#[unsafe(no_mangle)]
pub extern "C" fn dock_write_response(body: &[u8], room: &mut [u8]) -> u8
    ensures { HostWrites Response body.now room.old result room.new }
{
    frames::write_for_host(Kind::Response, body, room)
}
