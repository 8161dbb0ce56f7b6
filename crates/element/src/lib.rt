// The library's entry: one command.
#![tactic(auto)]

ghost use Rattle.std.specs.Prelude.{◌≡◌, true, [], ◌≤◌, length};
ghost use Rattle.rules.specs.Verdict.{accepted};
ghost use Rattle.rules.specs.declared.Row.TheVariants.{OnObject};
ghost use Rattle.rules.specs.Basic.{is_some, or_else};
ghost use Rattle.rules.specs.Command.{row};
ghost use Rattle.rules.specs.Response.{code, done_response, refused_response, put_in_front};
ghost use Rattle.rules.specs.Layout.{unpack};
ghost use Rattle.rules.specs.Access.{seen_in};
ghost use Rattle.rules.specs.Refusals.{early, ruling_on, late};
ghost use Rattle.rules.specs.Step.{raised, performed, judged};
ghost use Rattle.command.specs.Table.{InFull, BodySent};
ghost use Rattle.judge.specs.Targets.{target_object, Placed};
ghost use Rattle.element.specs.Executed.{executed, Executes};

use access::Counters;
use judge::Target;
use rules::{Action, Refusal, Row, Session};

// The outcome number and the session after a command.
// The outcome is a number as in `After` of the rules, which `executed` makes of it.
#[derive(Clone, Copy, Debug, PartialEq, Eq)]
pub struct Answer {
    pub outcome: u8,
    pub session: Session,
}

// What is done at the target of an accepted get or set, its own change and then the step of each counter that it uses up: the session after it. A
// number that names nothing was refused at step 9.
fn perform(
    asked: Action,
    command: &[u8],
    aim: Option<Target>,
    counters: &Counters,
    store: &mut [u8],
    session: Session,
    room: &mut [u8],
) -> Session
    requires { InFull asked command.now × BodySent asked command.now × (is_some (unpack store.old) ≡ true) × Placed aim command.now store.old
        × (late (ruling_on asked command.now (target_object aim store.old) (seen_in store.old session)) (length room.old) ≡ accepted)
        × (counters.now ≡ (ruling_on asked command.now (target_object aim store.old) (seen_in store.old session)).counters) }
    ensures { executed (record { outcome = 0; session = result }) room.new store.new
        ≡ performed (ruling_on asked command.now (target_object aim store.old) (seen_in store.old session))
        room.old (or_else (unpack store.old) []) }
{
    let Some(target) = aim else {
        return session;
    };
    match target {
        Target::InSession(number, _, byte) => act::act_in_session(
            asked, command, number, byte, session, room,
        ),
        Target::InStore(at) => {
            act::act_on_record(asked, command, store, at, room);
            usage::use_up(store, counters);
            session
        }
    }
}

// A refusal: four bytes of the room and the last error.
fn refuse(refusal: Refusal, session: Session, room: &mut [u8]) -> Answer
    requires { 4 ≤ length room.old }
    ensures { (result.outcome ≡ 0) × (result.session ≡ raised (code refusal) session)
        × (room.new ≡ put_in_front refused_response room.old) }
{
    response::refuse(room);
    Answer {
        outcome: 0,
        session: session::raised(u8::from(refusal), session),
    }
}

// A get or set that the steps 2 to 8 accept: steps 9 to 13, then the refusal or the act.
fn on_object(
    asked: Action,
    command: &[u8],
    store: &mut [u8],
    session: Session,
    room: &mut [u8],
) -> Answer
    requires { (early (is_some (unpack store.old)) command.now session ≡ accepted) × (row command.now ≡ OnObject asked) × (4 ≤ length room.old) }
    ensures { executed result room.new store.new
        ≡ judged command.now room.old store.old (unpack store.old) session }
{
    let aim = judge::find_target(command, store, session);
    let judgment = judge::judge_target(asked, command, aim, store, session, room.len());
    match judgment.verdict {
        Err(refusal) => refuse(refusal, session, room),
        Ok(()) => Answer {
            outcome: 0,
            session: perform(
                asked,
                command,
                aim,
                &judgment.counters,
                store,
                session,
                room,
            ),
        },
    }
}

// Done, with no data: this is the session after it.
fn set_session(session: Session, room: &mut [u8]) -> Answer
    requires { 4 ≤ length room.old }
    ensures { (result.outcome ≡ 0) × (result.session ≡ session) × (room.new ≡ put_in_front (done_response []) room.old) }
{
    response::done(room);
    Answer {
        outcome: 0,
        session,
    }
}

// A command that the steps 2 to 8 accept.
// A match and no closures: the rows are complete, and rt ci refuses a function that hands out a closure.
fn carry_out(command: &[u8], store: &mut [u8], session: Session, room: &mut [u8]) -> Answer
    requires { (early (is_some (unpack store.old)) command.now session ≡ accepted) × (4 ≤ length room.old) }
    ensures { executed result room.new store.new
        ≡ judged command.now room.old store.old (unpack store.old) session }
{
    match command::row_of_command(command) {
        Row::OnObject(action) => on_object(action, command, store, session, room),
        Row::OpenApplication => set_session(session::with_opened(true, session), room),
        Row::CloseApplication => set_session(session::with_opened(false, session), room),
        Row::Unknown => set_session(session, room),
    }
}

// One command: the answer, and the room and the store as they are left, are the rules'.
pub fn execute(command: &[u8], store: &mut [u8], session: Session, room: &mut [u8]) -> Answer
    ensures { Executes command.now room.old store.old session result room.new store.new }
{
    if room.len() < 4 {
        return Answer {
            outcome: 1,
            session,
        };
    }
    let flushed = command::flushed(command, session);
    let sound = store::check_store(store);
    match command::early(sound, command, flushed) {
        Err(refusal) => refuse(refusal, flushed, room),
        Ok(()) => carry_out(command, store, flushed, room),
    }
}
