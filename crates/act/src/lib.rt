// What an accepted action does, at an object of the session and at a found record.
#![tactic(auto)]

ghost use Rattle.std.specs.Prelude.{◌≡◌, ◌&&◌, [], ◌∷◌, ◌+◌, ◌≤◌, eqb, leb, length, get_or, if◌then◌else◌};
ghost use Rattle.rules.specs.Command.{offset};
ghost use Rattle.rules.specs.Object.{used};
ghost use Rattle.rules.specs.Session.{with_error, with_state};
ghost use Rattle.command.specs.Table.{InFull};
ghost use Rattle.record.specs.Places.{object_at, Stored};
ghost use Rattle.rules.specs.Operation.{shown};
ghost use Rattle.act.specs.Acting.{done_with, session_does, record_does, InSessionMay, OnRecordMay, stored_at};

use record::StoredObject;
use rules::{Action, Length, ObjectNumber, Session};

// The session after so many bytes of its object of this number were shown: a last error that was returned is cleared.
fn shown_session(number: ObjectNumber, shown: Length, session: Session) -> Session
    ensures { result ≡ (if eqb number.0 0xF1C2 && leb 1 shown.0 then with_error 0 session else session) }
{
    if number.0 == 0xF1C2 && 1 <= shown.0 {
        session::with_error(0, session)
    } else {
        session
    }
}

// Answers a get of data from an object of the session: the session after it.
fn show_byte(
    command: &[u8],
    number: ObjectNumber,
    byte: u8,
    session: Session,
    room: &mut [u8],
) -> Session
    requires { (10 ≤ length command.now) × (4 + length (shown command.now (byte ∷ [])) ≤ length room.old) }
    ensures { (result ≡ (if eqb number.0 0xF1C2 && leb 1 (length (shown command.now (byte ∷ []))) then with_error 0 session else session))
        × (room.new ≡ done_with (shown command.now (byte ∷ [])) room.old) }
{
    let asked = command::asked_length(command);
    let shown = bounds::shown_length(command::offset(command), asked, Length(1));
    response::answer(room, &[byte][..shown.0]);
    shown_session(number, shown, session)
}

// A life cycle takes the byte sent: the session after it.
fn set_state(command: &[u8], number: ObjectNumber, session: Session, room: &mut [u8]) -> Session
    requires { (9 ≤ length command.now) × (4 ≤ length room.old) }
    ensures { (result ≡ with_state number.0 (get_or command.now 8 0) session) × (room.new ≡ done_with [] room.old) }
{
    response::done(room);
    session::with_state(number, command[8], session)
}

// At an object of the session: the session after it. Its metadata, a count, an append and an acknowledgement were refused before.
// A match on the rules' actions: closures for them would have to be handed out.
pub fn act_in_session(
    asked: Action,
    command: &[u8],
    number: ObjectNumber,
    byte: u8,
    session: Session,
    room: &mut [u8],
) -> Session
    requires { InFull asked command.now × InSessionMay asked command.now byte (length room.old) }
    ensures { (result ≡ (session_does asked command.now number.0 byte session).session)
        × (room.new ≡ done_with (session_does asked command.now number.0 byte session).answer room.old) }
{
    match asked {
        Action::GetData => show_byte(command, number, byte, session, room),
        Action::GetMetadata => session,
        Action::Write => set_state(command, number, session, room),
        Action::EraseAndWrite => set_state(command, number, session, room),
        Action::SetMetadata => session,
        Action::Count => session,
        Action::Append => session,
        Action::Acknowledge => session,
    }
}

// Answers a get of data from a stored object: the stored bytes, a part of the store, are copied into the room.
fn show_data(command: &[u8], object: &StoredObject<'_>, room: &mut [u8])
    requires { (10 ≤ length command.now) × (offset command.now ≤ used object.now)
        × (4 + length (shown command.now object.now.content) ≤ length room.old) }
    ensures { room.new ≡ done_with (shown command.now object.now.content) room.old }
{
    let from = command::offset(command);
    let asked = command::asked_length(command);
    let count = bounds::shown_length(from, asked, object.used());
    response::answer(room, object.data(from, count));
}

// At a found record: the session stays.
// The store is lent to be changed: a place stands beside it, and no StoredObject, which lends it shared.
pub fn act_on_record(asked: Action, command: &[u8], store: &mut [u8], at: usize, room: &mut [u8])
    requires { Stored at store.old × InFull asked command.now × OnRecordMay asked command.now (object_at at store.old) (length room.old) }
    ensures { (store.new
        ≡ stored_at at (record_does asked command.now (object_at at store.old)).stores store.old)
        × (room.new ≡ done_with (record_does asked command.now (object_at at store.old)).answer room.old) }
{
    match asked {
        Action::GetData => {
            let object = StoredObject::at(store, at);
            show_data(command, &object, room);
        }
        Action::GetMetadata => {
            let object = StoredObject::at(store, at);
            answer::write_answer(&object, room);
        }
        Action::Write => {
            let from = command::offset(command);
            change::write(store, at, from, command::sent_data(command));
            response::done(room);
        }
        Action::EraseAndWrite => {
            let from = command::offset(command);
            change::erase_and_write(store, at, from, command::sent_data(command));
            response::done(room);
        }
        Action::SetMetadata => {
            content::store_content(store, at, command::sent_metadata(command));
            response::done(room);
        }
        Action::Count => {
            change::count(store, at, command::step_byte(command));
            response::done(room);
        }
        Action::Append => {
            fares::append(store, at, command::sent_body(command));
            response::done(room);
        }
        Action::Acknowledge => {
            fares::acknowledge(store, at, command::sent_number(command));
            response::done(room);
        }
    }
}
