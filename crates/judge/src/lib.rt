// The object that a command names, and the steps 9 to 13.
#![tactic(auto)]

ghost use Rattle.std.specs.Prelude.{◌≡◌, true, [], ◌≤◌, length};
ghost use Rattle.std.proofs.Math.Option.{some};
ghost use Rattle.rules.specs.declared.Kind.TheVariants.{LifeCycle};
ghost use Rattle.rules.specs.declared.Action.TheVariants.{GetData, Write, SetMetadata, Count, Append, Acknowledge};
ghost use Rattle.rules.specs.Basic.{is_some};
ghost use Rattle.rules.specs.Command.{object_number, offset, sent_data};
ghost use Rattle.rules.specs.Object.{Object, used, is};
ghost use Rattle.rules.specs.Layout.{unpack};
ghost use Rattle.rules.specs.Access.{seen_in, named};
ghost use Rattle.rules.specs.Operation.{write_fits};
ghost use Rattle.rules.specs.Refusals.{ruling_on};
ghost use Rattle.command.specs.Table.{InFull};
ghost use Rattle.judge.specs.Targets.{target_object, Placed};
ghost use Rattle.judge.specs.Verdicts.{state_verdict, own_verdict, session_refused, session_verdict};
ghost use Rattle.judge.specs.Judges.{Judges};

use access::Counters;
use record::StoredObject;
use rules::{Action, Kind, Length, ObjectNumber, Refusal, Session, Verdict, refuse_if};

// What a get or set names: an object of the session (its number, kind and byte), or a record's place.
#[derive(Clone, Copy, Debug, PartialEq, Eq)]
pub enum Target {
    InSession(ObjectNumber, Kind, u8),
    InStore(usize),
}

// What the steps 9 to 13 say of a command, and the counters that it uses up where they accept it: `Judges` gives both of any command.
#[derive(Clone, Copy)]
pub struct Judgment {
    pub verdict: Verdict,
    pub counters: Counters,
}

pub fn find_target(command: &[u8], store: &[u8], session: Session) -> Option<Target>
    requires { (6 ≤ length command.now) × (is_some (unpack store.now) ≡ true) }
    ensures { (target_object result store.now ≡ named (object_number command.now) (seen_in store.now session))
        × Placed result command.now store.now }
{
    let number = command::object_number(command);
    match number.0 {
        0xE0C0 => Some(Target::InSession(number, Kind::LifeCycle, session.lcsg)),
        0xF1C0 => Some(Target::InSession(number, Kind::LifeCycle, session.lcsa)),
        0xF1C2 => Some(Target::InSession(number, Kind::Status, session.error)),
        _ => {
            let at = store::find_record(store, number)?;
            Some(Target::InStore(at))
        }
    }
}

// Steps 11 and 13 of a get of data, from any object of which so many bytes are in use.
fn judge_get(command: &[u8], in_use: Length, room: usize) -> Verdict
    requires { 10 ≤ length command.now }
    ensures { (o : Object) → used o ≡ in_use.0 → result ≡ own_verdict GetData command.now o room }
{
    let from = command::offset(command);
    bounds::judge_read(from, command::asked_length(command), in_use, room)
}

// Whether what is sent fits an object of this kind and maximum: a counter takes all of its bytes at once.
fn write_fits(command: &[u8], kind: Kind, maximum: Length) -> bool
    requires { 8 ≤ length command.now }
    ensures { (o : Object) → o.kind ≡ kind → o.maximum ≡ maximum.0
        → result ≡ write_fits o (offset command.now) (length (sent_data command.now)) }
{
    let from = command::offset(command);
    let count = Length(command::sent_data(command).len());
    match kind {
        Kind::Counter(_) => from.0 == 0 && count.0 == counter::SIZE,
        _ => bounds::fits(from, count, maximum),
    }
}

// Steps 11 and 13 of a write of data, erasing or not, to a stored object.
fn judge_write(command: &[u8], object: &StoredObject<'_>, room: usize) -> Verdict
    requires { 8 ≤ length command.now }
    ensures { result ≡ own_verdict Write command.now object.now room }
{
    let fits = write_fits(command, object.kind(), object.maximum());
    refuse_if(!fits, Refusal::BoundaryExceeded)?;
    bounds::fitting(Length(0), room)
}

// Of a count at a stored object: 03 where it is no counter, then the steps 11 and 13.
fn judge_count(command: &[u8], object: &StoredObject<'_>, room: usize) -> Verdict
    requires { 8 ≤ length command.now }
    ensures { result ≡ own_verdict Count command.now object.now room }
{
    let front = command::offset(command).0 == 0;
    refuse_if(!object.is_counter(), Refusal::InvalidParam)?;
    refuse_if(!front, Refusal::BoundaryExceeded)?;
    refuse_if(object.is_exhausted(), Refusal::BoundaryExceeded)?;
    bounds::fitting(Length(0), room)
}

// Of an append at a stored object.
// Two calls: they differ in the function that judges and in the part of the command.
fn judge_append(command: &[u8], object: &StoredObject<'_>, room: usize) -> Verdict
    requires { 6 ≤ length command.now }
    ensures { result ≡ own_verdict Append command.now object.now room }
{
    fares::judge_append(object, command::sent_body(command))?;
    bounds::fitting(Length(0), room)
}

// Of an acknowledgement at a stored object.
fn judge_acknowledge(command: &[u8], object: &StoredObject<'_>, room: usize) -> Verdict
    requires { 10 ≤ length command.now }
    ensures { result ≡ own_verdict Acknowledge command.now object.now room }
{
    fares::judge_acknowledge(object, command::sent_number(command))?;
    bounds::fitting(Length(0), room)
}

// Steps 12 and 13 of a set of metadata at a stored object: content is judged at the LcsO that is stored.
fn judge_metadata(command: &[u8], object: &StoredObject<'_>, room: usize) -> Verdict
    requires { 6 ≤ length command.now }
    ensures { result ≡ own_verdict SetMetadata command.now object.now room }
{
    let stored = object.lcso();
    let allowed = content::content_allowed(command::sent_metadata(command), stored);
    refuse_if(!allowed, Refusal::InvalidData)?;
    bounds::fitting(Length(0), room)
}

// Steps 11 to 13 at a stored object, where access is granted.
// A match on the rules' actions: closures for them would have to be handed out.
// `asked` and `command` stand apart, as in `ruling_on` of the rules.
fn judge_own(asked: Action, command: &[u8], object: &StoredObject<'_>, room: usize) -> Verdict
    requires { InFull asked command.now }
    ensures { result ≡ own_verdict asked command.now object.now room }
{
    match asked {
        Action::GetData => judge_get(command, object.used(), room),
        Action::GetMetadata => bounds::fitting(answer::answer_length(object), room),
        Action::Write => judge_write(command, object, room),
        Action::EraseAndWrite => judge_write(command, object, room),
        Action::SetMetadata => judge_metadata(command, object, room),
        Action::Count => judge_count(command, object, room),
        Action::Append => judge_append(command, object, room),
        Action::Acknowledge => judge_acknowledge(command, object, room),
    }
}

// Whether the kind is that of a life cycle: another object of the session may not be written.
fn is_life_cycle(kind: Kind) -> bool
    ensures { result ≡ is LifeCycle kind }
{
    matches!(kind, Kind::LifeCycle)
}

// Steps 10 to 13 of a write to an object of the session, which holds one byte: a life cycle does not fall.
fn judge_state(command: &[u8], kind: Kind, byte: u8, room: usize) -> Verdict
    requires { 9 ≤ length command.now }
    ensures { result ≡ state_verdict command.now kind byte room }
{
    let data = command::sent_data(command);
    let within = bounds::fits(command::offset(command), Length(data.len()), Length(1));
    let becomes = expression::may_become(byte, command[8]);
    refuse_if(!is_life_cycle(kind), Refusal::AccessDenied)?;
    refuse_if(!within, Refusal::BoundaryExceeded)?;
    refuse_if(!becomes, Refusal::InvalidData)?;
    bounds::fitting(Length(0), room)
}

// A count, an append or an acknowledgement at an object of the session: a life cycle is of another kind, and another one may not be changed.
fn refuse_in_session(kind: Kind) -> Verdict
    ensures { result ≡ session_refused kind }
{
    refuse_if(is_life_cycle(kind), Refusal::InvalidParam)?;
    Err(Refusal::AccessDenied)
}

// Steps 10 to 13 at an object of the session.
fn judge_session(asked: Action, command: &[u8], kind: Kind, byte: u8, room: usize) -> Verdict
    requires { InFull asked command.now }
    ensures { result ≡ session_verdict asked command.now kind byte room }
{
    match asked {
        Action::GetData => judge_get(command, Length(1), room),
        Action::GetMetadata => Err(Refusal::AccessDenied),
        Action::Write => judge_state(command, kind, byte, room),
        Action::EraseAndWrite => judge_state(command, kind, byte, room),
        Action::SetMetadata => Err(Refusal::AccessDenied),
        Action::Count => refuse_in_session(kind),
        Action::Append => refuse_in_session(kind),
        Action::Acknowledge => refuse_in_session(kind),
    }
}

// A verdict on what uses up no counter.
fn without_counters(verdict: Verdict) -> Judgment
    ensures { (result.verdict ≡ verdict) × (result.counters ≡ []) }
{
    Judgment {
        verdict,
        counters: Counters::none(),
    }
}

// Steps 10 to 13 at a stored object, and the counters that its expression uses up: they are listed before anything is written.
fn judge_stored(
    asked: Action,
    command: &[u8],
    object: &StoredObject<'_>,
    store: &[u8],
    session: Session,
    room: usize,
) -> Judgment
    requires { (is_some (unpack store.now) ≡ true) × InFull asked command.now }
    ensures { Judges result (ruling_on asked command.now (some object.now) (seen_in store.now session)) room }
{
    let Some(counters) = access::granted(asked, object, store, session) else {
        return without_counters(Err(Refusal::AccessDenied));
    };
    Judgment {
        verdict: judge_own(asked, command, object, room),
        counters,
    }
}

// Steps 9 to 13, at the target that the command names, if it names one.
pub fn judge_target(
    asked: Action,
    command: &[u8],
    aim: Option<Target>,
    store: &[u8],
    session: Session,
    room: usize,
) -> Judgment
    requires { InFull asked command.now × (is_some (unpack store.now) ≡ true) × Placed aim command.now store.now }
    ensures { Judges result
        (ruling_on asked command.now (target_object aim store.now) (seen_in store.now session)) room }
{
    let Some(target) = aim else {
        return without_counters(Err(Refusal::InvalidObject));
    };
    match target {
        Target::InSession(_, kind, byte) => {
            without_counters(judge_session(asked, command, kind, byte, room))
        }
        Target::InStore(at) => {
            let object = StoredObject::at(store, at);
            judge_stored(asked, command, &object, store, session, room)
        }
    }
}
