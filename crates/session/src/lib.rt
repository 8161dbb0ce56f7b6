// The session with one part changed.
#![tactic(auto)]

ghost use Rattle.std.specs.Prelude.{◌≡◌};
ghost use Rattle.rules.specs.Session.{with_opened, with_error, with_state};
ghost use Rattle.rules.specs.Step.{raised};

use rules::{ObjectNumber, Session};

#[tactic(auto, unfolding(rules::specs::Session::with_opened))]
// One line for each part that others change: the part is the clause.
pub fn with_opened(opened: bool, session: Session) -> Session
    ensures { result ≡ with_opened opened session }
{
    Session { opened, ..session }
}

#[tactic(auto, unfolding(rules::specs::Session::with_error))]
pub fn with_error(error: u8, session: Session) -> Session
    ensures { result ≡ with_error error session }
{
    Session { error, ..session }
}

// A life cycle written, where the number is that of one.
#[tactic(auto, unfolding(rules::specs::Session::with_state, rules::specs::Session::with_lcsg, rules::specs::Session::with_lcsa))]
pub fn with_state(number: ObjectNumber, state: u8, session: Session) -> Session
    ensures { result ≡ with_state number.0 state session }
{
    match number.0 {
        0xE0C0 => Session {
            lcsg: state,
            ..session
        },
        0xF1C0 => Session {
            lcsa: state,
            ..session
        },
        _ => session,
    }
}

// The larger error is kept.
#[tactic(auto, unfolding(rules::specs::Step::raised))]
pub fn raised(code: u8, session: Session) -> Session
    ensures { result ≡ raised code session }
{
    with_error(session.error.max(code), session)
}
