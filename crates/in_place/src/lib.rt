// The library's entry on a session that the host keeps.
#![tactic(auto)]

ghost use Rattle.element.specs.Executed.{Executes};

use rules::Session;

// One command, as `element::execute` carries it out, on the session behind the reference.
// The outcome is the number of `Executes`.
pub fn execute_in_place(
    command: &[u8],
    store: &mut [u8],
    session: &mut Session,
    room: &mut [u8],
) -> u8
    ensures { Executes command.now room.old store.old session.old
        (record { outcome = result; session = session.new }) room.new store.new }
{
    let was = *session;
    let answer = element::execute(command, store, was, room);
    *session = answer.session;
    answer.outcome
}
