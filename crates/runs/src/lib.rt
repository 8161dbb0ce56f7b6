// Runs of a list of commands over `execute`, and three of them side by side.
#![tactic(auto)]

ghost use Rattle.std.specs.Prelude.{◌≡◌, ◌+◌, ◌≤◌, min, length, get_or};
ghost use Rattle.element.specs.Executed.{executed};
ghost use Rattle.runs.specs.Lists.{told, in_place};
ghost use Rattle.runs.specs.Demand.{ThreeRuns, IsRun, called};

use element::Answer;
use rules::Session;

// The size at i, or 0 where there is none, but no more than is left.
fn fitted(sizes: &[usize], i: usize, left: usize) -> usize
    ensures { result ≡ min (get_or sizes.now i 0) left }
{
    sizes.get(i).copied().unwrap_or(0).min(left)
}

// The command of n bytes at `at`, in the room of m bytes at `to`.
fn turn(
    commands: &[u8],
    at: usize,
    n: usize,
    store: &mut [u8],
    session: Session,
    rooms: &mut [u8],
    to: usize,
    m: usize,
) -> Answer
    requires { (at + n ≤ length commands.now) × (to + m ≤ length rooms.old) }
    ensures { executed result rooms.new store.new
        ≡ in_place to rooms.old (told commands.now rooms.old store.old session at n to m) }
{
    let end = at + n;
    let stop = to + m;
    element::execute(&commands[at..end], store, session, &mut rooms[to..stop])
}

// Executes a list of commands one after another, each on what the one before left. All commands stand end to end, and so do
// their rooms, which the host reads in place; there are as many commands as bytes for outcomes. Sizes are usize, so that no
// command and no room is too long for a list; a missing size is 0, and one that reaches past the end is cut.
// The parameters are those of `element_run`.
pub fn run(
    commands: &[u8],
    sizes: &[usize],
    store: &mut [u8],
    session: Session,
    rooms: &mut [u8],
    spaces: &[usize],
    outcomes: &mut [u8],
) -> Session
    ensures { IsRun (called commands sizes store session rooms spaces outcomes result) }
{
    let mut kept = session;
    let mut at = 0;
    let mut to = 0;
    for i in 0..outcomes.len() {
        let n = fitted(sizes, i, commands.len() - at);
        let m = fitted(spaces, i, rooms.len() - to);
        let answer = turn(commands, at, n, store, kept, rooms, to, m);
        outcomes[i] = answer.outcome;
        kept = answer.session;
        at += n;
        to += m;
    }
    kept
}

// The sessions that three runs end with.
#[derive(Clone, Copy)]
pub struct Sessions {
    pub mix: Session,
    pub here: Session,
    pub there: Session,
}

// Three runs from one session, each on a store of its own: of a mix of two lists, of the first list and then the second (here),
// and of the second and then the first (there).
pub fn side_by_side(
    mix_commands: &[u8],
    mix_sizes: &[usize],
    mix_store: &mut [u8],
    mix_rooms: &mut [u8],
    mix_spaces: &[usize],
    mix_outcomes: &mut [u8],
    here_commands: &[u8],
    here_sizes: &[usize],
    here_store: &mut [u8],
    here_rooms: &mut [u8],
    here_spaces: &[usize],
    here_outcomes: &mut [u8],
    there_commands: &[u8],
    there_sizes: &[usize],
    there_store: &mut [u8],
    there_rooms: &mut [u8],
    there_spaces: &[usize],
    there_outcomes: &mut [u8],
    session: Session,
) -> Sessions
    ensures { ThreeRuns
        (called mix_commands mix_sizes mix_store session mix_rooms mix_spaces mix_outcomes result.mix)
        (called here_commands here_sizes here_store session here_rooms here_spaces here_outcomes result.here)
        (called there_commands there_sizes there_store session there_rooms there_spaces there_outcomes result.there) }
{
    let mix = run(
        mix_commands,
        mix_sizes,
        mix_store,
        session,
        mix_rooms,
        mix_spaces,
        mix_outcomes,
    );
    let here = run(
        here_commands,
        here_sizes,
        here_store,
        session,
        here_rooms,
        here_spaces,
        here_outcomes,
    );
    let there = run(
        there_commands,
        there_sizes,
        there_store,
        session,
        there_rooms,
        there_spaces,
        there_outcomes,
    );
    Sessions { mix, here, there }
}
