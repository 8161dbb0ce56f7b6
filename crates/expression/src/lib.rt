// Life cycle states and the form of access expressions in their bytes.
#![tactic(auto)]

ghost use Rattle.std.specs.Prelude.{◌≡◌, [], ◌∷◌, ◌+◌, ◌<◌, ◌≤◌, length};
ghost use Rattle.rules.specs.Basic.{is_some};
ghost use Rattle.rules.specs.Expression.{is_state, may_become, expression, condition_allowed};
ghost use Rattle.expression.specs.Conditions.{condition_at, groups_after};

// Limits of an expression: conditions, groups, bytes. A condition is three bytes; one byte joins two.
pub const CONDITIONS: usize = 7;

const GROUPS: usize = 3;

pub const LONGEST: usize = 4 * CONDITIONS - 1;

// The single bytes that are expressions.
pub const ALWAYS: u8 = 0x00;

const NEVER: u8 = 0xFF;

// What a condition on a counter begins with; the counter's number follows.
pub const COUNTER: u8 = 0x40;

// What a condition on a state begins with: whose state it is. Then what the state is to a given one, which follows.
// Numbers and no enums: `present` and `state_holds` of the rules give a state and an answer for every byte.
pub const LCSG: u8 = 0x70;

pub const LCSA: u8 = 0xE0;

pub const LCSO: u8 = 0xE1;

pub const EQUAL: u8 = 0xFA;

pub const GREATER: u8 = 0xFB;

pub const LESS: u8 = 0xFC;

// What joins two conditions.
pub const AND: u8 = 0xFD;

pub const OR: u8 = 0xFE;

// Whether the byte is a life cycle state: a number and no enum, since a session may hold any byte.
#[tactic(auto, unfolding(rules::specs::Basic::among, rules::specs::Expression::is_state))]
pub fn is_state(b: u8) -> bool
    ensures { result ≡ is_state b }
{
    matches!(b, 0x01 | 0x03 | 0x07 | 0x0F)
}

// Whether a life cycle may go from its present state to the next.
#[tactic(auto, unfolding(rules::specs::Expression::may_become))]
pub fn may_become(present: u8, next: u8) -> bool
    ensures { result ≡ may_become present next }
{
    is_state(next) && present <= next
}

// Whether the condition of the three bytes at `at` is well formed. The subjects are tested together: as arms of one match with the
// counter's they are guessed wrong, and the check of long expressions takes half as long again.
#[tactic(auto, unfolding(rules::specs::Basic::all, rules::specs::Basic::among, rules::specs::Expression::names_counter, rules::specs::Expression::condition_allowed, crate::specs::Conditions::condition_at))]
pub fn condition_allowed(part: &[u8], at: usize) -> bool
    requires { at + 2 < length part.now }
    ensures { result ≡ condition_allowed (condition_at at part.now) }
{
    if !matches!(part[at], LCSG | LCSA | LCSO) {
        return part[at] == COUNTER;
    }
    matches!(part[at + 1], EQUAL | GREATER | LESS) && is_state(part[at + 2])
}

// How many groups may still come, the present one counted, behind a byte that joins; none where it does not, or begins one too many.
// The number is chosen before it is tested: a branch on the byte is often guessed wrong.
#[tactic(auto, unfolding(crate::specs::Conditions::groups_after))]
fn groups_after(joint: u8, groups: usize) -> Option<usize>
    requires { 1 ≤ groups }
    ensures { result ≡ groups_after joint groups }
{
    let left = match joint {
        AND => groups,
        OR => groups - 1,
        _ => 0,
    };
    (0 < left).then_some(left)
}

// Whether one byte is an expression.
#[tactic(auto, using(crate::proofs::Forms::single_by))]
pub fn single(b: u8) -> bool
    ensures { result ≡ is_some (expression (b ∷ [])) }
{
    matches!(b, ALWAYS | NEVER)
}

// Whether these bytes are an access expression.
#[tactic(auto, using(crate::proofs::Forms::forms))]
pub fn well_formed(part: &[u8]) -> bool
    ensures { result ≡ is_some (expression part.now) }
{
    if let [byte] = part {
        return single(*byte);
    }
    if LONGEST < part.len() {
        return false;
    }
    let (joined, last) = part.as_chunks::<4>();
    let mut groups = GROUPS;
    for condition in joined {
        if !condition_allowed(condition, 0) {
            return false;
        }
        let Some(left) = groups_after(condition[3], groups) else {
            return false;
        };
        groups = left;
    }
    last.len() == 3 && condition_allowed(last, 0)
}
