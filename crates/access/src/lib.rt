// Access: which expression an action asks of a stored object, whether it is granted, and which counters that uses up.
#![tactic(auto)]

ghost use Rattle.std.specs.Prelude.{◌≡◌, true, [], ◌∷◌, ◌++◌, ◌≤◌, ◌<◌, ◌||◌, eqb, length};
ghost use Rattle.rules.specs.Basic.{is_some, or_else};
ghost use Rattle.rules.specs.Expression.{slot_size, most_conditions, expression, read_expression};
ghost use Rattle.rules.specs.Layout.{unpack, find};
ghost use Rattle.rules.specs.Access.{seen, seen_in, present, state_holds, usable, condition_holds, condition_counters, grant, access};
ghost use Rattle.expression.specs.Conditions.{condition_at};
ghost use Rattle.access.specs.Told.{told};
ghost use Rattle.access.specs.Groups.{counter_named, ends_group};

use record::StoredObject;
use rules::{Action, ObjectNumber, Session, Slot};
use std::marker::Model;

// The bytes of a condition and of the byte that joins it to the next.
const JOINED: usize = 4;

// Numbers of counters, at most one for each condition, in fixed memory: seen as their list. Behind them the memory is 0, so that the list
// gives it back, and the type is Copy.
#[derive(Clone, Copy)]
pub struct Counters {
    count: usize,
    numbers: [u16; expression::CONDITIONS],
}

impl Model for Counters {
    ghost use Rattle.std.specs.Prelude.{ℕ, List, take, drop, ◌≤◌, ◌≡◌, ◌-◌, ◌++◌, length};
    ghost use Rattle.rules.specs.Basic.{zeros};
    ghost use Rattle.rules.specs.Expression.{slot_size, most_conditions};
    ghost use Rattle.access.specs.Memory.{count_back, numbers_back};

    ghost Value = { List ℕ };

    ghost view = { λ c. take c.count c.numbers };

    ghost invariant = { λ c. (c.count ≤ length c.numbers) × (length c.numbers ≡ most_conditions slot_size)
        × (drop c.count c.numbers ≡ zeros (most_conditions slot_size - c.count)) };

    ghost inverse = { λ ns. record { count = length ns; numbers = ns ++ zeros (most_conditions slot_size - length ns) } };

    ghost inverse_ok = { λ c h i. record { count = count_back c.count c.numbers h.0 i; numbers = numbers_back c.count c.numbers h.0 h.2 i } };
}

impl Counters {
    pub fn none() -> Self
        ensures { result ≡ [] }
    {
        Counters {
            count: 0,
            numbers: [0; expression::CONDITIONS],
        }
    }

    pub fn push(&mut self, number: u16)
        requires { length self.old < most_conditions slot_size }
        ensures { self.new ≡ self.old ++ number ∷ [] }
    {
        self.numbers[self.count] = number;
        self.count += 1;
    }

    // With the counter that a condition names, if it names one.
    #[tactic(auto, unfolding(rules::specs::Access::condition_counters))]
    fn push_named(&mut self, condition: &[u8])
        requires { (3 ≤ length condition.now) × (length self.old < most_conditions slot_size) }
        ensures { self.new ≡ self.old ++ condition_counters (condition_at 0 condition.now) }
    {
        if let Some(number) = counter_named(condition) {
            self.push(number);
        }
    }

    pub fn numbers(&self) -> &[u16]
        ensures list { result.now ≡ self.now }
        ensures few { length result.now ≤ most_conditions slot_size }
    {
        &self.numbers[..self.count]
    }
}

// The number of the counter that a condition names, if it names one.
// A condition is a slice: the last of an expression has three bytes, the others four.
#[tactic(auto, unfolding(expression::specs::Conditions::condition_at, rules::specs::Expression::names_counter, rules::specs::Expression::counter_number))]
fn counter_named(condition: &[u8]) -> Option<u16>
    requires { 3 ≤ length condition.now }
    ensures { result ≡ counter_named (condition_at 0 condition.now) }
{
    if condition[0] != expression::COUNTER {
        return None;
    }
    Some(primitives::big_endian_at(condition, 1))
}

// Whether a group ends with a condition: FE joins it to the next group, or nothing follows.
fn ends_group(condition: &[u8]) -> bool
    requires { 3 ≤ length condition.now }
    ensures { result ≡ ends_group condition.now }
{
    condition.len() < JOINED || condition[3] == expression::OR
}

// What the conditions of an expression see: a sound store, the session, and the LcsO of the object.
#[derive(Drop)]
struct Sight<'a> {
    store: &'a [u8],
    session: Session,
    lcso: u8,
    ghost sound: { is_some (unpack store.now) ≡ true },
}

impl Sight<'_> {
    // The state that a condition speaks of: its subject stays a number, since the rules give a state for every byte.
    #[tactic(auto, unfolding(rules::specs::Access::seen, rules::specs::Access::present))]
    fn state_of(&self, subject: u8) -> u8
        ensures { result ≡ present (seen [] self.now.session) self.now.lcso subject }
    {
        match subject {
            expression::LCSG => self.session.lcsg,
            expression::LCSA => self.session.lcsa,
            _ => self.lcso,
        }
    }

    // Whether a condition on a state holds: its relation stays a number, since the rules give an answer for every byte.
    #[tactic(auto, unfolding(rules::specs::Access::state_holds, expression::specs::Conditions::condition_at))]
    fn state_holds(&self, condition: &[u8]) -> bool
        requires { 3 ≤ length condition.now }
        ensures { result ≡ state_holds (seen [] self.now.session) self.now.lcso (condition_at 0 condition.now) }
    {
        let state = self.state_of(condition[0]);
        let reference = condition[2];
        match condition[1] {
            expression::EQUAL => state == reference,
            expression::GREATER => reference < state,
            _ => state < reference,
        }
    }

    // Whether there is an up counter of this number, below its threshold.
    #[tactic(auto, using(store::proofs::Ways::sound_leads, crate::proofs::Uses::not_usable, crate::proofs::Uses::counter_stored, crate::proofs::Uses::not_up, crate::proofs::Uses::up_usable, crate::proofs::Uses::up_counter))]
    fn is_usable(&self, number: ObjectNumber) -> bool
        ensures { result ≡ usable (find number.0 (or_else (unpack self.now.store.now) [])) }
    {
        let Some(at) = store::find_record(self.store, number) else {
            return false;
        };
        let object = StoredObject::at(self.store, at);
        object.is_up_counter() && !object.is_exhausted()
    }

    // Whether a condition holds.
    #[tactic(auto, unfolding(rules::specs::Access::condition_holds, rules::specs::Access::state_holds, rules::specs::Access::present, rules::specs::Access::seen, rules::specs::Expression::names_counter, rules::specs::Expression::counter_number, expression::specs::Conditions::condition_at))]
    fn condition_holds(&self, condition: &[u8]) -> bool
        requires { 3 ≤ length condition.now }
        ensures { result ≡ condition_holds (seen_in self.now.store.now self.now.session) self.now.lcso (condition_at 0 condition.now) }
    {
        match counter_named(condition) {
            Some(number) => self.is_usable(ObjectNumber(number)),
            None => self.state_holds(condition),
        }
    }

    // The counters of the first true group from the left, if one is true: FE ends a group, so and binds first.
    fn deciding_group(&self, part: &[u8]) -> Option<Counters>
        requires { (is_some (expression part.now) ≡ true) × (length part.now ≡ 1 → ⊥) }
        ensures { told result ≡ grant (seen_in self.now.store.now self.now.session) self.now.lcso (read_expression part.now) }
    {
        let mut counters = Counters::none();
        let mut held = true;
        for condition in part.chunks(JOINED) {
            held = held && self.condition_holds(condition);
            counters.push_named(condition);
            if ends_group(condition) {
                if held {
                    return Some(counters);
                }
                counters = Counters::none();
                held = true;
            }
        }
        None
    }

    // What the expression of these bytes grants.
    fn grant_of(&self, part: &[u8]) -> Option<Counters>
        requires { is_some (expression part.now) ≡ true }
        ensures { told result ≡ grant (seen_in self.now.store.now self.now.session) self.now.lcso (read_expression part.now) }
    {
        match part {
            [only] if *only == expression::ALWAYS => Some(Counters::none()),
            [_] => None,
            _ => self.deciding_group(part),
        }
    }
}

// The counters that an action on a stored object uses up, if it is granted: a plain write to a queue is not, whatever its change
// expression says.
// A match and no closures: the actions are complete, and `rt ci` refuses a function that hands out a closure.
#[tactic(auto, using(crate::proofs::Granting::asks_read, crate::proofs::Granting::asks_change, crate::proofs::Granting::write_asks_change, crate::proofs::Granting::metadata_free, crate::proofs::Granting::queue_closed, crate::proofs::Granting::slot_grants))]
pub fn granted(
    asked: Action,
    object: &StoredObject<'_>,
    store: &[u8],
    session: Session,
) -> Option<Counters>
    requires { is_some (unpack store.now) ≡ true }
    ensures { told result ≡ access asked object.now (seen_in store.now session) }
{
    let sight = Sight {
        store,
        session,
        lcso: object.lcso(),
    };
    match asked {
        Action::GetMetadata => Some(Counters::none()),
        Action::GetData => sight.grant_of(object.expression(Slot::Read)),
        Action::Write | Action::EraseAndWrite => {
            if object.is_queue() {
                return None;
            }
            sight.grant_of(object.expression(Slot::Change))
        }
        Action::SetMetadata | Action::Count | Action::Append | Action::Acknowledge => {
            sight.grant_of(object.expression(Slot::Change))
        }
    }
}
