// The queue of a found record: the verdicts on an append and on an acknowledgement, and both carried out where it stands in the store.
#![tactic(auto)]

ghost use Rattle.std.specs.Prelude.{◌≡◌, List, ℕ};
ghost use Rattle.rules.specs.declared.Action.TheVariants.{Append, Acknowledge};
ghost use Rattle.rules.specs.Command.{sent_body, sent_number};
ghost use Rattle.rules.specs.Access.{Seen};
ghost use Rattle.rules.specs.Operation.{operation};
ghost use Rattle.record.specs.Places.{object_at, Stored};
ghost use Rattle.fares.specs.Queued.{MayAppend, MayAcknowledge, appended_at, acknowledged_at};

use record::StoredObject;
use rules::{Length, Offset, Refusal, Verdict, refuse_if};

// The first number that is not given.
const NO_NUMBER: u32 = 0xFFFFFFFF;

// Of an append: 03 where it is no queue, 08 where the fare does not fit behind the others, 0D where no number is left.
pub fn judge_append(object: &StoredObject<'_>, body: &[u8]) -> Verdict
    ensures { (c : List ℕ) (see : Seen) → sent_body c ≡ body.now → result ≡ (operation Append c object.now see).verdict }
{
    let size = Length(queue::BODY + body.len());
    let fits = bounds::fits(Offset(object.used().0), size, object.maximum());
    refuse_if(!object.is_queue(), Refusal::InvalidParam)?;
    refuse_if(!fits, Refusal::BoundaryExceeded)?;
    let number = queue::next_number(object.content());
    refuse_if(number == NO_NUMBER, Refusal::InsufficientBuffer)
}

// Of an acknowledgement: 03 where it is no queue, 05 where no fare has the number.
pub fn judge_acknowledge(object: &StoredObject<'_>, number: u32) -> Verdict
    ensures { (c : List ℕ) (see : Seen) → sent_number c ≡ number → result ≡ (operation Acknowledge c object.now see).verdict }
{
    refuse_if(!object.is_queue(), Refusal::InvalidParam)?;
    let present = queue::is_present(object.content(), number);
    refuse_if(!present, Refusal::InvalidData)
}

// Puts a body behind the fares, under the next number: the data part is lent on.
// Two functions: the change of the queue is their difference, and a closure would have to promise both clauses.
// The store is lent to be changed: a place stands beside it, and no StoredObject, which lends it shared.
pub fn append(store: &mut [u8], at: usize, body: &[u8])
    requires { Stored at store.old × MayAppend (object_at at store.old) body.now }
    ensures { store.new ≡ appended_at at body.now store.old }
{
    let used = StoredObject::at(store, at).used();
    let a = at + record::DATA;
    let e = record::data_end(store, at);
    let then = queue::append(&mut store[a..e], used, body);
    record::set_used(store, at, then.0);
}

// Drops the fare of a number and all before it.
pub fn acknowledge(store: &mut [u8], at: usize, number: u32)
    requires { Stored at store.old × MayAcknowledge (object_at at store.old) number }
    ensures { store.new ≡ acknowledged_at at number store.old }
{
    let used = StoredObject::at(store, at).used();
    let a = at + record::DATA;
    let e = record::data_end(store, at);
    let left = queue::acknowledge(&mut store[a..e], used, number);
    record::set_used(store, at, left.0);
}
