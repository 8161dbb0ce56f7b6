// Changes of a found record where it stands in the store.
#![tactic(auto)]

ghost use Rattle.std.specs.Prelude.{◌≡◌, true, [], ◌+◌, ◌≤◌, length};
ghost use Rattle.rules.specs.Basic.{is_some};
ghost use Rattle.rules.specs.Expression.{is_state, expression, read_expression};
ghost use Rattle.rules.specs.Object.{is_counter};
ghost use Rattle.record.specs.Places.{object_at, Stored, with_record};
ghost use Rattle.change.specs.Change.{written_over, counted_at, with_lcso, expression_set};

use record::StoredObject;
use rules::{Offset, Slot};

// Writes bytes at an offset of the object's data: its data part is lent on.
// The store is lent to be changed: a place stands beside it, and no StoredObject, which lends it shared.
#[tactic(auto, using(crate::proofs::Results::write_by))]
pub fn write(store: &mut [u8], at: usize, offset: Offset, src: &[u8])
    requires { Stored at store.old × (offset.0 + length src.now ≤ (object_at at store.old).maximum) }
    ensures { store.new ≡ written_over (object_at at store.old).content at offset.0 src.now store.old }
{
    let from = offset.0;
    let end = from + src.len();
    let used = StoredObject::at(store, at).used().0;
    let a = at + record::DATA;
    let e = record::data_end(store, at);
    record::set_used(store, at, used.max(end));
    primitives::put(&mut store[a..e], from, src);
}

// Zeros all other bytes of the object's data: what stays is what is written. In one with `write`, each write would zero the bytes past
// used once more.
#[tactic(auto, using(crate::proofs::Results::erase_write_by))]
pub fn erase_and_write(store: &mut [u8], at: usize, offset: Offset, src: &[u8])
    requires { Stored at store.old × (offset.0 + length src.now ≤ (object_at at store.old).maximum) }
    ensures { store.new ≡ written_over [] at offset.0 src.now store.old }
{
    let from = offset.0;
    let end = from + src.len();
    let a = at + record::DATA;
    let e = record::data_end(store, at);
    record::set_used(store, at, end);
    primitives::put_alone(&mut store[a..e], from, src);
}

// Counts by a step: the value is changed where it stands, in the data part that is lent on.
#[tactic(auto, using(crate::proofs::Results::counter_long, crate::proofs::Results::count_by))]
pub fn count(store: &mut [u8], at: usize, step: u8)
    requires { Stored at store.old × (is_counter (object_at at store.old).kind ≡ true) }
    ensures { store.new ≡ counted_at at step store.old }
{
    let direction = StoredObject::at(store, at).direction();
    let a = at + record::DATA;
    let e = record::data_end(store, at);
    counter::count(&mut store[a..e], direction, step);
}

// Writes the LcsO.
#[tactic(auto, using(crate::proofs::Results::set_lcso_by))]
pub fn set_lcso(store: &mut [u8], at: usize, state: u8)
    requires { Stored at store.old × (is_state state ≡ true) }
    ensures { store.new ≡ with_record at (with_lcso state (object_at at store.old)) store.old }
{
    store[at + record::LCSO] = state;
}

// Writes the expression of a slot.
pub fn set_expression(store: &mut [u8], at: usize, slot: Slot, value: &[u8])
    requires { Stored at store.old × (is_some (expression value.now) ≡ true) }
    ensures { store.new ≡ expression_set at slot (read_expression value.now) store.old }
{
    record::put_slot(store, at + record::slot_at(slot), value);
}
