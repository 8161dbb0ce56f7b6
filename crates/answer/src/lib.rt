// The answer to a get of metadata: how long it is, and how it is written into the room.
#![tactic(auto)]

ghost use Rattle.std.specs.Prelude.{◌≡◌, [], ◌∷◌, ◌+◌, ◌≤◌, ◌<◌, length};
ghost use Rattle.rules.specs.Metadata.{fields_bytes, metadata};
ghost use Rattle.rules.specs.Expression.{expression_bytes};
ghost use Rattle.rules.specs.Object.{expression_in};
ghost use Rattle.rules.specs.Layout.{slot_size};
ghost use Rattle.rules.specs.Response.{done_response, put_in_front};
ghost use Rattle.primitives.specs.Bytes.{over};
ghost use Rattle.answer.specs.Answer.{front_bytes, slot_tag, slot_field, Sized};

use record::StoredObject;
use rules::{CHANGE_TAG, EXECUTE_TAG, Length, MAXIMUM_TAG, READ_TAG, STATE_TAG, Slot, USED_TAG};

// Bytes of an answer before its expressions: 20 and L, then the fields C0, C4 and C5.
const FRONT: usize = 13;

// Bytes besides the expressions: those, and three tags with their lengths.
const BESIDES: usize = FRONT + 3 * 2;

// Where in the room the answer begins, behind the response's first four bytes, and where the fields of the expressions.
const ANSWER: usize = 4;

const EXPRESSIONS: usize = ANSWER + FRONT;

fn expression_length(object: &StoredObject<'_>, slot: Slot) -> usize
    ensures { (result ≡ length (expression_bytes (expression_in slot object.now))) × (result < slot_size) }
{
    object.expression(slot).len()
}

// The bytes of the answer.
fn answer_size(object: &StoredObject<'_>) -> usize
    ensures { Sized object.now result }
{
    let change = expression_length(object, Slot::Change);
    let read = expression_length(object, Slot::Read);
    let execute = expression_length(object, Slot::Execute);
    BESIDES + change + read + execute
}

// How long the answer is.
pub fn answer_length(object: &StoredObject<'_>) -> Length
    ensures { result.0 ≡ length (metadata object.now) }
{
    Length(answer_size(object))
}

// A slot has a tag and a place in a record: `From<Slot>` would not say which.
fn tag_of(slot: Slot) -> u8
    ensures { result ≡ slot_tag slot }
{
    match slot {
        Slot::Change => CHANGE_TAG,
        Slot::Read => READ_TAG,
        Slot::Execute => EXECUTE_TAG,
    }
}

// 20 and L, then the fields C0, C4 and C5.
fn put_sizes(object: &StoredObject<'_>, size: usize, room: &mut [u8])
    requires { (2 ≤ size) × (size ≤ 257) × (17 ≤ length room.old) }
    ensures { room.new ≡ over 4 (front_bytes size object.now) room.old }
{
    let maximum = (object.maximum().0 as u16).to_be_bytes();
    let used = (object.used().0 as u16).to_be_bytes();
    let bytes = [
        0x20,
        (size - 2) as u8,
        STATE_TAG,
        1,
        object.lcso(),
        MAXIMUM_TAG,
        2,
        maximum[0],
        maximum[1],
        USED_TAG,
        2,
        used[0],
        used[1],
    ];
    primitives::put(room, ANSWER, &bytes);
}

// A tag, a length and a value, put at a place of the room; the place behind them.
// The place is handed on: a struct of room and place would be longer.
fn put_field(room: &mut [u8], place: usize, tag: u8, value: &[u8]) -> usize
    requires { (place + 2 + length value.now ≤ length room.old) × (length value.now < slot_size) }
    ensures { (room.new ≡ over place (tag ∷ length value.now ∷ value.now) room.old)
        × (result ≡ place + 2 + length value.now) }
{
    primitives::put(room, place, &[tag, value.len() as u8]);
    let start = place + 2;
    primitives::put(room, start, value);
    start + value.len()
}

// The field of a slot's expression.
fn put_expression(object: &StoredObject<'_>, slot: Slot, room: &mut [u8], place: usize) -> usize
    requires { place + length (fields_bytes (slot_field slot object.now ∷ [])) ≤ length room.old }
    ensures { (room.new ≡ over place (fields_bytes (slot_field slot object.now ∷ [])) room.old)
        × (result ≡ place + length (fields_bytes (slot_field slot object.now ∷ []))) }
{
    put_field(room, place, tag_of(slot), object.expression(slot))
}

// The answer, written into the room part by part.
pub fn write_answer(object: &StoredObject<'_>, room: &mut [u8])
    requires { 4 + length (metadata object.now) ≤ length room.old }
    ensures { room.new ≡ put_in_front (done_response (metadata object.now)) room.old }
{
    let size = answer_size(object);
    response::head(room, Length(size));
    put_sizes(object, size, room);
    let second = put_expression(object, Slot::Change, room, EXPRESSIONS);
    let third = put_expression(object, Slot::Read, room, second);
    put_expression(object, Slot::Execute, room, third);
}
