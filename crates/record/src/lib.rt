// One record: where its parts lie, its check, its parts read and written where it stands in the store.
#![tactic(auto)]

ghost use Rattle.std.specs.Prelude.{◌≡◌, true, ◌&&◌, ◌+◌, ◌-◌, ◌≤◌, ◌<◌, eqb, length, get_or, take, drop};
ghost use Rattle.rules.specs.declared.Kind.TheVariants.{Data, Counter, Queue};
ghost use Rattle.rules.specs.declared.Direction.TheVariants.{Up};
ghost use Rattle.rules.specs.Basic.{is_some, little_endian_at, little_endian};
ghost use Rattle.rules.specs.Expression.{expression, expression_bytes};
ghost use Rattle.rules.specs.Object.{Object, used, is, is_counter, direction, counter_size, in_session, object_allowed, expression_in};
ghost use Rattle.rules.specs.Layout.{slot_size, head_size, slot_at, slot_of};
ghost use Rattle.rules.specs.Counter.{exhausted};
ghost use Rattle.primitives.specs.Bytes.{over, all_zero};
ghost use Rattle.record.specs.Codes.{object_code};
ghost use Rattle.record.specs.Places.{object_at, Stored};
ghost use Rattle.record.specs.Records.{filled, is_slot, head_allowed, kind_allowed, slots_allowed, body_allowed, is_record, fixed};

use rules::{Direction, Kind, Length, ObjectNumber, Offset, Slot};
use std::marker::Model;

// How far into a record its parts begin: the length is at 0.
const KIND: usize = 2;

const NUMBER: usize = 4;

const MAXIMUM: usize = 6;

const USED: usize = 8;

pub const LCSO: usize = 10;

const ZERO: usize = 11;

pub const CHANGE: usize = 12;

const SLOT: usize = expression::LONGEST + 1;

pub const READ: usize = CHANGE + SLOT;

pub const EXECUTE: usize = READ + SLOT;

const SLOTS: usize = 3;

pub const DATA: usize = EXECUTE + SLOT;

// The fewest bytes of a record: an object's maximum is from 1 to the largest.
pub const SHORTEST: usize = DATA + 1;

const LARGEST: u16 = 1500;

// The number of the kind that is put, data.
// The number alone: `Kind` has no u16 for all its cases, as those of the session are above it (`kind_number`).
const DATA_KIND: u16 = 0x0001;

// Where the last 16 bytes of a slot begin: of a fixed length, they need no loop.
const LAST: usize = SLOT - 16;

// Whether the bytes of a slot from e on are zero.
// A slot is a slice of its size: an array of it would need a branch for a length that does not come.
#[tactic(auto, using(crate::proofs::Slots::in_two))]
fn zero_from(bytes: &[u8], e: usize) -> bool
    requires { (length bytes.now ≡ slot_size) × (e ≤ slot_size) }
    ensures { result ≡ all_zero (take (slot_size - e) (drop e bytes.now)) }
{
    if LAST < e {
        return primitives::all_zero(&bytes[e..SLOT]);
    }
    primitives::all_zero(&bytes[LAST..SLOT]) && primitives::all_zero(&bytes[e..LAST])
}

// Whether a slot holds an expression of n bytes, with zeros behind.
#[tactic(auto, unfolding(crate::specs::Records::filled))]
fn filled(part: &[u8], n: usize) -> bool
    requires { (length part.now ≡ slot_size) × (n < slot_size) }
    ensures { result ≡ filled n part.now }
{
    expression::well_formed(&part[1..n + 1]) && zero_from(part, n + 1)
}

// Whether it holds one byte, with zeros behind: here and for one condition they are of a fixed length, and need no loop. As one function
// with a const parameter, the two cost the C files speed.
#[tactic(auto, using(crate::proofs::Slots::filled_one))]
fn filled_by_one(part: &[u8]) -> bool
    requires { length part.now ≡ slot_size }
    ensures { result ≡ filled 1 part.now }
{
    expression::single(part[1]) && primitives::all_zero(&part[2..SLOT])
}

// Whether it holds one condition, with zeros behind.
#[tactic(auto, using(crate::proofs::Slots::filled_condition))]
fn filled_by_condition(part: &[u8]) -> bool
    requires { length part.now ≡ slot_size }
    ensures { result ≡ filled 3 part.now }
{
    expression::condition_allowed(part, 1) && primitives::all_zero(&part[4..SLOT])
}

// Whether these bytes are the slot of an expression.
#[tactic(auto, using(crate::proofs::Slots::slot_same))]
fn slot_ok(part: &[u8]) -> bool
    requires { length part.now ≡ slot_size }
    ensures { result ≡ is_slot part.now }
{
    let n = part[0] as usize;
    match n {
        1 => filled_by_one(part),
        3 => filled_by_condition(part),
        _ => n < SLOT && filled(part, n),
    }
}

// Whether the number is that of an object of the session.
#[tactic(auto, unfolding(rules::specs::Basic::among, rules::specs::Object::in_session))]
fn in_session(number: ObjectNumber) -> bool
    ensures { result ≡ in_session number.0 }
{
    matches!(number.0, 0xE0C0 | 0xF1C0 | 0xF1C2)
}

// Whether the bytes before the slots are those of a record of this length.
#[tactic(auto, unfolding(rules::specs::Basic::all, crate::specs::Records::head_allowed))]
fn head_ok(part: &[u8]) -> bool
    ensures { result ≡ head_allowed part.now }
{
    let n = part.len();
    if n < SHORTEST {
        return false;
    }
    let maximum = primitives::little_endian_at(part, MAXIMUM);
    primitives::little_endian_at(part, 0) as usize == n
        && !in_session(ObjectNumber(primitives::little_endian_at(part, NUMBER)))
        && maximum as usize == n - DATA
        && maximum <= LARGEST
        && primitives::little_endian_at(part, USED) <= maximum
        && expression::is_state(part[LCSO])
        && part[ZERO] == 0
}

// Whether maximum and used are those of a counter.
fn counter_sizes(maximum: Length, content: &[u8]) -> bool
    ensures { result ≡ (eqb maximum.0 counter_size && eqb (length content.now) counter_size) }
{
    maximum.0 == counter::SIZE && content.len() == counter::SIZE
}

// Whether the number is that of a kind of record which may have such data: any bytes for data, else those of a counter or of a queue.
fn kind_ok(number: u16, maximum: Length, content: &[u8]) -> bool
    ensures { result ≡ kind_allowed number maximum.0 content.now }
{
    let Ok(kind) = Kind::try_from(number) else {
        return false;
    };
    match kind {
        Kind::Data => true,
        Kind::Counter(_) => counter_sizes(maximum, content),
        Kind::Queue => queue::check(content),
        Kind::LifeCycle | Kind::Status => false,
    }
}

// Whether the slots are slots: a loop, so that the check of a slot is compiled into it; over a range, since an array of the three places is
// stack of the C files.
#[tactic(auto, using(crate::proofs::Slots::slots_stop, crate::proofs::Slots::slots_on, crate::proofs::Slots::slot_place), unfolding(rules::specs::Basic::all, crate::specs::Records::slots_allowed))]
fn slots_ok(part: &[u8]) -> bool
    requires { head_size + 1 ≤ length part.now }
    ensures { result ≡ slots_allowed part.now }
{
    for i in 0..SLOTS {
        let at = CHANGE + i * SLOT;
        if !slot_ok(&part[at..at + SLOT]) {
            return false;
        }
    }
    true
}

// Whether the kind may have this data, the slots are slots, and all bytes past those in use are zero.
#[tactic(auto, unfolding(rules::specs::Basic::all, crate::specs::Records::body_allowed))]
fn body_ok(part: &[u8]) -> bool
    requires { (head_size + 1 ≤ length part.now) × (head_size + little_endian_at 8 part.now ≤ length part.now) }
    ensures { result ≡ body_allowed part.now }
{
    let number = primitives::little_endian_at(part, KIND);
    let maximum = Length(primitives::little_endian_at(part, MAXIMUM) as usize);
    let a = DATA + primitives::little_endian_at(part, USED) as usize;
    kind_ok(number, maximum, &part[DATA..a]) && slots_ok(part) && primitives::all_zero(&part[a..])
}

// Whether these bytes are one record.
#[tactic(auto, using(crate::proofs::Records::record_by, crate::proofs::Records::head_gives))]
pub fn record_ok(part: &[u8]) -> bool
    ensures { result ≡ is_record part.now }
{
    head_ok(part) && body_ok(part)
}

// The length of the record that may stand at a place.
pub fn length_at(store: &[u8], at: usize) -> usize
    requires { at + 1 < length store.now }
    ensures { result ≡ little_endian_at at store.now }
{
    primitives::little_endian_at(store, at) as usize
}

// The number of the object whose record stands at a place.
pub fn number_at(store: &[u8], at: usize) -> ObjectNumber
    requires { Stored at store.now }
    ensures { result.0 ≡ (object_at at store.now).number }
{
    ObjectNumber(primitives::little_endian_at(store, at + NUMBER))
}

// How far into a record a slot begins.
#[tactic(auto, unfolding(rules::specs::Layout::slot_at_with))]
pub fn slot_at(slot: Slot) -> usize
    ensures { result ≡ slot_at slot }
{
    match slot {
        Slot::Change => CHANGE,
        Slot::Read => READ,
        Slot::Execute => EXECUTE,
    }
}

// The bytes that the count at a place leads.
fn counted(store: &[u8], at: usize) -> &[u8]
    requires { at + 1 + get_or store.now at 0 ≤ length store.now }
    ensures { result.now ≡ take (get_or store.now at 0) (drop (at + 1) store.now) }
{
    let a = at + 1;
    &store[a..a + store[at] as usize]
}

// A stored object, where its record stands in the store: seen as what it holds.
#[derive(Drop)]
pub struct StoredObject<'a> {
    store: &'a [u8],
    at: usize,
}

impl<'a> Model for StoredObject<'a> {
    ghost Value = { Object };

    ghost coded = { object_code };

    ghost view = { λ r. object_at r.at r.store.now };

    ghost invariant = { λ r. Stored r.at r.store.now };
}

impl<'a> StoredObject<'a> {
    // The object whose record stands at a place.
    pub fn at(store: &'a [u8], at: usize) -> Self
        requires { Stored at store.now }
        ensures { result ≡ object_at at store.now }
    {
        StoredObject { store, at }
    }

    // Its number.
    // Each part is one reading with its own clause: a method over the offset would ask for the part's meaning as a parameter.
    pub fn number(&self) -> ObjectNumber
        ensures { result.0 ≡ self.now.number }
    {
        number_at(self.store, self.at)
    }

    // Its kind: a record has the number of one.
    pub fn kind(&self) -> Kind
        ensures value { result ≡ self.now.kind }
        ensures allowed { object_allowed self.now ≡ true }
    {
        let number = primitives::little_endian_at(self.store, self.at + KIND);
        let Ok(kind) = Kind::try_from(number) else {
            unreachable!()
        };
        kind
    }

    // Whether it is a counter.
    // One match on the kind each: a test of a given kind would say which at each caller.
    #[tactic(auto, using(crate::proofs::ByKind::counter_is, crate::proofs::ByKind::counter_not), unfolding(rules::specs::Object::is, rules::specs::Object::is_counter))]
    pub fn is_counter(&self) -> bool
        ensures { result ≡ is_counter self.now.kind }
    {
        matches!(self.kind(), Kind::Counter(_))
    }

    // Whether it is a counter that counts up.
    #[tactic(auto, using(crate::proofs::ByKind::up_is, crate::proofs::ByKind::down_is, crate::proofs::ByKind::no_up), unfolding(rules::specs::Object::is))]
    pub fn is_up_counter(&self) -> bool
        ensures { result ≡ is (Counter Up) self.now.kind }
    {
        match self.kind() {
            Kind::Counter(direction) => matches!(direction, Direction::Up),
            _ => false,
        }
    }

    // Whether it is a queue.
    #[tactic(auto, using(crate::proofs::ByKind::queue_is, crate::proofs::ByKind::queue_not), unfolding(rules::specs::Object::is))]
    pub fn is_queue(&self) -> bool
        ensures { result ≡ is Queue self.now.kind }
    {
        matches!(self.kind(), Kind::Queue)
    }

    // The way that a counter counts.
    pub fn direction(&self) -> Direction
        ensures { result ≡ direction self.now.kind }
    {
        match self.kind() {
            Kind::Counter(direction) => direction,
            _ => Direction::Up,
        }
    }

    // The most bytes that its data may have.
    pub fn maximum(&self) -> Length
        ensures value { result.0 ≡ self.now.maximum }
        ensures small { result.0 < 65536 }
    {
        Length(primitives::little_endian_at(self.store, self.at + MAXIMUM) as usize)
    }

    // How many bytes of its data are in use.
    pub fn used(&self) -> Length
        ensures value { result.0 ≡ used self.now }
        ensures small { result.0 < 65536 }
    {
        Length(primitives::little_endian_at(self.store, self.at + USED) as usize)
    }

    // Its LcsO.
    #[tactic(auto, using(crate::proofs::Parts::told_allowed))]
    pub fn lcso(&self) -> u8
        ensures state { result ≡ self.now.lcso }
        ensures allowed { object_allowed self.now ≡ true }
    {
        self.store[self.at + LCSO]
    }

    // The expression in a slot: a part of the caller's slice, well formed.
    pub fn expression(&self, slot: Slot) -> &'a [u8]
        ensures bytes { result.now ≡ expression_bytes (expression_in slot self.now) }
        ensures formed { is_some (expression result.now) ≡ true }
        ensures allowed { object_allowed self.now ≡ true }
    {
        counted(self.store, self.at + slot_at(slot))
    }

    // A part of the data in use: a part of the caller's slice.
    pub fn data(&self, offset: Offset, length: Length) -> &'a [u8]
        requires { offset.0 + length.0 ≤ used self.now }
        ensures bytes { result.now ≡ take length.0 (drop offset.0 self.now.content) }
        ensures allowed { object_allowed self.now ≡ true }
    {
        let a = self.at + DATA + offset.0;
        &self.store[a..a + length.0]
    }

    // The data in use, of an object that may stand in a store.
    #[tactic(auto, using(crate::proofs::Parts::told_allowed, crate::proofs::Parts::content_lent))]
    pub fn content(&self) -> &'a [u8]
        ensures bytes { result.now ≡ self.now.content }
        ensures allowed { object_allowed self.now ≡ true }
    {
        let a = self.at + DATA;
        let e = a + self.used().0;
        &self.store[a..e]
    }

    // Whether a counter is at or past its threshold.
    pub fn is_exhausted(&self) -> bool
        requires { is_counter self.now.kind ≡ true }
        ensures { result ≡ exhausted (direction self.now.kind) self.now.content }
    {
        let a = self.at + DATA;
        counter::exhausted(&self.store[a..a + counter::SIZE], self.direction())
    }
}

// Where the object's data ends, and its record with it.
pub fn data_end(store: &[u8], at: usize) -> usize
    requires { Stored at store.now }
    ensures { result ≡ at + head_size + (object_at at store.now).maximum }
{
    at + DATA + primitives::little_endian_at(store, at + MAXIMUM) as usize
}

// Writes how many bytes of the data are in use.
pub fn set_used(store: &mut [u8], at: usize, used: usize)
    requires { (at + 9 < length store.old) × (used < 65536) }
    ensures { store.new ≡ over (at + 8) (little_endian used) store.old }
{
    primitives::put_little_endian(store, at + USED, used as u16);
}

// Puts a slot: the length of the expression, the expression, zeros.
#[tactic(auto, using(crate::proofs::Slots::put_by))]
pub fn put_slot(store: &mut [u8], at: usize, value: &[u8])
    requires { (at + slot_size ≤ length store.old) × (length value.now < slot_size) }
    ensures { store.new ≡ over at (slot_of value.now) store.old }
{
    let n = value.len();
    store[at] = n as u8;
    primitives::put(store, at + 1, value);
    primitives::put_zeros(store, at + 1 + n, SLOT - 1 - n);
}

// Puts the bytes of a record of data before its slots: none of the data is in use, LcsO is 01.
#[tactic(auto, using(crate::proofs::Slots::fixed_by))]
pub fn put_fixed(part: &mut [u8], number: ObjectNumber, maximum: Length)
    requires { (head_size ≤ length part.old) × (head_size + maximum.0 < 65536) }
    ensures { part.new ≡ over 0 (fixed Data number.0 maximum.0 0 1) part.old }
{
    primitives::put_little_endian(part, 0, (DATA + maximum.0) as u16);
    primitives::put_little_endian(part, KIND, DATA_KIND);
    primitives::put_little_endian(part, NUMBER, number.0);
    primitives::put_little_endian(part, MAXIMUM, maximum.0 as u16);
    primitives::put_little_endian(part, USED, 0);
    primitives::put(part, LCSO, &[0x01, 0x00]);
}
