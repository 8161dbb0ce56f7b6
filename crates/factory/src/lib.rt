// The factory store, made from one table, and the fresh session.
#![tactic(auto)]

ghost use Rattle.std.specs.Prelude.{◌≡◌, ◌+◌, ◌<◌, length};
ghost use Rattle.rules.specs.Layout.{head_size, record_bytes};
ghost use Rattle.rules.specs.Factory.{entry, made, factory_store};
ghost use Rattle.rules.specs.Factory.{fresh_session, factory_outcome, factory_made};
ghost use Rattle.factory.specs.Table.{all_bytes};
ghost use Rattle.factory.specs.Outcome.{outcome};

use rules::{Length, ObjectNumber, Session};

// The bytes of the factory store.
pub const STORE: usize = 6024;

// An object's number and the size of its data.
#[derive(Clone, Copy)]
struct Entry(ObjectNumber, Length);

const TABLE: [Entry; 14] = [
    Entry(ObjectNumber(0xF1D0), Length(140)),
    Entry(ObjectNumber(0xF1D1), Length(140)),
    Entry(ObjectNumber(0xF1D2), Length(140)),
    Entry(ObjectNumber(0xF1D3), Length(140)),
    Entry(ObjectNumber(0xF1D4), Length(140)),
    Entry(ObjectNumber(0xF1D5), Length(140)),
    Entry(ObjectNumber(0xF1D6), Length(140)),
    Entry(ObjectNumber(0xF1D7), Length(140)),
    Entry(ObjectNumber(0xF1D8), Length(140)),
    Entry(ObjectNumber(0xF1D9), Length(140)),
    Entry(ObjectNumber(0xF1DA), Length(140)),
    Entry(ObjectNumber(0xF1DB), Length(140)),
    Entry(ObjectNumber(0xF1E0), Length(1500)),
    Entry(ObjectNumber(0xF1E1), Length(1500)),
];

// An expression's bytes: LcsO less than operational, and always.
const BEFORE_OPERATIONAL: [u8; 3] = [0xE1, 0xFC, 0x07];

const ALWAYS: [u8; 1] = [0x00];

// A record: its head, then zeros.
#[tactic(auto, using(crate::proofs::Records::record_by))]
fn put_record(part: &mut [u8], number: ObjectNumber, maximum: Length)
    requires { (length part.old ≡ head_size + maximum.0) × (head_size + maximum.0 < 65536) }
    ensures { part.new ≡ record_bytes (made (entry number.0 maximum.0)) }
{
    primitives::clear(part);
    record::put_fixed(part, number, maximum);
    record::put_slot(part, record::CHANGE, &BEFORE_OPERATIONAL);
    record::put_slot(part, record::READ, &ALWAYS);
    record::put_slot(part, record::EXECUTE, &ALWAYS);
}

// The table's records, end to end: the part of each is lent on.
fn fill(store: &mut [u8])
    requires { length store.old ≡ all_bytes }
    ensures { store.new ≡ factory_store }
{
    let mut at = 0;
    for &Entry(number, maximum) in &TABLE {
        let end = at + record::DATA + maximum.0;
        put_record(&mut store[at..end], number, maximum);
        at = end;
    }
}

// The buffer has not the factory store's size.
#[derive(Clone, Copy)]
pub struct WrongSize;

// The factory store in a buffer of its size; a buffer of another size stays as it was.
#[tactic(auto, unfolding(rules::specs::Factory::factory_outcome, rules::specs::Factory::factory_made))]
pub fn make_factory_store(store: &mut [u8]) -> Result<(), WrongSize>
    ensures { (outcome result ≡ factory_outcome store.old) × (store.new ≡ factory_made store.old) }
{
    if store.len() != STORE {
        return Err(WrongSize);
    }
    fill(store);
    Ok(())
}

// The session that a fresh element has.
#[tactic(auto, unfolding(rules::specs::Factory::fresh_session))]
pub fn fresh_session() -> Session
    ensures { result ≡ fresh_session }
{
    Session {
        opened: false,
        lcsg: 0x01,
        lcsa: 0x01,
        error: 0,
    }
}
