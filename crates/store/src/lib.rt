// A whole store: its check, and the search for an object's record.
#![tactic(auto)]

ghost use Rattle.std.specs.Prelude.{◌≡◌, true};
ghost use Rattle.rules.specs.Basic.{is_some};
ghost use Rattle.rules.specs.Layout.{unpack, found};
ghost use Rattle.record.specs.Places.{object_at, Stored};
ghost use Rattle.store.specs.Way.{way, front, leads};

use rules::ObjectNumber;

// Limits of a store: its bytes, its records.
const BYTES: usize = 16384;

const RECORDS: usize = 32;

// Whether these bytes are a store: `least` is the least number that the next record may have.
pub fn check_store(store: &[u8]) -> bool
    ensures { result ≡ is_some (unpack store.now) }
{
    if BYTES < store.len() {
        return false;
    }
    let mut at: usize = 0;
    let mut least: usize = 0;
    for turn in 0..RECORDS {
        let rest = store.len() - at;
        if rest < record::SHORTEST {
            return false;
        }
        let size = record::length_at(store, at);
        if rest < size {
            return false;
        }
        let end = at + size;
        if !record::record_ok(&store[at..end]) {
            return false;
        }
        let n = record::number_at(store, at).0 as usize;
        if n < least {
            return false;
        }
        if rest == size {
            return true;
        }
        least = n + 1;
        at = end;
    }
    false
}

// Where the record of an object begins. Numbers rise, so that the search ends at the first that is not below the object's: only
// record heads are read, and nothing behind that record.
// A list in lent bytes, of records of any length: there is no map without a heap.
pub fn find_record(store: &[u8], number: ObjectNumber) -> Option<usize>
    requires { leads number.0 store.now ≡ true }
    ensures { result ≡ found number.0 (way number.0 store.now) }
{
    let mut at: usize = 0;
    // The next place is read from the bytes.
    while at < store.len() {
        let next = record::data_end(store, at);
        let here = record::number_at(store, at).0;
        if number.0 < here {
            return None;
        }
        if number.0 == here {
            return Some(at);
        }
        at = next;
    }
    None
}

// What two searches find.
#[derive(Clone, Copy)]
pub struct Finds {
    pub here: Option<usize>,
    pub there: Option<usize>,
}

// Two searches for one object: in stores that are the same up to the end of their ways they find the same, whatever follows.
pub fn find_in_both(here: &[u8], there: &[u8], number: ObjectNumber) -> Finds
    requires { (leads number.0 here.now ≡ true) × (leads number.0 there.now ≡ true) }
    ensures { (result.here ≡ found number.0 (way number.0 here.now))
        × (result.there ≡ found number.0 (way number.0 there.now))
        × (front number.0 here.now ≡ front number.0 there.now → result.here ≡ result.there) }
{
    Finds {
        here: find_record(here, number),
        there: find_record(there, number),
    }
}
