// The counters that a granted command uses up: each goes up by one, once.
#![tactic(auto)]

ghost use Rattle.std.specs.Prelude.{◌≡◌, true, [], ◌∷◌};
ghost use Rattle.rules.specs.Basic.{among, is_some, or_else};
ghost use Rattle.rules.specs.Layout.{pack, unpack};
ghost use Rattle.rules.specs.Access.{all_used_up};

use access::Counters;
use record::StoredObject;
use rules::ObjectNumber;

// The up counter of a number, if there is one, goes up by one.
// That the store is sound is asked at each step: the one before changed it.
fn step_counter(store: &mut [u8], number: ObjectNumber)
    requires { is_some (unpack store.old) ≡ true }
    ensures { store.new ≡ pack (all_used_up (number.0 ∷ []) (or_else (unpack store.old) [])) }
{
    let Some(at) = store::find_record(store, number) else {
        return;
    };
    if StoredObject::at(store, at).is_up_counter() {
        change::count(store, at, 1);
    }
}

// Whether a number is among these: a loop, since gcc -O3 unrolls the library's search and warns of places past the end.
fn is_listed(numbers: &[u16], number: u16) -> bool
    ensures { result ≡ among numbers.now number }
{
    for listed in numbers {
        if *listed == number {
            return true;
        }
    }
    false
}

// Each counter goes up by one, once: one that is listed twice steps at the first place.
pub fn use_up(store: &mut [u8], counters: &Counters)
    requires { is_some (unpack store.old) ≡ true }
    ensures { store.new ≡ pack (all_used_up counters.now (or_else (unpack store.old) [])) }
{
    let numbers = counters.numbers();
    for (place, number) in numbers.iter().enumerate() {
        if !is_listed(&numbers[..place], *number) {
            step_counter(store, ObjectNumber(*number));
        }
    }
}
