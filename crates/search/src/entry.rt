// Entries, and how one is found among them.
ghost use Rattle.std.specs.Prelude.{◌≡◌, true};
ghost use Rattle.search.specs.Places.{First, place_of};

use crate::key::{Key, Number};

// An entry, and the key that it is found by.
pub trait Entry {
    type By: Key;

    ghost by: { Self → Self.By };

    fn by(&self) -> &Self::By
        ensures { result.now ≡ by self.now };
}

// A number is an entry that is found by itself.
impl<N: Number> Entry for N {
    type By = N;

    ghost by = { λ e. e };

    fn by(&self) -> &N {
        self
    }
}

// The place of the first entry that has the key.
pub fn find<E: Entry>(entries: &[E], key: &E::By) -> Option<usize>
    ensures first { First (λ e. E.By.same (E.by e) key.now) entries.now result }
    ensures place { result ≡ place_of (λ e. E.By.same (E.by e) key.now) entries.now }
    ensures alike { (k : E.By) → E.By.same key.now k ≡ true → result ≡ place_of (λ e. E.By.same (E.by e) k) entries.now }
{
    entries.iter().position(|e| e.by().same_as(key))
}
