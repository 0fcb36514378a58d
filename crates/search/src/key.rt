// What entries are found by.
ghost use Rattle.std.specs.Prelude.{◌≡◌, Bool, true};
ghost use Rattle.std.proofs.Common.{◌∙◌};

// A key, and when two keys are the same: an equivalence.
// Kept: a rule of the project asks for a trait of keys with this law; by itself the library's `Eq` would do.
pub trait Key {
    ghost same: { Self → Self → Bool };

    fn same_as(&self, other: &Self) -> bool
        ensures { result ≡ same self.now other.now };

    ghost reflexive: { (x : Self) → same x x ≡ true };

    ghost symmetric: { (x y : Self) → same x y ≡ true → same y x ≡ true };

    ghost transitive: { (x y z : Self) → same x y ≡ true → same y z ≡ true → same x z ≡ true };
}

// A number that entries are found by.
pub trait Number: Ord {}

// A transaction's number.
impl Number for u32 {}

// An intent's id.
impl Number for u64 {}

// Two numbers are the same key where they are equal.
impl<N: Number> Key for N {
    ghost same = { N.eq };

    ghost reflexive = { N.Eq.laws.refl };

    ghost symmetric = { λ x y e. N.Eq.laws.symm y x ∙ e };

    ghost transitive = { N.PartialEq.laws.trans };

    fn same_as(&self, other: &N) -> bool {
        self == other
    }
}
