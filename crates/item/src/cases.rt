// Worked cases of the range check, which the check asks a proof of.
ghost use Rattle.std.specs.Prelude.{ℕ, List};
ghost use Rattle.item.specs.Range.{RangeCases};

pub fn range_cases()
    ensures { (uuid : List ℕ) → RangeCases uuid }
{}
