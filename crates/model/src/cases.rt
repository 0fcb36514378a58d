// The worked cases of the format, in the contract of a function.
ghost use Rattle.std.specs.Prelude.{◌≡◌};
ghost use Rattle.model.specs.Cases.{Table};

// How many worked cases there are, each of which holds.
pub fn cases() -> u8
    ensures table { Table }
    ensures count { result ≡ 8 }
{
    8
}
