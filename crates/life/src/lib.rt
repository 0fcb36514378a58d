// What is true in every life of a volume, as the contract of a function.
#![tactic(auto)]

ghost use Rattle.std.specs.Prelude.{◌≡◌, true};
ghost use Rattle.life.specs.Life.{LifeStands};

// Every life has an account, by one choice at each accepted replay, and what Lived says is true of it.
pub fn life_stands() -> bool
    ensures answer { result ≡ true }
    ensures lives { LifeStands }
{
    true
}
