// The laws of the definitions, in the contract of a function.
ghost use Rattle.std.specs.Prelude.{◌≡◌};
ghost use Rattle.model.specs.Calls.{number_of};
ghost use Rattle.model.specs.Laws.{ModelLaws};

// The number of the transaction whose record stands at a position: the laws say that it is read back.
pub fn transaction_number(position: u64) -> u32
    ensures laws { ModelLaws }
    ensures number { result ≡ number_of position }
{
    (position % 0x1_0000_0000) as u32
}
