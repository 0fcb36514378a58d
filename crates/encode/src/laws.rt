// The laws of numbers in bytes, in the contract of a function.
ghost use Rattle.std.specs.Prelude.{◌≡◌};
ghost use Rattle.codec.specs.Laws.{CodecLaws};

use crate::fields::PutNumber;
use codec::fields::Number;

// `x` put into a word and read again: the laws say that it is read at every width and place.
pub fn codec_laws(x: u32) -> u32
    ensures laws { CodecLaws }
    ensures same { result ≡ x }
{
    let mut word = [0; 4];
    x.put_be(&mut word, 0);
    u32::be_at(&word, 0)
}
