// Saved words: in each stored data sector the cycle stands in place of the first word, and the header keeps the word.
ghost use Rattle.std.specs.Prelude.{◌≡◌, ◌+◌};
ghost use Rattle.label.specs.Position.{position};
ghost use Rattle.record.specs.Record.{whole_sectors, with_words, saved_words, stored, restored};

use codec::fields::bytes_at;
use encode::fields::{PutNumber, put_bytes};
use label::geometry::Geometry;
use label::position::join;

// How many whole sectors a run of data has, 64 at most.
fn whole_sectors(bytes: &[u8]) -> usize
    ensures { result ≡ whole_sectors bytes.now }
{
    64usize.min(bytes.len() / 512)
}

// Puts other words in place of the first words of the sectors.
fn with_words(bytes: &mut [u8], words: &[u8; 256])
    ensures { bytes.new ≡ with_words (whole_sectors bytes.old) words.now bytes.old }
{
    let sectors = whole_sectors(bytes);
    let (words, _) = words.as_chunks::<4>();
    // Kept: the place by its number. A loop over `chunks_exact_mut` was tried and not proved: no clause says what it leaves.
    for (k, word) in words.iter().take(sectors).enumerate() {
        put_bytes(bytes, 512 * k, word);
    }
}

// The first words of the sectors, then zeros.
fn saved_words(bytes: &[u8]) -> [u8; 256]
    ensures { result ≡ saved_words (whole_sectors bytes.now) bytes.now }
{
    let mut saved = [0; 256];
    let (sectors, _) = bytes.as_chunks::<512>();
    // Kept: the place by its number. A loop over `saved.as_chunks_mut` was tried and not proved: no clause says what it leaves.
    for (k, sector) in sectors.iter().take(64).enumerate() {
        put_bytes(&mut saved, 4 * k, &sector[..4]);
    }
    saved
}

// Puts the cycle of its position in place of each sector's first word, behind a header at `place`.
fn stamp(geometry: Geometry, place: (u32, u32), bytes: &mut [u8])
    ensures { bytes.new ≡ stored geometry.label (position geometry.label place.0 place.1 + 1) (whole_sectors bytes.old) bytes.old }
{
    let first = join(geometry, place) + 1;
    // Kept: the place by its number, as in `with_words`: what is written chunk by chunk was not proved there.
    for k in 0..whole_sectors(bytes) {
        let cycle = (first + k as u64) / geometry.count();
        ((cycle & 0xFFFF_FFFF) as u32).put_be(bytes, 512 * k);
    }
}

// Turns data into the sectors as they are stored behind a header at `place`, and gives the words to save.
pub fn pack(geometry: Geometry, place: (u32, u32), bytes: &mut [u8]) -> [u8; 256]
    ensures saved { result ≡ saved_words (whole_sectors bytes.old) bytes.old }
    ensures after { bytes.new ≡ stored geometry.label (position geometry.label place.0 place.1 + 1) (whole_sectors bytes.old) bytes.old }
{
    let saved = saved_words(bytes);
    stamp(geometry, place, bytes);
    saved
}

// Puts the words that a header saved back into the stored sectors.
pub fn unpack(header: &[u8; 512], bytes: &mut [u8])
    ensures { bytes.new ≡ restored (whole_sectors bytes.old) header.now bytes.old }
{
    with_words(bytes, &bytes_at(header, 44));
}
