// Prints the checksum of a fixed piece of 32 KiB; with an argument, times the checksum over many such pieces.
#![tactic(auto)]

use crc::running::Crc32c;
use crc::sum::{crc32c, update};
use std::alloc::{AllocError, Global};
use std::time::Instant;
use std::{env, io};

const PIECE: usize = 32768;

const PIECES: u64 = 8192;

// Byte `i` of the piece is `i` modulo 251; made whole and then filled, since a push for each byte looks for room each time.
fn piece(heap: Global) -> Result<Vec<u8>, AllocError> {
    let mut bytes = vec![in heap; 0; PIECE]?;
    for (i, byte) in bytes.iter_mut().enumerate() {
        *byte = (i % 251) as u8;
    }
    Ok(bytes)
}

// The state after the piece, `PIECES` times over.
fn over_and_over(bytes: &[u8]) -> u32 {
    (0..PIECES).fold(Crc32c::new().state, |state, _| update(state, bytes))
}

// Times the checksum over all pieces.
fn tell_rate(rt: &HostRuntime, bytes: &[u8]) -> io::Result<()> {
    let start = Instant::now(rt)?;
    let state = over_and_over(bytes);
    let micros = start.elapsed(rt)?.as_micros().max(1);
    let rate = (PIECES * PIECE as u64) as u128 / micros;
    println!(rt; "{state:08x} {rate} MB/s")
}

fn tell_sum(rt: &HostRuntime, bytes: &[u8]) -> io::Result<()> {
    let sum = crc32c(bytes);
    println!(rt; "{sum:08x}")?;
    if env::args(rt)?.count() < 2 {
        Ok(())
    } else {
        tell_rate(rt, bytes)
    }
}

fn main(rt: HostRuntime) -> io::Result<()> {
    let bytes = piece(rt.alloc())?;
    tell_sum(&rt, &bytes)
}
