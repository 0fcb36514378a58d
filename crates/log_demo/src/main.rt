// Logs in print: what is found in the log of a volume just labelled, in one torn by a cut of power, and in one with a bad byte.
#![tactic(auto)]

mod chains;
mod tearing;

use crate::chains::tell_chains;
use label::label::Label;
use std::io;

// Sectors 32 to 63 are the log, 16 of them may be in flight, and a record has at most 4096 bytes of data.
// Kept: shared by programs and tests it would need a crate of its own for one constant.
const LABEL: Label = Label {
    start: 32,
    count: 32,
    window: 16,
    most: 4096,
    uuid: [0, 1, 2, 3, 4, 5, 6, 7, 8, 9, 10, 11, 12, 13, 14, 15],
};

fn main(rt: HostRuntime) -> io::Result<()> {
    tell_chains(&rt, LABEL)
}
