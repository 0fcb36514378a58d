// What an item asks.
use keys::patch::PatchKey;

// A patch and a cancel have a range of sectors, an open and a close the id of an intent.
#[derive(Clone, Copy, PartialEq, Eq, Debug)]
pub enum Class {
    Malformed,
    Patch(PatchKey),
    Cancel(PatchKey),
    Open(u64),
    Close(u64),
}
