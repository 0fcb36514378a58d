// What is found in a log.

// The greatest position held, the head, the newest record's position, its end, and the tail that it tells.
#[derive(Clone, Copy, PartialEq, Eq, Debug)]
pub struct Found {
    pub greatest: u64,
    pub head: u64,
    pub newest: u64,
    pub end: u64,
    pub tail: u64,
}
