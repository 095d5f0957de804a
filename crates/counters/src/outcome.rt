// How a frame ended, and what is told of a request that was carried out.
// Assumes nothing.

// What a call of `step` answers; `step_report` and `served_report` in specs/Ended.antt give document 01's numbers.
// `Refused` and the number of a failure stay in it: `bumped` promises what it does at each.
#[derive(Clone, Copy, Debug, PartialEq, Eq)]
pub enum Outcome {
    Refused,
    More,
    Empty,
    // the command
    Request(u8),
    // key and result
    KeySet(u8, u8),
    Failure(u8),
}
