// The meaning of the MAX3420E: definitions and theorems, no functions. The types below are those that the code above shares with
// the definitions: what an endpoint decides on a transaction that it hears.
#![tactic(auto)]

#[derive(Clone, Copy)]
pub enum OutVerdict {
    // The endpoint is disabled.
    Silent,
    Stall,
    // There is no room, or the status stage is not to be acknowledged yet.
    Nak,
    // The wrong toggle: acknowledged and dropped.
    Drop,
    Store,
    // A status stage is acknowledged.
    Status,
}

#[derive(Clone, Copy)]
pub enum InVerdict {
    // The endpoint is disabled.
    Silent,
    Stall,
    // Nothing is armed, or the status stage is not to be acknowledged yet.
    Nak,
    Send,
    // A status stage is answered by an empty DATA1.
    Status,
}
