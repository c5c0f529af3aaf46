// Why a call is refused (document 01, "Numbers of refusal", and document 02, Asks 1, 3 and 5).
#![tactic(auto)]

ghost use Rattle.std.specs.Prelude.{◌≡◌};
ghost use Rattle.refusal.specs.Number.{refusal_number, refusal_found, refusal_of};

use std::fmt;

#[derive(Clone, Copy, Debug, PartialEq, Eq)]
pub enum Refusal {
    // A record passed in is not sound.
    Unsound,
    // A transfer has no command byte.
    NoCommand,
    // A transfer has over 4,096 bytes.
    LongTransfer,
    // The reply buffer is too short.
    ShortBuffer,
    // An event code is not one of ours.
    UnknownEvent,
    // An OUT payload is over 64 bytes: so many were found.
    OutPayload(usize),
    // A SETUP payload, or the firmware's input, is not eight bytes: so many were found.
    SetupPayload(usize),
    // A transaction's address is over 127 or its endpoint over 15.
    BadAddress,
    // There is no such desk.
    NoDesk,
    // The desk is closed or, on opening, already open.
    DeskState,
    // The key is not the desk's.
    WrongKey,
    // On opening: the key is 0, or in use at another open desk.
    BadKey,
    // A file is no lesson: the entry that is named.
    NoLesson(usize),
}

// Its number and, of a payload, the length that was found.
impl fmt::Display for Refusal {
    fn fmt<W: fmt::Write>(&self, f: &mut fmt::Formatter<W>) -> fmt::Result {
        write!(f, "refused {}", self.number())?;
        match self {
            Refusal::OutPayload(n) | Refusal::SetupPayload(n) => write!(f, " found {n}"),
            _ => Ok(()),
        }
    }
}

impl Refusal {
    // `number` and `found` each give one of the two numbers that C programs read; a `From` would say neither's name.
    pub fn number(self) -> u8
        ensures { result ≡ refusal_number self }
    {
        match self {
            Refusal::Unsound => 1,
            Refusal::NoCommand => 2,
            Refusal::LongTransfer => 3,
            Refusal::ShortBuffer => 4,
            Refusal::UnknownEvent => 5,
            Refusal::OutPayload(_) => 6,
            Refusal::SetupPayload(_) => 8,
            Refusal::BadAddress => 7,
            Refusal::NoDesk => 9,
            Refusal::DeskState => 10,
            Refusal::WrongKey => 11,
            Refusal::BadKey => 12,
            Refusal::NoLesson(_) => 13,
        }
    }

    // What the refusal tells: the length that was found, of a payload; the entry, of a lesson; else 0.
    pub fn found(self) -> usize
        ensures { result ≡ refusal_found self }
    {
        match self {
            Refusal::OutPayload(n) => n,
            Refusal::SetupPayload(n) => n,
            Refusal::NoLesson(n) => n,
            _ => 0,
        }
    }

    // Of the two numbers that a C program's answer has: the refusal of this number, with the length or the entry where it tells one.
    pub fn numbered(number: u8, found: usize) -> Self
        ensures { result ≡ refusal_of number found }
    {
        match number {
            1 => Refusal::Unsound,
            2 => Refusal::NoCommand,
            3 => Refusal::LongTransfer,
            4 => Refusal::ShortBuffer,
            5 => Refusal::UnknownEvent,
            6 => Refusal::OutPayload(found),
            8 => Refusal::SetupPayload(found),
            9 => Refusal::NoDesk,
            10 => Refusal::DeskState,
            11 => Refusal::WrongKey,
            12 => Refusal::BadKey,
            13 => Refusal::NoLesson(found),
            _ => Refusal::BadAddress,
        }
    }
}
