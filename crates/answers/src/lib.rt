// Answers as text: the reply of a call, or why it is refused, and the pin.
#![tactic(auto)]

use chip::CallAnswer;
use event_answer::EventReply;
use firmware::RequestReply;
use output::Bytes;
use refusal::Refusal;
use std::fmt;

// What a call that is not refused is replied.
pub trait Reply {
    // A word, and how many of the lent bytes go with it.
    fn told(&self) -> (&'static str, usize);
}

// A transfer
impl Reply for u16 {
    fn told(&self) -> (&'static str, usize) {
        ("reply", *self as usize)
    }
}

impl Reply for EventReply {
    fn told(&self) -> (&'static str, usize) {
        match *self {
            EventReply::Done => ("ok", 0),
            EventReply::Silence => ("silence", 0),
            EventReply::Ack => ("ack", 0),
            EventReply::Nak => ("nak", 0),
            EventReply::Stall => ("stall", 0),
            EventReply::Data0(count) => ("data0", count as usize),
            EventReply::Data1(count) => ("data1", count as usize),
        }
    }
}

// A step
impl Reply for Option<RequestReply> {
    fn told(&self) -> (&'static str, usize) {
        match *self {
            None => ("idle", 0),
            Some(RequestReply::Stall) => ("stall", 0),
            Some(RequestReply::Ack) => ("ack", 0),
            Some(RequestReply::Data(count)) => ("data", count as usize),
        }
    }
}

// What a call is answered, with the bytes that were lent for its reply.
#[derive(Clone, Copy)]
pub struct Answer<'a, S, R> {
    pub call: &'a CallAnswer<S, R>,
    pub bytes: &'a [u8],
}

impl<'a, S, R: Reply> fmt::Display for Answer<'a, S, R> {
    fn fmt<W: fmt::Write>(&self, f: &mut fmt::Formatter<W>) -> fmt::Result {
        match &self.call.reply {
            Ok(reply) => {
                let (word, count) = reply.told();
                let data = Bytes::first(count, self.bytes);
                write!(f, "{word}{data}")?;
            }
            Err(refusal) => write!(f, "{refusal}")?,
        }
        let pin = self.call.pin;
        write!(f, " int={pin}")
    }
}

// The same where no chip is asked: there is no pin.
#[derive(Clone, Copy)]
pub struct Checked(pub Result<(), Refusal>);

impl fmt::Display for Checked {
    fn fmt<W: fmt::Write>(&self, f: &mut fmt::Formatter<W>) -> fmt::Result {
        match self.0 {
            Ok(()) => f.write_str("ok"),
            Err(refusal) => write!(f, "{refusal}"),
        }
    }
}
