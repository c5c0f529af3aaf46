// What the small programs write on standard output: text, and why a call is refused.
#![tactic(auto)]

use refusal::Refusal;
use std::fmt;

// A write that fails is let go: what these programs write is compared.
pub fn say<D: fmt::Display + Drop>(rt: &impl Print, text: D) {
    let _ = rt.print(text);
}

// What a call is replied, or why it is refused: the refusal's number, and the length that a payload's refusal tells.
#[derive(Clone, Copy)]
pub struct Answered<R>(pub Result<R, Refusal>);

impl<R: fmt::Display> fmt::Display for Answered<R> {
    fn fmt<W: fmt::Write>(&self, f: &mut fmt::Formatter<W>) -> fmt::Result {
        match &self.0 {
            Ok(reply) => write!(f, "{reply}"),
            Err(refusal) => {
                let number = refusal.number();
                write!(f, ": refused {number:02X}")?;
                match refusal {
                    Refusal::OutPayload(found) | Refusal::SetupPayload(found) => {
                        write!(f, " found {found}")
                    }
                    _ => Ok(()),
                }
            }
        }
    }
}
