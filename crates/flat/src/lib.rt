// What the C functions hand back: the records as they are, the reply and the pin as numbers (include/max3420e.h). The numbers are that
// interface's alone, so that they stand here and not as a `From` of the types.
#![tactic(auto)]

ghost use Rattle.std.specs.Prelude.{◌≡◌, refl, ℕ, Result, Ok, Err};
ghost use Rattle.refusal.specs.declared.Refusal.{Refusal};
ghost use Rattle.refusal.specs.Number.{refusal_number, refusal_found};
ghost use Rattle.chip.specs.Pin.{pin_number};
ghost use Rattle.spi.specs.Transfer.{transfer_count};
ghost use Rattle.bus.specs.EventCall.{event_pid, event_count};
ghost use Rattle.firmware.specs.Answer.{request_kind, request_count};
ghost use Rattle.board.specs.Board.{step_kind, step_count};
ghost use Rattle.flat.specs.Answer.{numbers_of, endpoints_number, flat_answer_of, flat_step, flat_request};

use board::BoardStep;
use bus::EventReply;
use chip::{CallAnswer, Chip, Pin};
use firmware::{RequestAnswer, RequestReply};
use refusal::Refusal;
use request::{Endpoints, Firmware};

// What a transfer or an event hands back.
#[repr(C)]
#[derive(Clone, Copy)]
pub struct FlatAnswer {
    pub chip: Chip,
    pub refusal: u8,
    pub pid: u8,
    pub count: u16,
    pub pin: u8,
    pub found: usize,
}

// What a board step hands back.
#[repr(C)]
#[derive(Clone, Copy)]
pub struct FlatBoardAnswer {
    pub chip: Chip,
    pub firmware: Firmware,
    pub refusal: u8,
    pub kind: u8,
    pub count: u16,
    pub pin: u8,
    pub found: usize,
}

// What the firmware's answer to eight setup bytes hands back.
#[repr(C)]
#[derive(Clone, Copy)]
pub struct FlatRequestAnswer {
    pub firmware: Firmware,
    pub refusal: u8,
    pub kind: u8,
    pub endpoints: u8,
    pub count: u16,
    pub found: usize,
}

// A reply: the number of refusal and the length that it tells, the PID or the kind, and the bytes written.
#[derive(Clone, Copy)]
pub struct Numbers {
    pub refusal: u8,
    pub found: usize,
    pub kind: u8,
    pub count: u16,
}

pub fn pin_number(pin: Pin) -> u8
    ensures { result ≡ pin_number pin }
{
    match pin {
        Pin::Low => 0,
        Pin::High => 1,
        Pin::Open => 2,
    }
}

fn refused_numbers(refusal: Refusal) -> Numbers
    ensures { result ≡ record { refusal = refusal_number refusal; found = refusal_found refusal; kind = 0; count = 0 } }
{
    Numbers {
        refusal: refusal.number(),
        found: refusal.found(),
        kind: 0,
        count: 0,
    }
}

fn answered_numbers(kind: u8, count: u16) -> Numbers
    ensures { result ≡ record { refusal = 0; found = 0; kind = kind; count = count } }
{
    Numbers {
        refusal: 0,
        found: 0,
        kind,
        count,
    }
}

// What the reply of an accepted call is in numbers. `kind` and `count` read the whole reply, a refusal too.
pub trait Reply: Copy {
    ghost kind: { Result Self Refusal → ℕ };

    ghost count: { Result Self Refusal → ℕ };

    fn numbers(self) -> Numbers
        ensures { result ≡ numbers_of kind count (Ok self) };

    // A refusal has neither.
    ghost refused_kind: { (r : Refusal) → kind (Err r) ≡ 0 };

    ghost refused_count: { (r : Refusal) → count (Err r) ≡ 0 };
}

// A transfer's: no packet on the bus, so no PID.
impl Reply for u16 {
    ghost kind = { λ r. 0 };

    ghost count = { transfer_count };

    ghost refused_kind = { λ r. refl };

    ghost refused_count = { λ r. refl };

    fn numbers(self) -> Numbers {
        answered_numbers(0, self)
    }
}

impl Reply for EventReply {
    ghost kind = { event_pid };

    ghost count = { event_count };

    ghost refused_kind = { λ r. refl };

    ghost refused_count = { λ r. refl };

    fn numbers(self) -> Numbers {
        match self {
            EventReply::Done | EventReply::Silence => answered_numbers(0, 0),
            EventReply::Ack => answered_numbers(0xd2, 0),
            EventReply::Nak => answered_numbers(0x5a, 0),
            EventReply::Stall => answered_numbers(0x1e, 0),
            EventReply::Data0(n) => answered_numbers(0xc3, n as u16),
            EventReply::Data1(n) => answered_numbers(0x4b, n as u16),
        }
    }
}

impl Reply for RequestReply {
    ghost kind = { request_kind };

    ghost count = { request_count };

    ghost refused_kind = { λ r. refl };

    ghost refused_count = { λ r. refl };

    fn numbers(self) -> Numbers {
        match self {
            RequestReply::Stall => answered_numbers(1, 0),
            RequestReply::Ack => answered_numbers(2, 0),
            RequestReply::Data(n) => answered_numbers(3, n as u16),
        }
    }
}

// A step's: where there was nothing to serve, as where nothing is replied.
impl Reply for Option<RequestReply> {
    ghost kind = { step_kind };

    ghost count = { step_count };

    ghost refused_kind = { λ r. refl };

    ghost refused_count = { λ r. refl };

    fn numbers(self) -> Numbers {
        match self {
            None => answered_numbers(0, 0),
            Some(served) => served.numbers(),
        }
    }
}

pub fn reply_numbers<R: Reply>(reply: Result<R, Refusal>) -> Numbers
    ensures { result ≡ numbers_of R.kind R.count reply }
{
    match reply {
        Err(refusal) => refused_numbers(refusal),
        Ok(answered) => answered.numbers(),
    }
}

// What is to be written to R9 and R10.
fn endpoints_number(endpoints: Endpoints) -> u8
    ensures { result ≡ endpoints_number endpoints }
{
    match endpoints {
        Endpoints::Unchanged => 0,
        Endpoints::ClearHalt => 1,
        Endpoints::SetHalt => 2,
        Endpoints::Configure => 3,
    }
}

// A transfer's answer or an event's.
#[tactic(auto, unfolding(crate::specs::Answer::flat_answer_of))]
pub fn flat_answer<R: Reply>(answer: CallAnswer<Chip, R>) -> FlatAnswer
    ensures { result ≡ flat_answer_of R.kind R.count answer }
{
    let n = reply_numbers(answer.reply);
    FlatAnswer {
        chip: answer.state,
        refusal: n.refusal,
        pid: n.kind,
        count: n.count,
        pin: pin_number(answer.pin),
        found: n.found,
    }
}

#[tactic(auto, unfolding(crate::specs::Answer::flat_step))]
pub fn flat_step(answer: BoardStep) -> FlatBoardAnswer
    ensures { result ≡ flat_step answer }
{
    let n = reply_numbers(answer.reply);
    FlatBoardAnswer {
        chip: answer.state.chip,
        firmware: answer.state.firmware,
        refusal: n.refusal,
        kind: n.kind,
        count: n.count,
        pin: pin_number(answer.pin),
        found: n.found,
    }
}

#[tactic(auto, unfolding(crate::specs::Answer::flat_request))]
pub fn flat_request(answer: RequestAnswer) -> FlatRequestAnswer
    ensures { result ≡ flat_request answer }
{
    let firmware = answer.firmware;
    let reply = answer.reply;
    let endpoints = answer.endpoints;
    let n = reply_numbers(reply);
    FlatRequestAnswer {
        firmware,
        refusal: n.refusal,
        kind: n.kind,
        endpoints: endpoints_number(endpoints),
        count: n.count,
        found: n.found,
    }
}
