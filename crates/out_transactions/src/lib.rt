// SETUP at endpoint 0, and OUT at endpoints 0 and 1, that are heard (document 01, "The bus side"). The verdict comes first; then a
// straight way for each makes the answer, so that no two ways join holding a record.
#![tactic(auto)]

ghost use Rattle.std.specs.Prelude.{◌≡◌, ◌<◌, ◌≤◌, List, ℕ, length};
ghost use Rattle.model.specs.Reply.{outcome, ack};
ghost use Rattle.rules.specs.Control.{ep0_setup, setup_to};
ghost use Rattle.rules.specs.Out.{ep0_filled, ep1_filled, out0_taken, out1_taken, out0, out1};
ghost use Rattle.event_answer.specs.Answer.{outcome_answer};
ghost use Rattle.out_transactions.specs.Handshake.{handshake_of};

use chip::{Chip, Endpoint0, Endpoint1, flipped};
use event_answer::{EventAnswer, EventReply, answer_with};
use rules::OutVerdict;
use std::marker::Model;

// The payload of an OUT that is not refused: at most a buffer's bytes. A clause sees the bytes.
#[derive(Drop)]
struct Payload<'a> {
    bytes: &'a [u8],
}

impl<'a> Model for Payload<'a> {
    ghost Value = { List ℕ };

    ghost view = { λ p. p.bytes.now };

    ghost invariant = { λ p. length p.bytes.now ≤ 64 };
}

impl<'a> Payload<'a> {
    fn new(bytes: &'a [u8]) -> Payload<'a>
        requires { length bytes.now ≤ 64 }
        ensures { result ≡ bytes.now }
    {
        Payload { bytes }
    }
}

// ---- SETUP

fn ep0_setup(mut e: Endpoint0, payload: &[u8]) -> Endpoint0
    requires { length payload.now ≡ 8 }
    ensures { result ≡ ep0_setup e payload.now }
{
    let mut sudfifo = [0u8; 8];
    octets::copy(payload, &mut sudfifo);
    e.setup = sudfifo;
    e.armed = 0;
    e.readpos = 0;
    e.writepos = 0;
    e.setuppos = 0;
    e.intoggle = 1;
    e.outtoggle = 1;
    e.current = 1;
    e
}

// SETUP at endpoint 0: always ACK.
pub fn setup(mut chip: Chip, payload: &[u8]) -> EventAnswer
    requires { length payload.now ≡ 8 }
    ensures { result ≡ outcome_answer (outcome (setup_to chip payload.now) ack) }
{
    let ep0 = chip.ep0;
    let epirq = chip.registers.epirq & !Chip::OUT0DAVIRQ | (Chip::SUDAVIRQ | Chip::IN0BAVIRQ);
    let epstalls = chip.registers.epstalls
        & !(Chip::ACKSTAT | Chip::STLSTAT | Chip::STLEP0OUT | Chip::STLEP0IN);
    chip.ep0 = ep0_setup(ep0, payload);
    chip.registers.epirq = epirq;
    chip.registers.epstalls = epstalls;
    answer_with(chip, Ok(EventReply::Ack))
}

// ---- OUT

// The handshake of a verdict.
fn handshake(verdict: OutVerdict) -> EventReply
    ensures { result ≡ handshake_of verdict }
{
    match verdict {
        OutVerdict::Silent => EventReply::Silence,
        OutVerdict::Stall => EventReply::Stall,
        OutVerdict::Nak => EventReply::Nak,
        OutVerdict::Drop => EventReply::Ack,
        OutVerdict::Store => EventReply::Ack,
        OutVerdict::Status => EventReply::Ack,
    }
}

// The payload at the buffer's start; the rest stays.
fn ep0_filled(mut e: Endpoint0, payload: Payload) -> Endpoint0
    ensures { result ≡ ep0_filled e payload.entry }
{
    let mut buffer = e.bytes;
    let count = octets::copy(payload.bytes, &mut buffer);
    e.bytes = buffer;
    e.count = count as u8;
    e.readpos = 0;
    e.outtoggle = flipped(e.outtoggle);
    e
}

fn out0_taken(mut chip: Chip, payload: Payload) -> Chip
    ensures { result ≡ out0_taken chip payload.entry }
{
    let ep0 = chip.ep0;
    let epirq = chip.registers.epirq | Chip::OUT0DAVIRQ;
    chip.ep0 = ep0_filled(ep0, payload);
    chip.registers.epirq = epirq;
    chip
}

// OUT at endpoint 0.
pub fn out0(chip: Chip, data1: bool, payload: &[u8]) -> EventAnswer
    requires { length payload.now ≤ 64 }
    ensures { result ≡ outcome_answer (out0 chip data1 payload.now) }
{
    let verdict = verdicts::out0_verdict(chip, data1, payload.len());
    if let OutVerdict::Store = verdict {
        return answer_with(out0_taken(chip, Payload::new(payload)), Ok(EventReply::Ack));
    }
    answer_with(chip, Ok(handshake(verdict)))
}

fn ep1_filled(mut e: Endpoint1, payload: Payload) -> Endpoint1
    requires { e.ring.waiting < 2 }
    ensures { result ≡ ep1_filled e payload.entry }
{
    let ring = e.ring;
    e.ring = ring.fill_next(payload.bytes);
    e.toggle = flipped(e.toggle);
    e
}

// As `out0_taken`, but no one function is plainer: the endpoints' records differ in type, and what is left in common is one bit's OR.
fn out1_taken(mut chip: Chip, payload: Payload) -> Chip
    requires { chip.ep1.ring.waiting < 2 }
    ensures { result ≡ out1_taken chip payload.entry }
{
    let ep1 = chip.ep1;
    let epirq = chip.registers.epirq | Chip::OUT1DAVIRQ;
    chip.ep1 = ep1_filled(ep1, payload);
    chip.registers.epirq = epirq;
    chip
}

// OUT at endpoint 1.
pub fn out1(chip: Chip, data1: bool, payload: &[u8]) -> EventAnswer
    requires { length payload.now ≤ 64 }
    ensures { result ≡ outcome_answer (out1 chip data1 payload.now) }
{
    let verdict = verdicts::out1_verdict(chip, data1);
    if let OutVerdict::Store = verdict {
        return answer_with(out1_taken(chip, Payload::new(payload)), Ok(EventReply::Ack));
    }
    answer_with(chip, Ok(handshake(verdict)))
}
