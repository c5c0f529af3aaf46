// A host on the bus of a chip or of a board. Each event that it makes is written with its reply. Events go by their codes, as in crate model.
#![tactic(auto)]

use board_record::Board;
use chip::{CallAnswer, Chip};
use event_answer::EventReply;
use model::{EndpointNumber, Event};
use output::Bytes;
use print::{Answered, say};
use std::fmt;

// What takes the events of the bus.
pub trait Device: Copy {
    fn event(self, event: Event, payload: &[u8], buffer: &mut [u8]) -> CallAnswer<Self, EventReply>;
}

impl Device for Chip {
    fn event(
        self,
        event: Event,
        payload: &[u8],
        buffer: &mut [u8],
    ) -> CallAnswer<Self, EventReply> {
        bus::event(self, event, payload, buffer)
    }
}

impl Device for Board {
    fn event(
        self,
        event: Event,
        payload: &[u8],
        buffer: &mut [u8],
    ) -> CallAnswer<Self, EventReply> {
        board::event(self, event, payload, buffer)
    }
}

// What an event is replied, with the buffer that a data packet is in.
#[derive(Clone, Copy)]
struct Replied<'a>(EventReply, &'a [u8]);

impl<'a> fmt::Display for Replied<'a> {
    fn fmt<W: fmt::Write>(&self, f: &mut fmt::Formatter<W>) -> fmt::Result {
        match self.0 {
            EventReply::Done => write!(f, ": done"),
            EventReply::Silence => write!(f, ": silence"),
            EventReply::Ack => write!(f, ": ACK"),
            EventReply::Nak => write!(f, ": NAK"),
            EventReply::Stall => write!(f, ": STALL"),
            EventReply::Data0(count) => write!(
                f,
                ": DATA0{}",
                Bytes::first(count as usize, self.1)
            ),
            EventReply::Data1(count) => write!(
                f,
                ": DATA1{}",
                Bytes::first(count as usize, self.1)
            ),
        }
    }
}

// Events have numbers, as the C interface knows them.
const SETUP: u8 = 10;

const OUT: u8 = 11;

const IN: u8 = 12;

const QUIET: Event = Event {
    code: 0,
    pins: 0,
    address: 0,
    endpoint: EndpointNumber(0),
    damaged: false,
    data1: false,
    acknowledged: false,
};

// A host, the device that it talks to, and what is written to.
#[derive(Drop)]
pub struct Host<'a, R, D> {
    pub rt: &'a R,
    pub device: D,
}

impl<'a, R: Print, D: Device> Host<'a, R, D> {
    pub fn say<T: fmt::Display + Drop>(&self, text: T) {
        say(self.rt, text);
    }

    // Makes one call, and writes the reply.
    fn call(&mut self, event: Event, payload: &[u8], buffer: &mut [u8]) {
        let answer = self.device.event(event, payload, buffer);
        self.device = answer.state;
        let replied = Answered(answer.reply.map(|reply| Replied(reply, buffer)));
        self.say(format_args!("{replied}\n"));
    }

    // A call that no data packet answers: no buffer is lent.
    fn send(&mut self, event: Event, payload: &[u8]) {
        self.call(event, payload, &mut []);
    }

    pub fn signal(&mut self, name: &str, code: u8) {
        self.say(name);
        self.send(Event { code, ..QUIET }, b"");
    }

    pub fn setup(&mut self, address: u8, payload: &[u8]) {
        self.say(format_args!("  SETUP{}", Bytes(payload)));
        self.send(
            Event {
                code: SETUP,
                address,
                ..QUIET
            },
            payload,
        );
    }

    // An OUT, and what stands before its reply.
    pub fn send_out<T: fmt::Display + Drop>(
        &mut self,
        name: T,
        address: u8,
        endpoint: EndpointNumber,
        data1: bool,
        payload: &[u8],
    ) {
        self.say(name);
        self.send(
            Event {
                code: OUT,
                address,
                endpoint,
                data1,
                ..QUIET
            },
            payload,
        );
    }

    // An IN, with a buffer filled with EE.
    pub fn send_in<T: fmt::Display + Drop>(
        &mut self,
        name: T,
        address: u8,
        endpoint: EndpointNumber,
        acknowledged: bool,
    ) {
        self.say(name);
        self.call(
            Event {
                code: IN,
                address,
                endpoint,
                acknowledged,
                ..QUIET
            },
            b"",
            &mut [0xEEu8; 64],
        );
    }
}
