// The console: a line is read, what it asks for is called, and the answer is put. The board is held here and nowhere else.
#![tactic(auto)]

ghost use Rattle.std.specs.Prelude.{◌≤◌, length};

use answers::{Answer, Reply};
use board::Board;
use chip::{CallAnswer, Chip};
use event_answer::EventReply;
use firmware::RequestReply;
use messages::{HELP, Reason};
use model::Event;
use script::Command;
use show::Record;
use std::fmt;
use std::fmt::Write;

// The bytes lent for replies at first. No reply is longer, so that a greater room answers as this one does.
pub const ROOM: usize = 4200;

// What the calls of a line are made on: the console's board, or that of a desk.
pub trait Caller {
    fn transfer(&mut self, bytes: &[u8], reply: &mut [u8]) -> CallAnswer<(), u16>;

    fn event(
        &mut self,
        event: Event,
        payload: &[u8],
        reply: &mut [u8],
    ) -> CallAnswer<(), EventReply>;

    fn step(&mut self, reply: &mut [u8]) -> CallAnswer<(), Option<RequestReply>>;

    // The record that is shown.
    fn chip(&self) -> Chip;
}

// Puts a record in the place of the one that was called, and keeps the rest of the answer.
pub fn keep<S: Copy, R: Copy>(state: &mut S, answer: CallAnswer<S, R>) -> CallAnswer<(), R> {
    *state = answer.state;
    CallAnswer {
        state: (),
        reply: answer.reply,
        pin: answer.pin,
    }
}

impl Caller for Board {
    fn transfer(&mut self, bytes: &[u8], reply: &mut [u8]) -> CallAnswer<(), u16> {
        let answer = board::transfer(*self, bytes, reply);
        keep(self, answer)
    }

    fn event(
        &mut self,
        event: Event,
        payload: &[u8],
        reply: &mut [u8],
    ) -> CallAnswer<(), EventReply> {
        let answer = board::event(*self, event, payload, reply);
        keep(self, answer)
    }

    fn step(&mut self, reply: &mut [u8]) -> CallAnswer<(), Option<RequestReply>> {
        let answer = board::step(*self, reply);
        keep(self, answer)
    }

    fn chip(&self) -> Chip {
        self.chip
    }
}

fn write_answer<R: Reply + Drop>(
    number: u64,
    call: CallAnswer<(), R>,
    bytes: &[u8],
    out: &mut impl Write,
) -> fmt::Result {
    let answer = Answer { call: &call, bytes };
    writeln!(out, "{number} {answer}")
}

// Does what a command asks for, with so many bytes lent for the reply. The line's number stands before the answer of a call.
fn perform(
    caller: &mut impl Caller,
    room: &mut usize,
    number: u64,
    command: Command,
    bytes: &[u8],
    out: &mut impl Write,
) -> fmt::Result {
    let mut lent_bytes = [0u8; 4200];
    let reply = &mut lent_bytes[..lent(*room)];
    match command {
        Command::Transfer(_) => {
            let answer = caller.transfer(bytes, reply);
            write_answer(number, answer, reply, out)
        }
        Command::Event(event, _) => {
            let answer = caller.event(event, bytes, reply);
            write_answer(number, answer, reply, out)
        }
        Command::Step => {
            let answer = caller.step(reply);
            write_answer(number, answer, reply, out)
        }
        Command::Room(count) => {
            *room = count;
            Ok(())
        }
        Command::Show => {
            let chip = caller.chip();
            let record = Record(&chip);
            write!(out, "{record}")
        }
        Command::Help => out.write_str(HELP),
    }
}

// How many bytes a room lends.
pub fn lent(room: usize) -> usize
    ensures { result ≤ 4200 }
{
    room.min(ROOM)
}

// Takes a line, without its line end, for a caller with so much room, and puts its answer. The lent bytes are for what the line names.
pub fn take_line(
    caller: &mut impl Caller,
    room: &mut usize,
    number: u64,
    line: &[u8],
    bytes: &mut [u8],
    out: &mut impl Write,
) -> fmt::Result
    requires { length line.now ≤ length bytes.old }
{
    match script::parse(line, bytes) {
        Ok(Some(command)) => {
            let count = command.count();
            perform(caller, room, number, command, &bytes[..count], out)
        }
        Ok(None) => Ok(()),
        Err(fault) => {
            let reason = Reason(fault);
            writeln!(out, "{number} error: {reason}")
        }
    }
}

#[derive(Clone, Copy)]
pub struct Console {
    pub board: Board,
    pub room: usize,
}

impl Console {
    pub fn power_on() -> Self {
        Console {
            board: Board::power_on(),
            room: ROOM,
        }
    }

    // Takes a line as the board's caller.
    pub fn take_line(
        &mut self,
        number: u64,
        line: &[u8],
        bytes: &mut [u8],
        out: &mut impl Write,
    ) -> fmt::Result
        requires { length line.now ≤ length bytes.old }
    {
        take_line(&mut self.board, &mut self.room, number, line, bytes, out)
    }
}
