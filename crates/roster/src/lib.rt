// A roster: the classroom, and what is kept for each desk. A line at a desk is done by the calls of that desk, with its key.
#![tactic(auto)]

ghost use Rattle.std.specs.Prelude.{◌≡◌, ◌≤◌, true, length, IsErr};
ghost use Rattle.classroom_record.specs.Record.{is_desk, all_closed};
ghost use Rattle.classroom.specs.Calls.{calling_checked};

use answers::Checked;
use chip::{CallAnswer, Chip};
use classroom::{Classroom, DeskNumber};
use console::Caller;
use event_answer::EventReply;
use firmware::RequestReply;
use model::Event;
use std::fmt;
use std::fmt::Write;

// What is kept of a desk from its opening on.
#[derive(Clone, Copy)]
pub struct Seat {
    // The bytes lent for replies.
    pub room: usize,
    // How many calls were made.
    pub calls: u64,
}

impl Seat {
    // As at the opening: the console's room.
    pub fn fresh() -> Self {
        Seat {
            room: console::ROOM,
            calls: 0,
        }
    }
}

#[derive(Clone, Copy)]
pub struct Roster {
    pub classroom: Classroom,
    pub seats: [Seat; 16],
}

// Whom a line names: a desk, and a key that may be its own.
#[derive(Clone, Copy)]
pub struct Pupil {
    pub number: DeskNumber,
    pub key: u32,
}

// A desk as its pupil calls it.
#[derive(Drop)]
struct Seated<'a> {
    classroom: &'a mut Classroom,
    calls: &'a mut u64,
    number: DeskNumber,
    key: u32,
    ghost there: { is_desk number ≡ true },
}

impl<'a> Seated<'a> {
    // One call more.
    fn count(&mut self) {
        *self.calls = self.calls.wrapping_add(1);
    }
}

impl<'a> Caller for Seated<'a> {
    fn transfer(&mut self, bytes: &[u8], reply: &mut [u8]) -> CallAnswer<(), u16> {
        self.count();
        let answer = desk::transfer(*self.classroom, self.number, self.key, bytes, reply);
        console::keep(self.classroom, answer)
    }

    fn event(
        &mut self,
        event: Event,
        payload: &[u8],
        reply: &mut [u8],
    ) -> CallAnswer<(), EventReply> {
        self.count();
        let answer = desk::event(
            *self.classroom,
            self.number,
            self.key,
            event,
            payload,
            reply,
        );
        console::keep(self.classroom, answer)
    }

    fn step(&mut self, reply: &mut [u8]) -> CallAnswer<(), Option<RequestReply>> {
        self.count();
        let answer = desk::step(*self.classroom, self.number, self.key, reply);
        console::keep(self.classroom, answer)
    }

    // The classroom is copied for it: an element behind the two references is not lent on.
    fn chip(&self) -> Chip {
        self.classroom.desk_at(self.number).board.chip
    }
}

impl Roster {
    pub fn start() -> Self
        ensures { result.classroom ≡ all_closed }
    {
        Roster {
            classroom: Classroom::start(),
            seats: [Seat::fresh(); 16],
        }
    }

    // A line at a desk. The key is looked at first, whatever the line asks for; a line that it refuses changes nothing.
    pub fn call(
        &mut self,
        pupil: Pupil,
        number: u64,
        line: &[u8],
        bytes: &mut [u8],
        out: &mut impl Write,
    ) -> fmt::Result
        requires { length line.now ≤ length bytes.old }
        ensures { IsErr (calling_checked self.old.classroom pupil.number pupil.key) → self.new ≡ self.old }
    {
        let desk = pupil.number;
        let key = pupil.key;
        let checked = classroom::check_call(self.classroom, desk, key);
        if checked.is_err() {
            let told = Checked(checked);
            return writeln!(out, "{number} {told}");
        }
        let i = desk.0 as usize;
        // Taken out and put back: two fields are not lent through one element.
        let mut seat = self.seats[i];
        let mut seated = Seated {
            classroom: &mut self.classroom,
            calls: &mut seat.calls,
            number: desk,
            key,
        };
        let told = console::take_line(&mut seated, &mut seat.room, number, line, bytes, out);
        self.seats[i] = seat;
        told
    }
}
