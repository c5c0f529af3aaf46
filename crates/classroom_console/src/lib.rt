// The console of a classroom: the teacher opens, closes and lists desks, and pupils have their lines.
#![tactic(auto)]

ghost use Rattle.std.specs.Prelude.{◌≤◌, length};
ghost use Rattle.classroom_script.specs.Place.{desk_line};

use answers::Checked;
use classroom::DeskNumber;
use classroom_script::ClassroomCommand;
use messages::{CLASSROOM_HELP, Reason};
use output::Count;
use roster::{Pupil, Roster, Seat};
use std::fmt;
use std::fmt::Write;

// A desk that opens has no calls yet, and the console's room.
#[tactic(auto, unfolding(classroom::specs::Calls::open_answer))]
fn open(
    roster: &mut Roster,
    number: u64,
    desk: DeskNumber,
    key: u32,
    out: &mut impl Write,
) -> fmt::Result {
    let answer = classroom::open(roster.classroom, desk, key);
    roster.classroom = answer.classroom;
    if answer.checked.is_ok() {
        roster.seats[desk.0 as usize] = Seat::fresh();
    }
    let told = Checked(answer.checked);
    writeln!(out, "{number} {told}")
}

fn close(roster: &mut Roster, number: u64, desk: DeskNumber, out: &mut impl Write) -> fmt::Result {
    let answer = classroom::close(roster.classroom, desk);
    roster.classroom = answer.classroom;
    let told = Checked(answer.checked);
    writeln!(out, "{number} {told}")
}

// The desks that are open. Their keys are not told: pupils look on.
fn write_desks(roster: &Roster, number: u64, out: &mut impl Write) -> fmt::Result {
    let mut some = false;
    for (desk, (place, seat)) in roster.classroom.desks.iter().zip(&roster.seats).enumerate() {
        if place.opened == 1 {
            let calls = Count(seat.calls, "call", "calls");
            writeln!(out, "{number} desk {desk}: {calls}")?;
            some = true;
        }
    }
    if some {
        return Ok(());
    }
    writeln!(out, "{number} no desk is open")
}

// Does what a line asks for.
fn perform(
    roster: &mut Roster,
    number: u64,
    order: ClassroomCommand,
    bytes: &mut [u8],
    out: &mut impl Write,
) -> fmt::Result
    requires { length (desk_line order) ≤ length bytes.old }
{
    match order {
        ClassroomCommand::Open(desk, key) => open(roster, number, desk, key, out),
        ClassroomCommand::Close(desk) => close(roster, number, desk, out),
        ClassroomCommand::Desks => write_desks(roster, number, out),
        ClassroomCommand::Help => out.write_str(CLASSROOM_HELP),
        ClassroomCommand::Call(desk, key, line) => {
            let pupil = Pupil { number: desk, key };
            roster.call(pupil, number, line, bytes, out)
        }
    }
}

// Takes a line, without its line end, and puts its answer. The lent bytes are for what the line names.
pub fn take_line(
    roster: &mut Roster,
    number: u64,
    line: &[u8],
    bytes: &mut [u8],
    out: &mut impl Write,
) -> fmt::Result
    requires { length line.now ≤ length bytes.old }
{
    match classroom_script::parse_order(words::content(line)) {
        Ok(Some(order)) => perform(roster, number, order, bytes, out),
        Ok(None) => Ok(()),
        Err(fault) => {
            let reason = Reason(fault);
            writeln!(out, "{number} error: {reason}")
        }
    }
}
