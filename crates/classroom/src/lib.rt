// The teacher's calls (document 02, Ask 3): a desk is opened with a key, and closed by its number. Beside them, when a pupil's call is
// refused, and what it hands back; the calls themselves are in crate desk.
#![tactic(auto)]

ghost use Rattle.std.specs.Prelude.{◌≡◌};
ghost use Rattle.refusal.specs.Check.{check};
ghost use Rattle.classroom.specs.Calls.{opening_checked, closing_checked, key_grounds, calling_checked, open_answer, close_answer};

use chip::CallAnswer;
pub use classroom_record::{Classroom, Desk, DeskNumber};
use event_answer::EventReply;
use firmware::RequestReply;
use refusal::Refusal;

// What the teacher's call hands back.
#[derive(Clone, Copy)]
pub struct TeacherAnswer {
    pub classroom: Classroom,
    pub checked: Result<(), Refusal>,
}

// What a pupil's calls hand back. Where 9 to 11 refuse one, it tells nothing of the desk: the pin is open.
pub type DeskTransfer = CallAnswer<Classroom, u16>;

pub type DeskEvent = CallAnswer<Classroom, EventReply>;

pub type DeskStep = CallAnswer<Classroom, Option<RequestReply>>;

// ---- refusals, in the order in which they are looked at

// 9, 10, 12, 1
fn check_opening(room: Classroom, number: DeskNumber, key: u32) -> Result<(), Refusal>
    ensures { result ≡ opening_checked room number key }
{
    if !number.exists() {
        return Err(Refusal::NoDesk);
    }
    let desk = room.desk_at(number);
    if desk.opened == 1 {
        return Err(Refusal::DeskState);
    }
    if (key == 0) | room.key_in_use(key) {
        return Err(Refusal::BadKey);
    }
    if !desk.is_sound() {
        return Err(Refusal::Unsound);
    }
    Ok(())
}

// 9, 10, 1
fn check_closing(room: Classroom, number: DeskNumber) -> Result<(), Refusal>
    ensures { result ≡ closing_checked room number }
{
    if !number.exists() {
        return Err(Refusal::NoDesk);
    }
    let desk = room.desk_at(number);
    if desk.opened != 1 {
        return Err(Refusal::DeskState);
    }
    if !desk.is_sound() {
        return Err(Refusal::Unsound);
    }
    Ok(())
}

// 10, 11; of numbers, so that no classroom is copied for it.
pub fn check_key(opened: u8, own: u32, key: u32) -> Result<(), Refusal>
    ensures { result ≡ check (key_grounds opened own key) }
{
    if opened != 1 {
        return Err(Refusal::DeskState);
    }
    if own != key {
        return Err(Refusal::WrongKey);
    }
    Ok(())
}

// 9, 10, 11: whether a pupil's call would reach the board.
pub fn check_call(room: Classroom, number: DeskNumber, key: u32) -> Result<(), Refusal>
    ensures { result ≡ calling_checked room number key }
{
    if !number.exists() {
        return Err(Refusal::NoDesk);
    }
    let desk = room.desk_at(number);
    check_key(desk.opened, desk.key, key)
}

// ---- the teacher's calls

// Opens a desk with a key.
#[tactic(auto, unfolding(crate::specs::Calls::open_answer))]
pub fn open(room: Classroom, number: DeskNumber, key: u32) -> TeacherAnswer
    ensures { result ≡ open_answer room number key }
{
    let checked = check_opening(room, number, key);
    match checked {
        Ok(()) => {
            let mut desk = room.desk_at(number);
            desk.opened = 1;
            desk.key = key;
            TeacherAnswer {
                classroom: room.with_desk(number, desk),
                checked: Ok(()),
            }
        }
        Err(refusal) => TeacherAnswer {
            classroom: room,
            checked: Err(refusal),
        },
    }
}

// Closes a desk: both records go back to power-on.
#[tactic(auto, unfolding(crate::specs::Calls::close_answer))]
pub fn close(room: Classroom, number: DeskNumber) -> TeacherAnswer
    ensures { result ≡ close_answer room number }
{
    let checked = check_closing(room, number);
    match checked {
        Ok(()) => TeacherAnswer {
            classroom: room.with_desk(number, Desk::closed()),
            checked: Ok(()),
        },
        Err(refusal) => TeacherAnswer {
            classroom: room,
            checked: Err(refusal),
        },
    }
}
