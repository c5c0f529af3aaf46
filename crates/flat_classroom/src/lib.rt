// What the classroom's C functions hand back: the classroom as it is, the reply and the pin as numbers (include/max3420e.h).
// The numbers are the C interface's, as in crate flat.
#![tactic(auto)]

ghost use Rattle.std.specs.Prelude.{◌≡◌};
ghost use Rattle.refusal.specs.Check.{checked_number};
ghost use Rattle.flat_classroom.specs.Answer.{flat_teacher, flat_desk_answer_of, flat_desk_step};

use chip::CallAnswer;
use classroom::{Classroom, DeskStep, TeacherAnswer};
use flat::{Reply, pin_number, reply_numbers};
use refusal::Refusal;

// What opening and closing a desk hand back.
#[repr(C)]
#[derive(Clone, Copy)]
pub struct FlatTeacherAnswer {
    pub classroom: Classroom,
    pub refusal: u8,
}

// What a pupil's transfer or event hands back.
#[repr(C)]
#[derive(Clone, Copy)]
pub struct FlatDeskAnswer {
    pub classroom: Classroom,
    pub refusal: u8,
    pub pid: u8,
    pub count: u16,
    pub pin: u8,
    pub found: usize,
}

// What a pupil's board step hands back.
#[repr(C)]
#[derive(Clone, Copy)]
pub struct FlatDeskStep {
    pub classroom: Classroom,
    pub refusal: u8,
    pub kind: u8,
    pub count: u16,
    pub pin: u8,
    pub found: usize,
}

fn checked_number(checked: Result<(), Refusal>) -> u8
    ensures { result ≡ checked_number checked }
{
    match checked {
        Ok(()) => 0,
        Err(refusal) => refusal.number(),
    }
}

#[tactic(auto, unfolding(crate::specs::Answer::flat_teacher))]
pub fn flat_teacher(answer: TeacherAnswer) -> FlatTeacherAnswer
    ensures { result ≡ flat_teacher answer }
{
    let classroom = answer.classroom;
    let checked = answer.checked;
    FlatTeacherAnswer {
        classroom,
        refusal: checked_number(checked),
    }
}

// A transfer's answer or an event's.
#[tactic(auto, unfolding(crate::specs::Answer::flat_desk_answer_of))]
pub fn flat_desk_answer<R: Reply>(answer: CallAnswer<Classroom, R>) -> FlatDeskAnswer
    ensures { result ≡ flat_desk_answer_of R.kind R.count answer }
{
    let n = reply_numbers(answer.reply);
    FlatDeskAnswer {
        classroom: answer.state,
        refusal: n.refusal,
        pid: n.kind,
        count: n.count,
        pin: pin_number(answer.pin),
        found: n.found,
    }
}

#[tactic(auto, unfolding(crate::specs::Answer::flat_desk_step))]
pub fn flat_desk_step(answer: DeskStep) -> FlatDeskStep
    ensures { result ≡ flat_desk_step answer }
{
    let n = reply_numbers(answer.reply);
    FlatDeskStep {
        classroom: answer.state,
        refusal: n.refusal,
        kind: n.kind,
        count: n.count,
        pin: pin_number(answer.pin),
        found: n.found,
    }
}
