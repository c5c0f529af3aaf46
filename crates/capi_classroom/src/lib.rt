// The C interface of the classroom (include/max3420e.h): a function promises what the inner one does, its answer flattened. It is an
// archive of its own: the calls on a chip alone stay inlined in libcapi.a (docs/BENCHMARK.md).
// An event's code and marks are numbers, as in crate capi.
#![tactic(auto)]

ghost use Rattle.std.specs.Prelude.{◌≡◌, length};
ghost use Rattle.model.specs.Call.{Call};
ghost use Rattle.capi.specs.Arguments.{event_of};
ghost use Rattle.classroom_record.specs.Record.{all_closed};
ghost use Rattle.classroom.specs.Calls.{open_answer, close_answer, desk_transfer, transfer_lent, desk_event, event_lent, desk_step, step_lent};
ghost use Rattle.flat_classroom.specs.Answer.{flat_teacher, flat_desk_transfer, flat_desk_event, flat_desk_step};
ghost use Rattle.capi_classroom.specs.Arguments.{desk_number};

use capi::event_of;
use classroom::{Classroom, DeskNumber};
use flat_classroom::{
    FlatDeskAnswer, FlatDeskStep, FlatTeacherAnswer, flat_desk_answer, flat_desk_step, flat_teacher,
};

pub fn max3420e_classroom_start() -> Classroom
    ensures { result ≡ all_closed }
{
    Classroom::start()
}

pub fn max3420e_open_desk(classroom: Classroom, desk: u8, key: u32) -> FlatTeacherAnswer
    ensures { result ≡ flat_teacher (open_answer classroom (desk_number desk) key) }
{
    flat_teacher(classroom::open(classroom, DeskNumber(desk), key))
}

pub fn max3420e_close_desk(classroom: Classroom, desk: u8) -> FlatTeacherAnswer
    ensures { result ≡ flat_teacher (close_answer classroom (desk_number desk)) }
{
    flat_teacher(classroom::close(classroom, DeskNumber(desk)))
}

#[tactic(auto, unfolding(flat_classroom::specs::Answer::flat_desk_answer_of, flat_classroom::specs::Answer::flat_desk_transfer))]
pub fn max3420e_desk_transfer(
    classroom: Classroom,
    desk: u8,
    key: u32,
    bytes: &[u8],
    reply: &mut [u8],
) -> FlatDeskAnswer
    ensures { (result ≡ flat_desk_transfer (desk_transfer classroom (desk_number desk) key
        (Call.transfer bytes.now (length reply.old))))
        × (reply.new ≡ transfer_lent classroom (desk_number desk) key bytes.now reply.old) }
{
    flat_desk_answer(desk::transfer(classroom, DeskNumber(desk), key, bytes, reply))
}

#[tactic(auto, unfolding(flat_classroom::specs::Answer::flat_desk_answer_of, flat_classroom::specs::Answer::flat_desk_event))]
pub fn max3420e_desk_event(
    classroom: Classroom,
    desk: u8,
    key: u32,
    code: u8,
    pins: u8,
    address: u8,
    endpoint: u8,
    damaged: u8,
    data1: u8,
    acknowledged: u8,
    payload: &[u8],
    reply: &mut [u8],
) -> FlatDeskAnswer
    ensures { (result ≡ flat_desk_event (desk_event classroom (desk_number desk) key
        (Call.event (event_of code pins address endpoint damaged data1 acknowledged) payload.now (length reply.old))))
        × (reply.new ≡ event_lent classroom (desk_number desk) key (event_of code pins address endpoint damaged data1 acknowledged)
        payload.now reply.old) }
{
    let event = event_of(code, pins, address, endpoint, damaged, data1, acknowledged);
    flat_desk_answer(desk::event(classroom, DeskNumber(desk), key, event, payload, reply))
}

pub fn max3420e_desk_step(
    classroom: Classroom,
    desk: u8,
    key: u32,
    reply: &mut [u8],
) -> FlatDeskStep
    ensures { (result ≡ flat_desk_step (desk_step classroom (desk_number desk) key (length reply.old)))
        × (reply.new ≡ step_lent classroom (desk_number desk) key reply.old) }
{
    flat_desk_step(desk::step(classroom, DeskNumber(desk), key, reply))
}
