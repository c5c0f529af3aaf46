// What C programs call of the classroom (include/max3420e.h), with C's numbers: the functions of crate capi_classroom, each with the same promise, exported
// as a static library of its own: the calls on a chip alone stay inlined in libcapi.a (docs/BENCHMARK.md).
#![tactic(auto)]

ghost use Rattle.std.specs.Prelude.{◌≡◌, length};
ghost use Rattle.model.specs.Call.{Call};
ghost use Rattle.capi.specs.Arguments.{event_of};
ghost use Rattle.classroom_record.specs.Record.{all_closed};
ghost use Rattle.classroom.specs.Calls.{open_answer, close_answer, desk_transfer, transfer_lent, desk_event, event_lent, desk_step, step_lent};
ghost use Rattle.flat_classroom.specs.Answer.{flat_teacher, flat_desk_transfer, flat_desk_event, flat_desk_step};
ghost use Rattle.capi_classroom.specs.Arguments.{desk_number};

use classroom::Classroom;
use flat_classroom::{FlatDeskAnswer, FlatDeskStep, FlatTeacherAnswer};

#[unsafe(no_mangle)]
pub extern "C" fn max3420e_classroom_start() -> Classroom
    ensures { result ≡ all_closed }
{
    capi_classroom::max3420e_classroom_start()
}

#[unsafe(no_mangle)]
pub extern "C" fn max3420e_open_desk(classroom: Classroom, desk: u8, key: u32) -> FlatTeacherAnswer
    ensures { result ≡ flat_teacher (open_answer classroom (desk_number desk) key) }
{
    capi_classroom::max3420e_open_desk(classroom, desk, key)
}

#[unsafe(no_mangle)]
pub extern "C" fn max3420e_close_desk(classroom: Classroom, desk: u8) -> FlatTeacherAnswer
    ensures { result ≡ flat_teacher (close_answer classroom (desk_number desk)) }
{
    capi_classroom::max3420e_close_desk(classroom, desk)
}

#[unsafe(no_mangle)]
pub extern "C" fn max3420e_desk_transfer(
    classroom: Classroom,
    desk: u8,
    key: u32,
    bytes: &[u8],
    reply: &mut [u8],
) -> FlatDeskAnswer
    ensures { (result ≡ flat_desk_transfer (desk_transfer classroom (desk_number desk) key
        (Call.transfer bytes.now (length reply.old))))
        × (reply.new ≡ transfer_lent classroom (desk_number desk) key bytes.now reply.old) }
{
    capi_classroom::max3420e_desk_transfer(classroom, desk, key, bytes, reply)
}

#[unsafe(no_mangle)]
pub extern "C" fn max3420e_desk_event(
    classroom: Classroom,
    desk: u8,
    key: u32,
    code: u8,
    pins: u8,
    address: u8,
    endpoint: u8,
    damaged: u8,
    data1: u8,
    acknowledged: u8,
    payload: &[u8],
    reply: &mut [u8],
) -> FlatDeskAnswer
    ensures { (result ≡ flat_desk_event (desk_event classroom (desk_number desk) key
        (Call.event (event_of code pins address endpoint damaged data1 acknowledged) payload.now (length reply.old))))
        × (reply.new ≡ event_lent classroom (desk_number desk) key (event_of code pins address endpoint damaged data1 acknowledged)
        payload.now reply.old) }
{
    capi_classroom::max3420e_desk_event(
        classroom,
        desk,
        key,
        code,
        pins,
        address,
        endpoint,
        damaged,
        data1,
        acknowledged,
        payload,
        reply,
    )
}

#[unsafe(no_mangle)]
pub extern "C" fn max3420e_desk_step(
    classroom: Classroom,
    desk: u8,
    key: u32,
    reply: &mut [u8],
) -> FlatDeskStep
    ensures { (result ≡ flat_desk_step (desk_step classroom (desk_number desk) key (length reply.old)))
        × (reply.new ≡ step_lent classroom (desk_number desk) key reply.old) }
{
    capi_classroom::max3420e_desk_step(classroom, desk, key, reply)
}
