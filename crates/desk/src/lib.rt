// A pupil's calls (document 02, Ask 3): a transfer, an event or a board step names desk and key, and is the board's own call on the records
// of that desk. The classroom stays in its place: no function below takes it, and no two ways join holding it (docs/BENCHMARK.md).
#![tactic(auto)]

ghost use Rattle.std.specs.Prelude.{◌≡◌, ◌<◌, length, MatchResult, Ok, Err};
ghost use Rattle.chip.specs.declared.Pin.TheVariants.{Open};
ghost use Rattle.model.specs.Call.{Call};
ghost use Rattle.classroom.specs.Calls.{calling_checked, desk_transfer, transfer_lent, desk_event, event_lent, desk_step, step_lent};

use chip::{CallAnswer, Pin};
use classroom::{Classroom, DeskEvent, DeskNumber, DeskStep, DeskTransfer, check_key};
use event_answer::EventReply;
use firmware::RequestReply;
use model::Event;
use refusal::Refusal;

// The place of the desk, or why the call is turned away: 9, 10, 11.
fn seat_of(room: &Classroom, number: DeskNumber, key: u32) -> Result<usize, Refusal>
    ensures { MatchResult result
        (λ i. (i ≡ number.0) × (i < 16) × (calling_checked room.now number key ≡ Ok tt))
        (λ r. calling_checked room.now number key ≡ Err r) }
{
    let i = number.0 as usize;
    if 16 <= i {
        return Err(Refusal::NoDesk);
    }
    check_key(room.desks[i].opened, room.desks[i].key, key)?;
    Ok(i)
}

// A call that is turned away tells nothing of the desk: the pin is open.
fn turned_away<R>(room: Classroom, refusal: Refusal) -> CallAnswer<Classroom, R>
    ensures { result ≡ record { state = room; reply = Err refusal; pin = Open } }
{
    CallAnswer {
        state: room,
        reply: Err(refusal),
        pin: Pin::Open,
    }
}

pub fn transfer(
    mut room: Classroom,
    number: DeskNumber,
    key: u32,
    bytes: &[u8],
    reply: &mut [u8],
) -> DeskTransfer
    ensures { (result ≡ desk_transfer room number key (Call.transfer bytes.now (length reply.old)))
        × (reply.new ≡ transfer_lent room number key bytes.now reply.old) }
{
    match seat_of(&room, number, key) {
        Ok(i) => {
            let mut seat = room.desks[i];
            let answer = board::transfer(seat.board, bytes, reply);
            seat.board = answer.state;
            room.desks[i] = seat;
            CallAnswer {
                state: room,
                reply: answer.reply,
                pin: answer.pin,
            }
        }
        Err(refusal) => turned_away::<u16>(room, refusal),
    }
}

pub fn event(
    mut room: Classroom,
    number: DeskNumber,
    key: u32,
    event: Event,
    payload: &[u8],
    reply: &mut [u8],
) -> DeskEvent
    ensures { (result ≡ desk_event room number key (Call.event event payload.now (length reply.old)))
        × (reply.new ≡ event_lent room number key event payload.now reply.old) }
{
    match seat_of(&room, number, key) {
        Ok(i) => {
            let mut seat = room.desks[i];
            let answer = board::event(seat.board, event, payload, reply);
            seat.board = answer.state;
            room.desks[i] = seat;
            CallAnswer {
                state: room,
                reply: answer.reply,
                pin: answer.pin,
            }
        }
        Err(refusal) => turned_away::<EventReply>(room, refusal),
    }
}

pub fn step(mut room: Classroom, number: DeskNumber, key: u32, reply: &mut [u8]) -> DeskStep
    ensures { (result ≡ desk_step room number key (length reply.old))
        × (reply.new ≡ step_lent room number key reply.old) }
{
    match seat_of(&room, number, key) {
        Ok(i) => {
            let mut seat = room.desks[i];
            let answer = board::step(seat.board, reply);
            seat.board = answer.state;
            room.desks[i] = seat;
            CallAnswer {
                state: room,
                reply: answer.reply,
                pin: answer.pin,
            }
        }
        Err(refusal) => turned_away::<Option<RequestReply>>(room, refusal),
    }
}
