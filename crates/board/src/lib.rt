// The board: chip and firmware together (document 01, "The firmware", last paragraph). A board call is a list of chip calls.
#![tactic(auto)]

ghost use Rattle.std.specs.Prelude.{◌≡◌, true, ◌≤◌, length};
ghost use Rattle.refusal.specs.Check.{unless_refused, tells};
ghost use Rattle.chip.specs.Sound.{sound_chip};
ghost use Rattle.firmware.specs.Answer.{handled};
ghost use Rattle.request.specs.Record.{sound_firmware};
ghost use Rattle.model.specs.Call.{Call, run_to, buffer_after};
ghost use Rattle.spi.specs.Transfer.{transfer_count};
ghost use Rattle.bus.specs.EventCall.{event_pid, event_count, answer_pid, answer_count};
ghost use Rattle.rules.specs.Event.{max3420e};
ghost use Rattle.step_transfers.specs.Step.{setup_read, served, setup_calls};
ghost use Rattle.board.specs.Board.{board_answer, replied_step, step_checked, step_buffer};
ghost use Rattle.board.specs.Board.{board_answer_with, board_step, board_transfer, board_event, board_checked};
ghost use Rattle.board.specs.Board.{step_kind, step_count, stepped_kind, stepped_count};

pub use board_record::Board;
use board_record::firmware_at;
use chip::{CallAnswer, Chip};
use event_answer::EventReply;
use firmware::RequestReply;
use model::Event;
use refusal::Refusal;

pub type BoardTransfer = CallAnswer<Board, u16>;

pub type BoardEvent = CallAnswer<Board, EventReply>;

// Where there is nothing to serve, a step has no reply.
pub type BoardStep = CallAnswer<Board, Option<RequestReply>>;

// Both records after a step that serves a SETUP, and the firmware's reply.
#[derive(Clone, Copy)]
struct Served {
    board: Board,
    reply: Result<RequestReply, Refusal>,
}

fn serve(board: Board, reply: &mut [u8]) -> Served
    requires { (sound_chip board.chip ≡ true) × (sound_firmware board.firmware ≡ true) × (64 ≤ length reply.old) }
    ensures { (result.board.chip ≡ run_to max3420e board.chip (setup_calls board.chip board.firmware))
        × (result.board.firmware ≡ (served board.chip board.firmware).answer.firmware)
        × (result.reply ≡ (served board.chip board.firmware).answer.reply)
        × (reply.new ≡ (handled (setup_read board.chip) board.firmware reply.old).buffer) }
{
    let c = board.chip;
    let f = board.firmware;
    let epstalls = c.registers.epstalls;
    let clrtogs = c.registers.clrtogs;
    let read = step_transfers::read_setup(c);
    let after = read.chip;
    let nine = read.reply;
    let answer = firmware::answer(&nine[1..], f, reply);
    let kind = answer.reply;
    let next = answer.firmware;
    let endpoints = answer.endpoints;
    let chip = step_transfers::serve_reply(after, kind, endpoints, epstalls, clrtogs, reply);
    Served {
        board: Board {
            chip,
            firmware: next,
        },
        reply: kind,
    }
}

// The answer with these records and this reply, and the pin of the chip's.
fn answer_with<R>(board: Board, reply: Result<R, Refusal>) -> CallAnswer<Board, R>
    ensures { result ≡ board_answer_with board reply }
{
    CallAnswer {
        state: board,
        reply,
        pin: board.chip.registers.pin(),
    }
}

fn reply_of(reply: Result<RequestReply, Refusal>) -> Result<Option<RequestReply>, Refusal>
    ensures { result ≡ replied_step reply }
{
    reply.map(Some)
}

// The board step: serves a SETUP, if one waits.
pub fn step(board: Board, reply: &mut [u8]) -> BoardStep
    ensures { (result ≡ board_step board (length reply.old))
        × (reply.new ≡ step_buffer board (step_checked board (length reply.old)) reply.old)
        × (tells result.reply ≡ step_checked board (length reply.old))
        × (step_kind result.reply ≡ stepped_kind board (step_checked board (length reply.old)))
        × (step_count result.reply ≡ stepped_count board (step_checked board (length reply.old))) }
{
    if !board.is_sound() {
        return answer_with(board, Err(Refusal::Unsound));
    }
    if reply.len() < 64 {
        return answer_with(board, Err(Refusal::ShortBuffer));
    }
    if board.chip.registers.epirq & Chip::SUDAVIRQ == 0 {
        return answer_with(board, Ok(None));
    }
    let served = serve(board, reply);
    answer_with(served.board, reply_of(served.reply))
}

// A transfer, as the chip's.
pub fn transfer(board: Board, bytes: &[u8], reply: &mut [u8]) -> BoardTransfer
    ensures { (result ≡ board_transfer board (Call.transfer bytes.now (length reply.old)))
        × (reply.new
        ≡ buffer_after (board_answer board (Call.transfer bytes.now (length reply.old))) reply.old)
        × (tells result.reply ≡ board_checked board (Call.transfer bytes.now (length reply.old)))
        × (transfer_count result.reply
        ≡ unless_refused (board_checked board (Call.transfer bytes.now (length reply.old)))
        (length bytes.now)) }
{
    let c = board.chip;
    let f = board.firmware;
    if !f.is_sound() {
        return answer_with::<u16>(board, Err(Refusal::Unsound));
    }
    let answer = spi::transfer(c, bytes, reply);
    CallAnswer {
        state: Board {
            chip: answer.state,
            firmware: f,
        },
        reply: answer.reply,
        pin: answer.pin,
    }
}

// An event, as the chip's.
pub fn event(board: Board, event: Event, payload: &[u8], reply: &mut [u8]) -> BoardEvent
    ensures { (result ≡ board_event board (Call.event event payload.now (length reply.old)))
        × (reply.new
        ≡ buffer_after (board_answer board (Call.event event payload.now (length reply.old))) reply.old)
        × (tells result.reply ≡ board_checked board (Call.event event payload.now (length reply.old)))
        × (event_pid result.reply ≡ answer_pid (board_answer board (Call.event event payload.now (length reply.old))))
        × (event_count result.reply
        ≡ answer_count (board_answer board (Call.event event payload.now (length reply.old)))) }
{
    let c = board.chip;
    let f = board.firmware;
    if !f.is_sound() {
        return answer_with::<EventReply>(board, Err(Refusal::Unsound));
    }
    let answer = bus::event(c, event, payload, reply);
    CallAnswer {
        state: Board {
            chip: answer.state,
            firmware: firmware_at(f, event, answer.reply),
        },
        reply: answer.reply,
        pin: answer.pin,
    }
}
