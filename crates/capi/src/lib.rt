// The C interface (include/max3420e.h). C programs hold the model's own records, so a function promises what the inner one does, its
// answer flattened; a flag that is neither 0 nor 1 makes a record unsound, and is refused as such.
// An event's code and marks are numbers, since C passes them.
#![tactic(auto)]

ghost use Rattle.std.specs.Prelude.{◌≡◌, length};
ghost use Rattle.chip.specs.Record.{power_on_chip};
ghost use Rattle.model.specs.Call.{Call, answer_of, buffer_after};
ghost use Rattle.rules.specs.Event.{max3420e};
ghost use Rattle.firmware.specs.Answer.{handled};
ghost use Rattle.spi.specs.Transfer.{transfer_answer};
ghost use Rattle.bus.specs.EventCall.{event_answer, event_buffer};
ghost use Rattle.board.specs.Board.{board_step, step_checked, step_buffer};
ghost use Rattle.flat.specs.Answer.{flat_transfer, flat_event, flat_step, flat_request};
ghost use Rattle.capi.specs.Arguments.{event_of};

use board::Board;
use chip::Chip;
use flat::{FlatAnswer, FlatBoardAnswer, FlatRequestAnswer, flat_answer, flat_request, flat_step};
use model::{EndpointNumber, Event};
use request::Firmware;

// A mark that is not 0 is yes.
pub fn event_of(
    code: u8,
    pins: u8,
    address: u8,
    endpoint: u8,
    damaged: u8,
    data1: u8,
    acknowledged: u8,
) -> Event
    ensures { result ≡ event_of code pins address endpoint damaged data1 acknowledged }
{
    Event {
        code,
        pins,
        address,
        endpoint: EndpointNumber(endpoint),
        damaged: damaged != 0,
        data1: data1 != 0,
        acknowledged: acknowledged != 0,
    }
}

// ---- a chip

pub fn max3420e_power_on() -> Chip
    ensures { result ≡ power_on_chip }
{
    Chip::power_on()
}

#[tactic(auto, unfolding(flat::specs::Answer::flat_answer_of, flat::specs::Answer::flat_transfer))]
pub fn max3420e_transfer(chip: Chip, bytes: &[u8], reply: &mut [u8]) -> FlatAnswer
    ensures { (result ≡ flat_transfer (transfer_answer chip (Call.transfer bytes.now (length reply.old))))
        × (reply.new
        ≡ buffer_after (answer_of max3420e chip (Call.transfer bytes.now (length reply.old))) reply.old) }
{
    flat_answer(spi::transfer(chip, bytes, reply))
}

#[tactic(auto, unfolding(flat::specs::Answer::flat_answer_of, flat::specs::Answer::flat_event))]
pub fn max3420e_event(
    chip: Chip,
    code: u8,
    pins: u8,
    address: u8,
    endpoint: u8,
    damaged: u8,
    data1: u8,
    acknowledged: u8,
    payload: &[u8],
    reply: &mut [u8],
) -> FlatAnswer
    ensures { (result ≡ flat_event (event_answer chip (event_of code pins address endpoint damaged data1 acknowledged)
        payload.now (length reply.old)))
        × (reply.new ≡ event_buffer chip (event_of code pins address endpoint damaged data1 acknowledged)
        payload.now reply.old) }
{
    let event = event_of(code, pins, address, endpoint, damaged, data1, acknowledged);
    flat_answer(bus::event(chip, event, payload, reply))
}

// ---- a chip with the board's own firmware, and that firmware alone

pub fn max3420e_board_step(chip: Chip, firmware: Firmware, reply: &mut [u8]) -> FlatBoardAnswer
    ensures { (result ≡ flat_step (board_step (record { chip = chip; firmware = firmware }) (length reply.old)))
        × (reply.new ≡ step_buffer (record { chip = chip; firmware = firmware })
        (step_checked (record { chip = chip; firmware = firmware }) (length reply.old)) reply.old) }
{
    flat_step(board::step(Board { chip, firmware }, reply))
}

pub fn max3420e_firmware_answer(
    firmware: Firmware,
    setup: &[u8],
    reply: &mut [u8],
) -> FlatRequestAnswer
    ensures { (result ≡ flat_request (handled setup.now firmware reply.old).answer)
        × (reply.new ≡ (handled setup.now firmware reply.old).buffer) }
{
    flat_request(firmware::answer(setup, firmware, reply))
}
