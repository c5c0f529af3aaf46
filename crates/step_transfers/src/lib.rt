// The transfers of the board step (document 01, "The firmware", last paragraph), each as a sound record takes it. That it is sound
// stays a `requires`, of one word: a type round the record, which is C's, would be opened and proved sound again wherever it changes.
#![tactic(auto)]

ghost use Rattle.std.specs.Prelude.{◌≡◌, true, ◌+◌, ◌≤◌, length, take, drop, [], ◌∷◌, Ok};
ghost use Rattle.chip.specs.Sound.{sound_chip};
ghost use Rattle.firmware.specs.Answer.{request_count};
ghost use Rattle.model.specs.Spi.{command_writes};
ghost use Rattle.model.specs.Call.{call_to, run_to};
ghost use Rattle.rules.specs.Event.{max3420e};
ghost use Rattle.step_transfers.specs.Step.{sends, clears_sudav, reads_setup, setup_read, stall_byte};
ghost use Rattle.step_transfers.specs.Step.{writes_both, writes_endpoints, serves};

use chip::Chip;
use firmware::{Endpoints, RequestReply};
use refusal::Refusal;

// A command byte that writes a register, and one data byte: as the transfer, which a sound record does not refuse.
fn send(mut chip: Chip, command: u8, byte: u8) -> Chip
    requires { (sound_chip chip ≡ true) × (command_writes command ≡ true) }
    ensures { result ≡ call_to max3420e chip (sends (command ∷ byte ∷ [])) }
{
    let epstalls = spi::acknowledged(chip.registers.epstalls, command);
    chip.registers.epstalls = epstalls;
    registers::write_register(chip, command / 8, byte)
}

// `91`: the command byte alone sets ACKSTAT.
fn acknowledge(mut chip: Chip) -> Chip
    requires { sound_chip chip ≡ true }
    ensures { result ≡ call_to max3420e chip (sends (0x91 ∷ [])) }
{
    let epstalls = spi::acknowledged(chip.registers.epstalls, 0x91);
    chip.registers.epstalls = epstalls;
    chip
}

// What R4 read, behind the place of reply byte 0, which the step does not use.
#[derive(Clone, Copy)]
pub struct SetupRead {
    pub chip: Chip,
    pub reply: [u8; 9],
}

// `5A 20`, then eight bytes by R4, read from the endpoint itself.
pub fn read_setup(chip: Chip) -> SetupRead
    requires { sound_chip chip ≡ true }
    ensures { (result.chip ≡ call_to max3420e (call_to max3420e chip clears_sudav) reads_setup) × (drop 1 result.reply ≡ setup_read chip) }
{
    let mut cleared = send(chip, 0x5a, 0x20);
    let message = [0x20, 0, 0, 0, 0, 0, 0, 0, 0];
    let mut reply = [0u8; 9];
    let endpoint = bursts::read_setup(cleared.ep0, &message, &mut reply);
    cleared.ep0 = endpoint;
    SetupRead {
        chip: cleared,
        reply,
    }
}

// R9 of a STALL: the halts stay.
fn stall_byte(epstalls: u8) -> u8
    ensures { result ≡ stall_byte epstalls }
{
    (epstalls & 0x1c) | 0x23
}

// R9 and R10 for halts and toggles.
fn write_both(chip: Chip, endpoints: Endpoints, epstalls: u8, clrtogs: u8) -> Chip
    requires { sound_chip chip ≡ true }
    ensures { result ≡ run_to max3420e chip (writes_both endpoints epstalls clrtogs) }
{
    let r9 = firmware::epstalls(endpoints, epstalls);
    let r10 = firmware::clrtogs(endpoints, clrtogs);
    let halted = send(chip, 0x4a, r9);
    send(halted, 0x52, r10)
}

fn write_endpoints(chip: Chip, endpoints: Endpoints, epstalls: u8, clrtogs: u8) -> Chip
    requires { sound_chip chip ≡ true }
    ensures { result ≡ run_to max3420e chip (writes_endpoints endpoints epstalls clrtogs) }
{
    match endpoints {
        Endpoints::Unchanged => chip,
        Endpoints::ClearHalt => write_both(chip, endpoints, epstalls, clrtogs),
        Endpoints::SetHalt => write_both(chip, endpoints, epstalls, clrtogs),
        Endpoints::Configure => write_both(chip, endpoints, epstalls, clrtogs),
    }
}

// Bytes to R0, written to the endpoint itself.
fn fill(mut chip: Chip, bytes: &[u8], n: usize) -> Chip
    requires { (sound_chip chip ≡ true) × (n ≤ 64) × (64 ≤ length bytes.now) }
    ensures { result ≡ call_to max3420e chip (sends (0x02 ∷ take n bytes.now)) }
{
    let dav = chip.registers.epirq & Chip::OUT0DAVIRQ != 0;
    let endpoint = bursts::write_ep0(chip.ep0, dav, &bytes[0..n]);
    chip.ep0 = endpoint;
    chip
}

// Data: bytes to R0, then `2B n`.
fn send_data(chip: Chip, bytes: &[u8], n: u8) -> Chip
    requires { (sound_chip chip ≡ true) × (n ≤ 64) × (64 ≤ length bytes.now) }
    ensures { result ≡ run_to max3420e chip (sends (0x02 ∷ take n bytes.now) ∷ sends (0x2b ∷ n ∷ []) ∷ []) }
{
    let filled = fill(chip, bytes, n as usize);
    send(filled, 0x2b, n)
}

// The transfers that serve an accepted request's reply.
fn serve_accepted(
    chip: Chip,
    reply: RequestReply,
    endpoints: Endpoints,
    epstalls: u8,
    clrtogs: u8,
    bytes: &[u8],
) -> Chip
    requires { (sound_chip chip ≡ true) × (request_count (Ok reply) ≤ 64) × (64 ≤ length bytes.now) }
    ensures { result ≡ run_to max3420e chip (serves (Ok reply) endpoints bytes.now epstalls clrtogs) }
{
    match reply {
        RequestReply::Stall => send(chip, 0x4a, stall_byte(epstalls)),
        RequestReply::Ack => acknowledge(write_endpoints(chip, endpoints, epstalls, clrtogs)),
        RequestReply::Data(n) => send_data(chip, bytes, n),
    }
}

// The transfers that serve the firmware's reply; none where it refused.
#[tactic(auto, unfolding(model::specs::Call::run_to))]
pub fn serve_reply(
    chip: Chip,
    reply: Result<RequestReply, Refusal>,
    endpoints: Endpoints,
    epstalls: u8,
    clrtogs: u8,
    bytes: &[u8],
) -> Chip
    requires { (sound_chip chip ≡ true) × (request_count reply ≤ 64) × (64 ≤ length bytes.now) }
    ensures { result ≡ run_to max3420e chip (serves reply endpoints bytes.now epstalls clrtogs) }
{
    match reply {
        Err(_) => chip,
        Ok(accepted) => serve_accepted(chip, accepted, endpoints, epstalls, clrtogs, bytes),
    }
}
