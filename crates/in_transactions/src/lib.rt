// IN at endpoints 0, 2 and 3 that is heard (document 01, "The bus side"). The verdict comes first; then, from the verdict, what is replied,
// the packet's bytes copied at once, and the record after. One way for the three endpoints, so that no two ways join holding a record.
#![tactic(auto)]

ghost use Rattle.std.specs.Prelude.{◌≡◌, Bool, cond, ◌&&◌, ◌++◌, ◌≤◌, length, take, drop};
ghost use Rattle.std.specs.Int.Bits.{bit_and};
ghost use Rattle.ring.specs.Ring.{oldest_count, oldest_packet};
ghost use Rattle.chip.specs.Mask.{fnaddr_bits};
ghost use Rattle.rules.specs.Control.{setup_byte, sets_address};
ghost use Rattle.event_answer.specs.Answer.{event_reply, outcome_answer, outcome_buffer};
ghost use Rattle.in_transactions.specs.At.{of_endpoint, verdict_at, inak_at, bav_at, toggle_at, packet_at, PacketsFit};
ghost use Rattle.in_transactions.specs.At.{gone_at, outcome_at, in_at};

use chip::{Chip, flipped};
use event_answer::{EventAnswer, EventReply, answer_with, data_packet};
use model::EndpointNumber;
use ring::Ring;
use rules::InVerdict;

// ---- what is the endpoint's own

fn verdict_at(chip: Chip, endpoint: EndpointNumber) -> InVerdict
    ensures { result ≡ verdict_at endpoint chip }
{
    let number = endpoint.0;
    match number {
        0 => verdicts::in0_verdict(chip),
        2 => verdicts::in2_verdict(chip),
        _ => verdicts::in3_verdict(chip),
    }
}

// What stands at the endpoint, of the bytes of endpoints 0, 2 and 3.
fn byte_of(endpoint: EndpointNumber, at0: u8, at2: u8, at3: u8) -> u8
    ensures { result ≡ of_endpoint endpoint at0 at2 at3 }
{
    let number = endpoint.0;
    match number {
        0 => at0,
        2 => at2,
        _ => at3,
    }
}

fn inak_at(endpoint: EndpointNumber) -> u8
    ensures { result ≡ inak_at endpoint }
{
    byte_of(endpoint, Chip::EP0INAK, Chip::EP2INAK, Chip::EP3INAK)
}

fn bav_at(endpoint: EndpointNumber) -> u8
    ensures { result ≡ bav_at endpoint }
{
    byte_of(endpoint, Chip::IN0BAVIRQ, Chip::IN2BAVIRQ, Chip::IN3BAVIRQ)
}

fn toggle_at(chip: Chip, endpoint: EndpointNumber) -> bool
    ensures { result ≡ toggle_at endpoint chip }
{
    byte_of(
        endpoint,
        chip.ep0.intoggle,
        chip.ep2.toggle,
        chip.ep3.toggle,
    ) == 1
}

// ---- what is replied

// The first bytes of a single buffer go to the front of a lent buffer; how many bytes that is.
fn copy_front(buffer: [u8; 64], count: u8, reply: &mut [u8]) -> u8
    requires { (count ≤ 64) × (64 ≤ length reply.old) }
    ensures { (length (take count buffer) ≡ result) × (reply.new ≡ take count buffer ++ drop result reply.old) }
{
    let end = count as usize;
    octets::copy(&buffer[..end], reply);
    count
}

// The oldest packet of a ring goes to the front of a lent buffer; how many bytes that is.
fn copy_oldest(ring: Ring, reply: &mut [u8]) -> u8
    requires { (oldest_count 2 ring ≤ 64) × (64 ≤ length reply.old) }
    ensures { (length (oldest_packet 2 ring) ≡ result) × (reply.new ≡ oldest_packet 2 ring ++ drop result reply.old) }
{
    ring.copy_oldest(reply) as u8
}

// The packet goes to the front of a lent buffer; how many bytes that is.
fn copy_at(chip: Chip, endpoint: EndpointNumber, reply: &mut [u8]) -> u8
    requires { PacketsFit chip × (64 ≤ length reply.old) }
    ensures { (length (packet_at endpoint chip) ≡ result)
        × (reply.new ≡ packet_at endpoint chip ++ drop result reply.old) }
{
    let number = endpoint.0;
    match number {
        0 => {
            let buffer = chip.ep0.bytes;
            copy_front(buffer, chip.ep0.count, reply)
        }
        2 => {
            let ring = chip.ep2.ring;
            copy_oldest(ring, reply)
        }
        _ => {
            let buffer = chip.ep3.bytes;
            copy_front(buffer, chip.ep3.count, reply)
        }
    }
}

fn reply_at(
    chip: Chip,
    endpoint: EndpointNumber,
    verdict: InVerdict,
    reply: &mut [u8],
) -> EventReply
    requires { PacketsFit chip × (64 ≤ length reply.old) }
    ensures { (acknowledged : Bool) → (result ≡ event_reply (outcome_at endpoint chip acknowledged verdict).gives)
        × (reply.new ≡ outcome_buffer (outcome_at endpoint chip acknowledged verdict) reply.old) }
{
    match verdict {
        InVerdict::Silent => EventReply::Silence,
        InVerdict::Stall => EventReply::Stall,
        InVerdict::Nak => EventReply::Nak,
        InVerdict::Send => {
            let count = copy_at(chip, endpoint, reply);
            data_packet(toggle_at(chip, endpoint), count)
        }
        InVerdict::Status => EventReply::Data1(0),
    }
}

// ---- the record after

// The packet leaves; the record is changed in its place.
fn gone_at(mut chip: Chip, endpoint: EndpointNumber) -> Chip
    ensures { result ≡ gone_at endpoint chip }
{
    let number = endpoint.0;
    match number {
        0 => {
            let toggle = flipped(chip.ep0.intoggle);
            chip.ep0.armed = 0;
            chip.ep0.intoggle = toggle;
        }
        2 => {
            let ring = chip.ep2.ring;
            let left = ring.release_oldest();
            let toggle = flipped(chip.ep2.toggle);
            chip.ep2.ring.oldest = left.oldest;
            chip.ep2.ring.waiting = left.waiting;
            chip.ep2.toggle = toggle;
        }
        _ => {
            let toggle = flipped(chip.ep3.toggle);
            chip.ep3.armed = 0;
            chip.ep3.toggle = toggle;
        }
    }
    let epirq = chip.registers.epirq | bav_at(endpoint);
    chip.registers.epirq = epirq;
    chip
}

// It leaves where the ACK arrives.
fn sent_at(mut chip: Chip, endpoint: EndpointNumber, acknowledged: bool) -> Chip
    ensures { result ≡ cond acknowledged (gone_at endpoint chip) chip }
{
    if acknowledged {
        chip = gone_at(chip, endpoint);
    }
    chip
}

// FNADDR after a status stage; it takes an address where the ACK arrives.
fn fnaddr_after(chip: Chip, acknowledged: bool) -> u8
    ensures { result
        ≡ cond (acknowledged && sets_address chip) (bit_and (setup_byte chip 2) fnaddr_bits) chip.registers.fnaddr }
{
    if acknowledged & control_stages::sets_address(chip) {
        let setup = chip.ep0.setup;
        return setup[2] & 0x7f;
    }
    chip.registers.fnaddr
}

fn chip_at(mut chip: Chip, endpoint: EndpointNumber, acknowledged: bool, verdict: InVerdict) -> Chip
    ensures { result ≡ (outcome_at endpoint chip acknowledged verdict).state }
{
    match verdict {
        InVerdict::Silent => chip,
        InVerdict::Stall => chip,
        InVerdict::Nak => {
            let pinctl = chip.registers.pinctl | inak_at(endpoint);
            chip.registers.pinctl = pinctl;
            chip
        }
        InVerdict::Send => sent_at(chip, endpoint, acknowledged),
        InVerdict::Status => {
            let fnaddr = fnaddr_after(chip, acknowledged);
            chip.registers.fnaddr = fnaddr;
            chip
        }
    }
}

// IN at endpoint 0, 2 or 3.
pub fn answer(
    chip: Chip,
    endpoint: EndpointNumber,
    acknowledged: bool,
    reply: &mut [u8],
) -> EventAnswer
    requires { PacketsFit chip × (64 ≤ length reply.old) }
    ensures { (result ≡ outcome_answer (in_at endpoint chip acknowledged))
        × (reply.new ≡ outcome_buffer (in_at endpoint chip acknowledged) reply.old) }
{
    let verdict = verdict_at(chip, endpoint);
    let kind = reply_at(chip, endpoint, verdict, reply);
    answer_with(chip_at(chip, endpoint, acknowledged, verdict), Ok(kind))
}
