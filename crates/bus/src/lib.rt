// The bus side (document 01, "The bus side"): the twelve events, and the public call. Whether a call is refused is decided first, then
// which rule it goes by; each way makes its answer and returns it.
#![tactic(auto)]

ghost use Rattle.std.specs.Prelude.{◌≡◌, true, List, ℕ, ◌≤◌, ◌<◌, length, Ok};
ghost use Rattle.refusal.specs.Check.{check, tells};
ghost use Rattle.chip.specs.Sound.{sound_chip};
ghost use Rattle.model.specs.Call.{event_grounds, event as event_call, checked, answer_of};
ghost use Rattle.rules.specs.Event.{raise_usbirq, stable_event, vbus_on_event, vbus_off_event, pins_event};
ghost use Rattle.rules.specs.Event.{setup_event, out_event, in_event, max3420e};
ghost use Rattle.event_answer.specs.Answer.{outcome_answer, outcome_buffer};
ghost use Rattle.bus.specs.EventCall.{event_outcome, event_answer, event_buffer, event_pid, event_count, answer_pid};
ghost use Rattle.bus.specs.EventCall.{answer_count};

use chip::Chip;
use event_answer::answer_with;
pub use event_answer::{EventAnswer, EventReply};
use model::Event;
use refusal::Refusal;
use reset::Reset;

// ---- events 1 to 5: power and pins

// Bits of R13 become 1.
fn raise_usbirq(mut chip: Chip, irq: u8) -> Chip
    ensures { result ≡ raise_usbirq irq chip }
{
    let usbirq = chip.registers.usbirq | irq;
    chip.registers.usbirq = usbirq;
    chip
}

// The oscillator is stable; nothing if CHIPRES=1.
fn settle_oscillator(mut chip: Chip, event: Event) -> EventAnswer
    ensures { (vs : List ℕ) → result ≡ outcome_answer (stable_event chip event vs) }
{
    if chip.registers.usbctl & Chip::CHIPRES != 0 {
        return answer_with(chip, Ok(EventReply::Done));
    }
    chip.power.oscok = 1;
    answer_with(raise_usbirq(chip, Chip::OSCOKIRQ), Ok(EventReply::Done))
}

// VBUS comes; an interrupt request on a change only.
fn raise_vbus(mut chip: Chip, event: Event) -> EventAnswer
    ensures { (vs : List ℕ) → result ≡ outcome_answer (vbus_on_event chip event vs) }
{
    if chip.power.vbus == 1 {
        return answer_with(chip, Ok(EventReply::Done));
    }
    chip.power.vbus = 1;
    answer_with(raise_usbirq(chip, Chip::VBUSIRQ), Ok(EventReply::Done))
}

// VBUS goes.
fn drop_vbus(mut chip: Chip, event: Event) -> EventAnswer
    ensures { (vs : List ℕ) → result ≡ outcome_answer (vbus_off_event chip event vs) }
{
    if chip.power.vbus != 1 {
        return answer_with(chip, Ok(EventReply::Done));
    }
    chip.power.vbus = 0;
    answer_with(raise_usbirq(chip, Chip::NOVBUSIRQ), Ok(EventReply::Done))
}

// The input pins, low four bits, are bits 7..4 of R20.
fn set_pins(mut chip: Chip, event: Event) -> EventAnswer
    ensures { (vs : List ℕ) → result ≡ outcome_answer (pins_event chip event vs) }
{
    let iopins = (chip.registers.iopins & 0x0f) | ((event.pins & 0x0f) * 16);
    chip.registers.iopins = iopins;
    answer_with(chip, Ok(EventReply::Done))
}

fn power_event(chip: Chip, event: Event) -> EventAnswer
    requires { (1 ≤ event.code) × (event.code < 6) }
    ensures { (vs : List ℕ) → result ≡ outcome_answer (event_outcome chip event vs) }
{
    let code = event.code;
    match code {
        1 => answer_with(
            reset::chip_after(Reset::PowerOn, chip),
            Ok(EventReply::Done),
        ),
        2 => settle_oscillator(chip, event),
        3 => raise_vbus(chip, event),
        4 => drop_vbus(chip, event),
        _ => set_pins(chip, event),
    }
}

// ---- events 6 to 9: the bus's state, where it is seen

fn bus_event(chip: Chip, event: Event) -> EventAnswer
    requires { (6 ≤ event.code) × (event.code < 10) }
    ensures { (vs : List ℕ) → result ≡ outcome_answer (event_outcome chip event vs) }
{
    if !verdicts::seen(chip) {
        return answer_with(chip, Ok(EventReply::Silence));
    }
    let code = event.code;
    match code {
        6 => answer_with(
            reset::chip_after(Reset::BusReset, chip),
            Ok(EventReply::Done),
        ),
        7 => answer_with(raise_usbirq(chip, Chip::URESDNIRQ), Ok(EventReply::Done)),
        8 => answer_with(raise_usbirq(chip, Chip::SUSPIRQ), Ok(EventReply::Done)),
        _ => answer_with(raise_usbirq(chip, Chip::BUSACTIRQ), Ok(EventReply::Done)),
    }
}

// ---- events 10 to 12: transactions, where one is heard at an endpoint that exists

fn take_setup(chip: Chip, event: Event, payload: &[u8]) -> EventAnswer
    requires { length payload.now ≡ 8 }
    ensures { result ≡ outcome_answer (setup_event chip event payload.now) }
{
    if verdicts::heard(chip, event.damaged, event.address) & (event.endpoint.0 == 0) {
        return out_transactions::setup(chip, payload);
    }
    answer_with(chip, Ok(EventReply::Silence))
}

fn take_out(chip: Chip, event: Event, payload: &[u8]) -> EventAnswer
    requires { length payload.now ≤ 64 }
    ensures { result ≡ outcome_answer (out_event chip event payload.now) }
{
    if !verdicts::heard(chip, event.damaged, event.address) {
        return answer_with(chip, Ok(EventReply::Silence));
    }
    let number = event.endpoint.0;
    match number {
        0 => out_transactions::out0(chip, event.data1, payload),
        1 => out_transactions::out1(chip, event.data1, payload),
        _ => answer_with(chip, Ok(EventReply::Silence)),
    }
}

fn take_in(chip: Chip, event: Event, reply: &mut [u8]) -> EventAnswer
    requires { (sound_chip chip ≡ true) × (64 ≤ length reply.old) }
    ensures { (vs : List ℕ) → (result ≡ outcome_answer (in_event chip event vs))
        × (reply.new ≡ outcome_buffer (in_event chip event vs) reply.old) }
{
    if !verdicts::heard(chip, false, event.address) {
        return answer_with(chip, Ok(EventReply::Silence));
    }
    let number = event.endpoint.0;
    if (number == 0) | (number == 2) | (number == 3) {
        let endpoint = event.endpoint;
        return in_transactions::answer(chip, endpoint, event.acknowledged, reply);
    }
    answer_with(chip, Ok(EventReply::Silence))
}

// ---- the call

// 1, 4, 5, 6, 8, 7, in this order.
fn check_event(sound: bool, event: Event, count: usize, room: usize) -> Result<(), Refusal>
    ensures { result ≡ check (event_grounds sound event count room) }
{
    let code = event.code;
    let far = (127 < event.address) | (15 < event.endpoint.0);
    if !sound {
        return Err(Refusal::Unsound);
    }
    if (code == 12) & (room < 64) {
        return Err(Refusal::ShortBuffer);
    }
    if (code == 0) | (12 < code) {
        return Err(Refusal::UnknownEvent);
    }
    if (code == 11) & (64 < count) {
        return Err(Refusal::OutPayload(count));
    }
    if (code == 10) & (count != 8) {
        return Err(Refusal::SetupPayload(count));
    }
    if ((code == 10) | (code == 11) | (code == 12)) & far {
        return Err(Refusal::BadAddress);
    }
    Ok(())
}

// An event that is not refused.
fn accept(chip: Chip, event: Event, payload: &[u8], reply: &mut [u8]) -> EventAnswer
    requires { check (event_grounds (sound_chip chip) event (length payload.now) (length reply.old)) ≡ Ok tt }
    ensures { (result ≡ outcome_answer (event_outcome chip event payload.now))
        × (reply.new ≡ outcome_buffer (event_outcome chip event payload.now) reply.old) }
{
    let code = event.code;
    if code == 12 {
        return take_in(chip, event, reply);
    }
    if code == 11 {
        return take_out(chip, event, payload);
    }
    if code == 10 {
        return take_setup(chip, event, payload);
    }
    if code < 6 {
        return power_event(chip, event);
    }
    bus_event(chip, event)
}

// An event with its payload, and a buffer that is lent for the bytes of an IN's data packet.
pub fn event(chip: Chip, event: Event, payload: &[u8], reply: &mut [u8]) -> EventAnswer
    ensures value { (result ≡ event_answer chip event payload.now (length reply.old))
        × (reply.new ≡ event_buffer chip event payload.now reply.old) }
    ensures numbers { (tells result.reply
        ≡ checked max3420e chip (event_call event payload.now (length reply.old)))
        × (event_pid result.reply
        ≡ answer_pid (answer_of max3420e chip (event_call event payload.now (length reply.old))))
        × (event_count result.reply
        ≡ answer_count (answer_of max3420e chip (event_call event payload.now (length reply.old)))) }
{
    match check_event(chip.is_sound(), event, payload.len(), reply.len()) {
        Err(refusal) => answer_with(chip, Err(refusal)),
        Ok(()) => accept(chip, event, payload, reply),
    }
}
