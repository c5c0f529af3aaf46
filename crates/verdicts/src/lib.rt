// What the chip decides on a transaction, in plain numbers and before any record is made: whether it is heard, and each endpoint's
// verdict (document 01, "The bus side"). A function tests in the order of the definition that its promise cites.
#![tactic(auto)]

ghost use Rattle.std.specs.Prelude.{◌≡◌};
ghost use Rattle.rules.specs.Seen.{connection_of, seen, heard};
ghost use Rattle.rules.specs.Write.{ep0_busy};
ghost use Rattle.rules.specs.Out.{out0_idle, out0_status, out0_data, out0_verdict, out1_verdict};
ghost use Rattle.rules.specs.In.{in0_status, in0_data, in0_verdict, in_verdict, in2_verdict, in3_verdict};

use chip::Chip;
use control_stages::{reading, w_length};
use rules::{InVerdict, OutVerdict};

// ---- seen and heard

// The oscillator is stable, CHIPRES=0, CONNECT=1, and VBGATE=0 or VBUS is on.
pub fn seen(chip: Chip) -> bool
    ensures { result ≡ seen (connection_of chip) }
{
    let usbctl = chip.registers.usbctl;
    (chip.power.oscok == 1)
        & (usbctl & Chip::CHIPRES == 0)
        & (usbctl & Chip::CONNECT != 0)
        & ((usbctl & Chip::VBGATE == 0) | (chip.power.vbus == 1))
}

// Seen, undamaged, at the chip's address.
pub fn heard(chip: Chip, damaged: bool, address: u8) -> bool
    ensures { result ≡ heard chip damaged address }
{
    seen(chip) & !damaged & (address == chip.registers.fnaddr)
}

// ---- OUT

// Endpoint 0's buffer is the chip's.
fn ep0_busy(chip: Chip) -> bool
    ensures { result ≡ ep0_busy chip }
{
    (chip.ep0.armed == 1) | (chip.registers.epirq & Chip::OUT0DAVIRQ != 0)
}

fn out0_idle(chip: Chip) -> OutVerdict
    ensures { result ≡ out0_idle chip }
{
    if chip.registers.epstalls & Chip::STLEP0OUT != 0 {
        return OutVerdict::Stall;
    }
    OutVerdict::Nak
}

fn out0_status(chip: Chip, count: usize) -> OutVerdict
    ensures { result ≡ out0_status chip count }
{
    let epstalls = chip.registers.epstalls;
    if epstalls & Chip::STLSTAT != 0 {
        return OutVerdict::Stall;
    }
    if count != 0 {
        return OutVerdict::Stall;
    }
    if epstalls & Chip::ACKSTAT != 0 {
        return OutVerdict::Status;
    }
    OutVerdict::Nak
}

fn out0_data(chip: Chip, data1: bool) -> OutVerdict
    ensures { result ≡ out0_data chip data1 }
{
    if chip.registers.epstalls & Chip::STLEP0OUT != 0 {
        return OutVerdict::Stall;
    }
    if w_length(chip) == 0 {
        return OutVerdict::Stall;
    }
    if ep0_busy(chip) {
        return OutVerdict::Nak;
    }
    if data1 != (chip.ep0.outtoggle == 1) {
        return OutVerdict::Drop;
    }
    OutVerdict::Store
}

pub fn out0_verdict(chip: Chip, data1: bool, count: usize) -> OutVerdict
    ensures { result ≡ out0_verdict chip data1 count }
{
    if chip.ep0.current != 1 {
        return out0_idle(chip);
    }
    if reading(chip) {
        return out0_status(chip, count);
    }
    out0_data(chip, data1)
}

pub fn out1_verdict(chip: Chip, data1: bool) -> OutVerdict
    ensures { result ≡ out1_verdict chip data1 }
{
    if chip.registers.clrtogs & Chip::EP1DISAB != 0 {
        return OutVerdict::Silent;
    }
    if chip.registers.epstalls & Chip::STLEP1OUT != 0 {
        return OutVerdict::Stall;
    }
    if 2 <= chip.ep1.ring.waiting {
        return OutVerdict::Nak;
    }
    if data1 != (chip.ep1.toggle == 1) {
        return OutVerdict::Drop;
    }
    OutVerdict::Store
}

// ---- IN

fn in0_status(chip: Chip) -> InVerdict
    ensures { result ≡ in0_status chip }
{
    if chip.registers.epstalls & Chip::STLSTAT != 0 {
        return InVerdict::Stall;
    }
    if chip.registers.epstalls & Chip::ACKSTAT != 0 {
        return InVerdict::Status;
    }
    InVerdict::Nak
}

fn in0_data(chip: Chip, armed: bool) -> InVerdict
    ensures { result ≡ in0_data chip armed }
{
    if chip.registers.epstalls & Chip::STLEP0IN != 0 {
        return InVerdict::Stall;
    }
    if armed {
        return InVerdict::Send;
    }
    InVerdict::Nak
}

pub fn in0_verdict(chip: Chip) -> InVerdict
    ensures { result ≡ in0_verdict chip }
{
    if chip.ep0.current != 1 {
        return in0_data(chip, false);
    }
    if reading(chip) {
        return in0_data(chip, chip.ep0.armed == 1);
    }
    in0_status(chip)
}

fn in_verdict(disabled: bool, stalled: bool, armed: bool) -> InVerdict
    ensures { result ≡ in_verdict disabled stalled armed }
{
    if disabled {
        return InVerdict::Silent;
    }
    if stalled {
        return InVerdict::Stall;
    }
    if armed {
        return InVerdict::Send;
    }
    InVerdict::Nak
}

pub fn in2_verdict(chip: Chip) -> InVerdict
    ensures { result ≡ in2_verdict chip }
{
    in_verdict(
        chip.registers.clrtogs & Chip::EP2DISAB != 0,
        chip.registers.epstalls & Chip::STLEP2IN != 0,
        chip.ep2.ring.waiting != 0,
    )
}

pub fn in3_verdict(chip: Chip) -> InVerdict
    ensures { result ≡ in3_verdict chip }
{
    in_verdict(
        chip.registers.clrtogs & Chip::EP3DISAB != 0,
        chip.registers.epstalls & Chip::STLEP3IN != 0,
        chip.ep3.armed == 1,
    )
}
