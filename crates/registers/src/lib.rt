// One register of the record: a byte written, a byte read, and the register that is selected next (document 01, "The SPI side").
#![tactic(auto)]

ghost use Rattle.std.specs.Prelude.{◌≡◌};
ghost use Rattle.chip.specs.declared.Chip.{Chip};
ghost use Rattle.chip.specs.Set.{set_registers};
ghost use Rattle.model.specs.Spi.{write_to, read_to, read_of};
ghost use Rattle.rules.specs.Write.{write_ep0bc, write_ep2inbc, write_ep3inbc, toggle_cleared, write_clrtogs, write_epirq, write_usbctl};
ghost use Rattle.rules.specs.Spi.{step_register, max3420e_spi};
ghost use Rattle.registers.specs.Part.{armed_to, released_to, plain_rule, plain_byte};

use chip::{Chip, Endpoint1, Endpoint2, Registers};
use reset::Reset;

// R5
pub fn write_ep0bc(mut chip: Chip, byte: u8) -> Chip
    ensures { result ≡ write_ep0bc chip byte }
{
    let n = byte & Chip::COUNT_BITS;
    let epirq = chip.registers.epirq;
    if (n <= 64) & !((chip.ep0.armed == 1) | (epirq & Chip::OUT0DAVIRQ != 0)) {
        chip.ep0.count = n;
        chip.ep0.armed = 1;
        chip.ep0.writepos = 0;
        let kept = epirq & !Chip::IN0BAVIRQ;
        chip.registers.epirq = kept;
    }
    chip
}

// R11 after a packet is armed at endpoint 2.
fn epirq_armed(epirq: u8, waiting: u8) -> u8
    ensures { result ≡ armed_to epirq waiting }
{
    if 2 <= waiting {
        return epirq & !Chip::IN2BAVIRQ;
    }
    epirq
}

// R7
pub fn write_ep2inbc(mut chip: Chip, count: u8) -> Chip
    ensures { result ≡ write_ep2inbc chip count }
{
    let old = chip.ep2.ring;
    if (count <= 64) & (old.waiting < 2) {
        let new = old.arm_next(count);
        // A literal, as in R11, not a changed copy: of what stays, nothing is moved.
        let armed = Endpoint2 {
            ring: new,
            count,
            writepos: 0,
            toggle: chip.ep2.toggle,
        };
        chip.ep2 = armed;
        let epirq = epirq_armed(chip.registers.epirq, new.waiting);
        chip.registers.epirq = epirq;
    }
    chip
}

// R8
pub fn write_ep3inbc(mut chip: Chip, n: u8) -> Chip
    ensures { result ≡ write_ep3inbc chip n }
{
    if (n <= 64) & (chip.ep3.armed != 1) {
        chip.ep3.count = n;
        chip.ep3.armed = 1;
        chip.ep3.writepos = 0;
        let kept = chip.registers.epirq & !Chip::IN3BAVIRQ;
        chip.registers.epirq = kept;
    }
    chip
}

// A toggle after R10 is written; the mask is its bit there.
fn clear_toggle(toggle: u8, byte: u8, mask: u8) -> u8
    ensures { result ≡ toggle_cleared mask byte toggle }
{
    if byte & mask != 0 {
        return 0;
    }
    toggle
}

// R10
pub fn write_clrtogs(mut chip: Chip, byte: u8) -> Chip
    ensures { result ≡ write_clrtogs chip byte }
{
    let toggle1 = clear_toggle(chip.ep1.toggle, byte, Chip::CTGEP1OUT);
    let toggle2 = clear_toggle(chip.ep2.toggle, byte, Chip::CTGEP2IN);
    let toggle3 = clear_toggle(chip.ep3.toggle, byte, Chip::CTGEP3IN);
    chip.ep1.toggle = toggle1;
    chip.ep2.toggle = toggle2;
    chip.ep3.toggle = toggle3;
    let disabled = byte & Chip::DISABLE_BITS;
    chip.registers.clrtogs = disabled;
    chip
}

// R11 after a packet is released at endpoint 1.
fn epirq_released(epirq: u8, waiting: u8) -> u8
    ensures { result ≡ released_to epirq waiting }
{
    if 0 < waiting {
        return epirq | Chip::OUT1DAVIRQ;
    }
    epirq & !Chip::OUT1DAVIRQ
}

// R11
pub fn write_epirq(mut chip: Chip, byte: u8) -> Chip
    ensures { result ≡ write_epirq chip byte }
{
    let kept = chip.registers.epirq & !(byte & Chip::CLEARED_EPIRQS);
    chip.registers.epirq = kept;
    if byte & Chip::OUT1DAVIRQ != 0 {
        let old = chip.ep1.ring;
        let new = old.release_oldest();
        let released = Endpoint1 {
            ring: new,
            readpos: 0,
            toggle: chip.ep1.toggle,
        };
        chip.ep1 = released;
        let epirq = epirq_released(kept, new.waiting);
        chip.registers.epirq = epirq;
    }
    chip
}

// R15
fn write_usbctl(mut chip: Chip, byte: u8) -> Chip
    ensures { result ≡ write_usbctl chip byte }
{
    let before = chip.registers.usbctl;
    let after = byte & Chip::USBCTL_BITS;
    chip.registers.usbctl = after;
    if (before & Chip::CHIPRES == 0) & (after & Chip::CHIPRES != 0) {
        return reset::chip_after(Reset::ChipReset, chip);
    }
    chip
}

// R9, R12 to R14, R16, R17 and R20, which change no other part of the record.
pub fn write_plain(mut registers: Registers, register: u8, byte: u8) -> Registers
    ensures { (c : Chip) → set_registers result c ≡ plain_rule register (set_registers registers c) byte }
{
    match register {
        9 => registers.epstalls = byte & Chip::EPSTALLS_BITS,
        12 => registers.epien = byte & Chip::EPIEN_BITS,
        13 => registers.usbirq = registers.usbirq & !byte,
        14 => registers.usbien = byte,
        16 => registers.cpuctl = byte & Chip::IE,
        17 => {
            let kept = registers.pinctl & (Chip::INAK_BITS & !byte);
            registers.pinctl = kept | (byte & Chip::PIN_BITS);
        }
        20 => {
            let kept = registers.iopins & Chip::INPUT_BITS;
            registers.iopins = kept | (byte & Chip::OUTPUT_BITS);
        }
        _ => {}
    }
    registers
}

// A byte written to a register.
pub fn write_register(mut chip: Chip, register: u8, byte: u8) -> Chip
    ensures { result ≡ write_to max3420e_spi chip register byte }
{
    match register {
        0 => fifos::write_ep0fifo(chip, byte),
        2 => fifos::write_ep2infifo(chip, byte),
        3 => fifos::write_ep3infifo(chip, byte),
        5 => write_ep0bc(chip, byte),
        7 => write_ep2inbc(chip, byte),
        8 => write_ep3inbc(chip, byte),
        10 => write_clrtogs(chip, byte),
        11 => write_epirq(chip, byte),
        15 => write_usbctl(chip, byte),
        _ => {
            let written = write_plain(chip.registers, register, byte);
            chip.registers = written;
            chip
        }
    }
}

// What R9 to R20 read; others 0.
fn plain_byte(registers: Registers, register: u8) -> u8
    ensures { result ≡ plain_byte registers register }
{
    match register {
        9 => registers.epstalls,
        10 => registers.clrtogs,
        11 => registers.epirq,
        12 => registers.epien,
        13 => registers.usbirq,
        14 => registers.usbien,
        15 => registers.usbctl,
        16 => registers.cpuctl,
        17 => registers.pinctl,
        18 => 1,
        19 => registers.fnaddr,
        20 => registers.iopins,
        _ => 0,
    }
}

// The byte that a register reads.
pub fn read_register(chip: Chip, register: u8) -> u8
    ensures { result ≡ read_of max3420e_spi chip register }
{
    match register {
        0 => fifos::ep0_byte(chip.ep0),
        1 => fifos::ep1_byte(chip.ep1),
        4 => fifos::setup_byte(chip.ep0),
        5 => chip.ep0.count,
        6 => {
            let ring = chip.ep1.ring;
            ring.oldest_count()
        }
        7 => chip.ep2.count,
        8 => chip.ep3.count,
        _ => plain_byte(chip.registers, register),
    }
}

// What a read moves: the positions of R0, R1 and R4.
pub fn move_register(mut chip: Chip, register: u8) -> Chip
    ensures { result ≡ read_to max3420e_spi chip register }
{
    match register {
        0 => {
            let position = fifos::move_on(chip.ep0.readpos, chip.ep0.count);
            chip.ep0.readpos = position;
            chip
        }
        1 => {
            let ring = chip.ep1.ring;
            let position = fifos::move_on(chip.ep1.readpos, ring.oldest_count());
            chip.ep1.readpos = position;
            chip
        }
        4 => {
            let position = fifos::move_on(chip.ep0.setuppos, 8);
            chip.ep0.setuppos = position;
            chip
        }
        _ => chip,
    }
}

// The register that is selected after this one, at each data byte.
pub fn step_register(register: u8) -> u8
    ensures { result ≡ step_register register }
{
    if register < 5 {
        return register;
    }
    if register < 20 {
        return register + 1;
    }
    register
}
