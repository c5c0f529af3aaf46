// The data bytes of a transfer on the record: at a FIFO on its endpoint, at the control registers one after the other (document 01, "The
// SPI side"). That the lent buffer is as long as the bytes sent stands with each function, as in crate bursts.
#![tactic(auto)]

ghost use Rattle.std.specs.Prelude.{◌≡◌, true, false, ◌<◌, ◌≤◌, length, replicate};
ghost use Rattle.ring.specs.Ring.{oldest_count};
ghost use Rattle.rules.specs.Spi.{max3420e_spi};
ghost use Rattle.bursts.specs.Burst.{Burst};
ghost use Rattle.transfer_bursts.specs.Control.{WritesNoFifo, ReadsNoFifo};

use chip::Chip;
use reset::Reset;

// The reply bytes of a write to a FIFO are 0. One alone costs less by itself, as in crate bursts.
fn clear(reply: &mut [u8])
    ensures { reply.new ≡ replicate (length reply.old) 0 }
{
    if reply.len() == 1 {
        reply[0] = 0;
        return;
    }
    reply.fill(0);
}

// The data bytes of a write from a control register on, one after the other. The record stays in its place: a call that takes and
// returns it would copy it for each byte.
fn write_controls(mut chip: Chip, register: u8, bytes: &[u8], reply: &mut [u8]) -> Chip
    requires { WritesNoFifo register × (0 < length bytes.now) × (length bytes.now ≤ length reply.old) }
    ensures { Burst max3420e_spi chip result true register bytes.now reply.old reply.new }
{
    let mut selected = register;
    for i in 1..bytes.len() {
        let byte = bytes[i];
        match selected {
            5 => chip = registers::write_ep0bc(chip, byte),
            7 => chip = registers::write_ep2inbc(chip, byte),
            8 => chip = registers::write_ep3inbc(chip, byte),
            10 => chip = registers::write_clrtogs(chip, byte),
            11 => chip = registers::write_epirq(chip, byte),
            15 => {
                let before = chip.registers.usbctl;
                let after = byte & Chip::USBCTL_BITS;
                chip.registers.usbctl = after;
                if (before & Chip::CHIPRES == 0) & (after & Chip::CHIPRES != 0) {
                    chip = reset::chip_after(Reset::ChipReset, chip);
                }
            }
            _ => {
                let written = registers::write_plain(chip.registers, selected, byte);
                chip.registers = written;
            }
        }
        reply[i] = 0;
        selected = registers::step_register(selected);
    }
    chip
}

// The data bytes of a write, a FIFO's on its endpoint.
fn write_burst(mut chip: Chip, register: u8, bytes: &[u8], reply: &mut [u8]) -> Chip
    requires { (0 < length bytes.now) × (length bytes.now ≤ length reply.old) }
    ensures { Burst max3420e_spi chip result true register bytes.now reply.old reply.new }
{
    let count = bytes.len();
    let sent = &bytes[1..count];
    match register {
        0 => {
            clear(&mut reply[1..count]);
            let dav = chip.registers.epirq & Chip::OUT0DAVIRQ != 0;
            let endpoint = bursts::write_ep0(chip.ep0, dav, sent);
            chip.ep0 = endpoint;
            chip
        }
        2 => {
            clear(&mut reply[1..count]);
            let endpoint = bursts::write_ep2(chip.ep2, sent);
            chip.ep2 = endpoint;
            chip
        }
        3 => {
            clear(&mut reply[1..count]);
            let endpoint = bursts::write_ep3(chip.ep3, sent);
            chip.ep3 = endpoint;
            chip
        }
        _ => write_controls(chip, register, bytes, reply),
    }
}

// The data bytes of a read from a register on whose read moves nothing, one after the other.
fn read_controls(chip: Chip, register: u8, bytes: &[u8], reply: &mut [u8])
    requires { ReadsNoFifo register × (0 < length bytes.now) × (length bytes.now ≤ length reply.old) }
    ensures { Burst max3420e_spi chip chip false register bytes.now reply.old reply.new }
{
    let mut selected = register;
    let end = bytes.len();
    for i in 1..end {
        reply[i] = registers::read_register(chip, selected);
        selected = registers::step_register(selected);
    }
}

// The data bytes of a read, a FIFO's on its endpoint.
fn read_burst(mut chip: Chip, register: u8, bytes: &[u8], reply: &mut [u8]) -> Chip
    requires { (chip.ep0.count ≤ 64) × (oldest_count 2 chip.ep1.ring ≤ 64)
        × (0 < length bytes.now) × (length bytes.now ≤ length reply.old) }
    ensures { Burst max3420e_spi chip result false register bytes.now reply.old reply.new }
{
    match register {
        0 => {
            let endpoint = bursts::read_ep0(chip.ep0, bytes, reply);
            chip.ep0 = endpoint;
            chip
        }
        1 => {
            let endpoint = bursts::read_ep1(chip.ep1, bytes, reply);
            chip.ep1 = endpoint;
            chip
        }
        4 => {
            let endpoint = bursts::read_setup(chip.ep0, bytes, reply);
            chip.ep0 = endpoint;
            chip
        }
        _ => {
            read_controls(chip, register, bytes, reply);
            chip
        }
    }
}

// The data bytes of a transfer.
pub fn burst(chip: Chip, writes: bool, register: u8, bytes: &[u8], reply: &mut [u8]) -> Chip
    requires { (chip.ep0.count ≤ 64) × (oldest_count 2 chip.ep1.ring ≤ 64)
        × (0 < length bytes.now) × (length bytes.now ≤ length reply.old) }
    ensures { Burst max3420e_spi chip result writes register bytes.now reply.old reply.new }
{
    if writes {
        return write_burst(chip, register, bytes, reply);
    }
    read_burst(chip, register, bytes, reply)
}
