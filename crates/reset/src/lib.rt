// The three resets of the record, driven by one table of reset lines with a row for each of R5 to R20. Each endpoint has a function of its
// own, since its record has: C programs hold them so.
#![tactic(auto)]

ghost use Rattle.std.specs.Prelude.{◌≡◌, ◌≤◌, ◌<◌};
ghost use Rattle.reset.specs.Table.{past_rows, row_of, line_of, register_after};
ghost use Rattle.reset.specs.Reset.{wipes, bytes_after, ring_after, ep0_after, ep1_after};
ghost use Rattle.reset.specs.Reset.{ep2_after, ep3_after, registers_after, power_after, chip_after};

use chip::{Chip, Endpoint0, Endpoint1, Endpoint2, Endpoint3, Power, Registers};
use ring::Ring;

#[derive(Clone, Copy)]
pub enum Reset {
    PowerOn,
    ChipReset,
    BusReset,
}

// What a reset does to a register: the bits that it keeps, and the bits that it sets; every other becomes 0.
#[derive(Clone, Copy)]
pub struct Line {
    pub keep: u8,
    pub value: u8,
}

// A register's lines.
#[derive(Clone, Copy)]
pub struct Row {
    pub poweron: Line,
    pub chipreset: Line,
    pub busreset: Line,
}

const ZERO: Line = Line { keep: 0, value: 0 };

const CLEARED: Row = Row {
    poweron: ZERO,
    chipreset: ZERO,
    busreset: ZERO,
};

const IN_AVAILABLE: Line = Line {
    keep: 0,
    value: 0x19,
};

const REVISION: Line = Line {
    keep: 0,
    value: 0x01,
};

const KEEP_USBCTL: Line = Line {
    keep: 0xfc,
    value: 0,
};

const KEEP_PINCTL: Line = Line {
    keep: 0x1f,
    value: 0,
};

const KEEP_ALL: Line = Line {
    keep: 0xff,
    value: 0,
};

const RESETS: [Row; 16] = [
    // R5 to R8, the byte counts
    CLEARED,
    CLEARED,
    CLEARED,
    CLEARED,
    // R9 EPSTALLS, R10 CLRTOGS
    CLEARED,
    CLEARED,
    // R11 EPIRQ: IN0BAVIRQ, IN2BAVIRQ and IN3BAVIRQ become 1
    Row {
        poweron: IN_AVAILABLE,
        chipreset: IN_AVAILABLE,
        busreset: IN_AVAILABLE,
    },
    // R12 EPIEN
    CLEARED,
    // R13 USBIRQ: a bus reset keeps URESDNIRQ and sets URESIRQ
    Row {
        poweron: ZERO,
        chipreset: ZERO,
        busreset: Line {
            keep: 0x80,
            value: 0x08,
        },
    },
    // R14 USBIEN: a bus reset keeps URESDNIE and URESIE
    Row {
        poweron: ZERO,
        chipreset: ZERO,
        busreset: Line {
            keep: 0x88,
            value: 0,
        },
    },
    // R15 USBCTL
    Row {
        poweron: ZERO,
        chipreset: KEEP_USBCTL,
        busreset: KEEP_USBCTL,
    },
    // R16 CPUCTL: a bus reset keeps IE
    Row {
        poweron: ZERO,
        chipreset: ZERO,
        busreset: Line {
            keep: 0x01,
            value: 0,
        },
    },
    // R17 PINCTL: the NAK bits are cleared
    Row {
        poweron: ZERO,
        chipreset: KEEP_PINCTL,
        busreset: KEEP_PINCTL,
    },
    // R18 REVISION
    Row {
        poweron: REVISION,
        chipreset: REVISION,
        busreset: REVISION,
    },
    // R19 FNADDR
    CLEARED,
    // R20 IOPINS
    Row {
        poweron: ZERO,
        chipreset: KEEP_ALL,
        busreset: KEEP_ALL,
    },
];

fn row_of(number: usize) -> Row
    requires { (5 ≤ number) × (number < past_rows) }
    ensures { result ≡ row_of number }
{
    RESETS[number - 5]
}

fn line_of(row: Row, reset: Reset) -> Line
    ensures { result ≡ line_of row reset }
{
    match reset {
        Reset::PowerOn => row.poweron,
        Reset::ChipReset => row.chipreset,
        Reset::BusReset => row.busreset,
    }
}

// What register `number` holds after a reset.
fn register_after(reset: Reset, number: usize, old: u8) -> u8
    requires { (5 ≤ number) × (number < past_rows) }
    ensures { result ≡ register_after reset number old }
{
    let line = line_of(row_of(number), reset);
    (old & line.keep) | line.value
}

fn registers_after(reset: Reset, g: Registers) -> Registers
    ensures { result ≡ registers_after reset g }
{
    Registers {
        epstalls: register_after(reset, 9, g.epstalls),
        clrtogs: register_after(reset, 10, g.clrtogs),
        epirq: register_after(reset, 11, g.epirq),
        epien: register_after(reset, 12, g.epien),
        usbirq: register_after(reset, 13, g.usbirq),
        usbien: register_after(reset, 14, g.usbien),
        usbctl: register_after(reset, 15, g.usbctl),
        cpuctl: register_after(reset, 16, g.cpuctl),
        pinctl: register_after(reset, 17, g.pinctl),
        fnaddr: register_after(reset, 19, g.fnaddr),
        iopins: register_after(reset, 20, g.iopins),
    }
}

// Buffer bytes become 0.
fn wipes(reset: Reset) -> bool
    ensures { result ≡ wipes reset }
{
    match reset {
        Reset::PowerOn => true,
        Reset::ChipReset => true,
        Reset::BusReset => false,
    }
}

fn bytes_after(reset: Reset, bytes: [u8; 64]) -> [u8; 64]
    ensures { result ≡ bytes_after reset 64 bytes }
{
    if wipes(reset) { [0u8; 64] } else { bytes }
}

fn ring_after(reset: Reset, ring: Ring) -> Ring
    ensures { result ≡ ring_after reset ring }
{
    if wipes(reset) {
        Ring::empty()
    } else {
        ring.drained()
    }
}

fn ep0_after(reset: Reset, e: Endpoint0) -> Endpoint0
    ensures { result ≡ ep0_after reset e }
{
    let old = e.bytes;
    let bytes = bytes_after(reset, old);
    Endpoint0 {
        bytes,
        setup: [0u8; 8],
        count: register_after(reset, 5, e.count),
        armed: 0,
        readpos: 0,
        writepos: 0,
        setuppos: 0,
        intoggle: 0,
        outtoggle: 0,
        current: 0,
    }
}

fn ep1_after(reset: Reset, e: Endpoint1) -> Endpoint1
    ensures { result ≡ ep1_after reset e }
{
    let old = e.ring;
    let ring = ring_after(reset, old);
    Endpoint1 {
        ring,
        readpos: 0,
        toggle: 0,
    }
}

fn ep2_after(reset: Reset, e: Endpoint2) -> Endpoint2
    ensures { result ≡ ep2_after reset e }
{
    let old = e.ring;
    let ring = ring_after(reset, old);
    Endpoint2 {
        ring,
        count: register_after(reset, 7, e.count),
        writepos: 0,
        toggle: 0,
    }
}

fn ep3_after(reset: Reset, e: Endpoint3) -> Endpoint3
    ensures { result ≡ ep3_after reset e }
{
    let old = e.bytes;
    let bytes = bytes_after(reset, old);
    Endpoint3 {
        bytes,
        count: register_after(reset, 8, e.count),
        armed: 0,
        writepos: 0,
        toggle: 0,
    }
}

// VBUS is lost at power-on, the oscillator stops at power-on and chip reset.
fn power_after(reset: Reset, power: Power) -> Power
    ensures { result ≡ power_after reset power }
{
    match reset {
        Reset::PowerOn => Power { vbus: 0, oscok: 0 },
        Reset::ChipReset => Power {
            vbus: power.vbus,
            oscok: 0,
        },
        Reset::BusReset => power,
    }
}

// The record after a reset.
pub fn chip_after(reset: Reset, chip: Chip) -> Chip
    ensures { result ≡ chip_after reset chip }
{
    let a = chip.ep0;
    let b = chip.ep1;
    let c = chip.ep2;
    let d = chip.ep3;
    let g = chip.registers;
    let p = chip.power;
    Chip {
        ep0: ep0_after(reset, a),
        ep1: ep1_after(reset, b),
        ep2: ep2_after(reset, c),
        ep3: ep3_after(reset, d),
        registers: registers_after(reset, g),
        power: power_after(reset, p),
    }
}
