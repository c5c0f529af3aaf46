// The registers by the maker's names, with their values and the bits that are 1 (000, "Register Map").
#![tactic(auto)]

use chip::Chip;
use output::{Bytes, write_column};
use std::fmt;
use std::fmt::Write;

// How a register's line begins, with its number and its name; and the names of its bits, bit 7 first: an unused bit and a bit of a number have none, and so have the registers that hold
// a number or a byte of a FIFO. A slice, not an array of eight or none: that form has no generated proof.
#[derive(Clone, Copy)]
struct Register {
    head: &'static str,
    bits: &'static [&'static str],
}

// R0 to R20
const REGISTERS: [Register; 21] = [
    Register {
        head: "  R0   EP0FIFO",
        bits: &[],
    },
    Register {
        head: "  R1   EP1OUTFIFO",
        bits: &[],
    },
    Register {
        head: "  R2   EP2INFIFO",
        bits: &[],
    },
    Register {
        head: "  R3   EP3INFIFO",
        bits: &[],
    },
    Register {
        head: "  R4   SUDFIFO",
        bits: &[],
    },
    Register {
        head: "  R5   EP0BC",
        bits: &[],
    },
    Register {
        head: "  R6   EP1OUTBC",
        bits: &[],
    },
    Register {
        head: "  R7   EP2INBC",
        bits: &[],
    },
    Register {
        head: "  R8   EP3INBC",
        bits: &[],
    },
    Register {
        head: "  R9   EPSTALLS",
        bits: &[
            "",
            "ACKSTAT",
            "STLSTAT",
            "STLEP3IN",
            "STLEP2IN",
            "STLEP1OUT",
            "STLEP0OUT",
            "STLEP0IN",
        ],
    },
    Register {
        head: "  R10  CLRTOGS",
        bits: &[
            "EP3DISAB",
            "EP2DISAB",
            "EP1DISAB",
            "CTGEP3IN",
            "CTGEP2IN",
            "CTGEP1OUT",
            "",
            "",
        ],
    },
    Register {
        head: "  R11  EPIRQ",
        bits: &[
            "",
            "",
            "SUDAVIRQ",
            "IN3BAVIRQ",
            "IN2BAVIRQ",
            "OUT1DAVIRQ",
            "OUT0DAVIRQ",
            "IN0BAVIRQ",
        ],
    },
    Register {
        head: "  R12  EPIEN",
        bits: &[
            "",
            "",
            "SUDAVIE",
            "IN3BAVIE",
            "IN2BAVIE",
            "OUT1DAVIE",
            "OUT0DAVIE",
            "IN0BAVIE",
        ],
    },
    Register {
        head: "  R13  USBIRQ",
        bits: &[
            "URESDNIRQ",
            "VBUSIRQ",
            "NOVBUSIRQ",
            "SUSPIRQ",
            "URESIRQ",
            "BUSACTIRQ",
            "RWUDNIRQ",
            "OSCOKIRQ",
        ],
    },
    Register {
        head: "  R14  USBIEN",
        bits: &[
            "URESDNIE", "VBUSIE", "NOVBUSIE", "SUSPIE", "URESIE", "BUSACTIE", "RWUDNIE", "OSCOKIE",
        ],
    },
    Register {
        head: "  R15  USBCTL",
        bits: &[
            "HOSCSTEN", "VBGATE", "CHIPRES", "PWRDOWN", "CONNECT", "SIGRWU", "", "",
        ],
    },
    Register {
        head: "  R16  CPUCTL",
        bits: &["", "", "", "", "", "", "", "IE"],
    },
    Register {
        head: "  R17  PINCTL",
        bits: &[
            "EP3INAK", "EP2INAK", "EP0INAK", "FDUPSPI", "INTLEVEL", "POSINT", "GPXB", "GPXA",
        ],
    },
    Register {
        head: "  R18  REVISION",
        bits: &["", "", "", "", "REV3", "REV2", "REV1", "REV0"],
    },
    Register {
        head: "  R19  FNADDR",
        bits: &[],
    },
    Register {
        head: "  R20  IOPINS",
        bits: &[
            "GPIN3", "GPIN2", "GPIN1", "GPIN0", "GPOUT3", "GPOUT2", "GPOUT1", "GPOUT0",
        ],
    },
];

// Bit 7 first
const MASKS: [u8; 8] = [0x80, 0x40, 0x20, 0x10, 0x08, 0x04, 0x02, 0x01];

// The names of a register's bits that are 1, if there are any.
fn write_bits(out: &mut impl Write, names: &[&str], value: u8) -> fmt::Result {
    if names.is_empty() || value == 0 {
        return Ok(());
    }
    out.write_str(" ")?;
    for (mask, name) in MASKS.iter().zip(names) {
        if value & mask != 0 {
            out.write_str(" ")?;
            out.write_str(name)?;
        }
    }
    Ok(())
}

// R0 to R20, a line each: its number, its name, its value and its bits that are 1. Text goes out as it stands: by `{:<12}` and `{:02X}` the
// record took twice as long.
#[derive(Clone, Copy)]
pub struct RegisterMap<'a>(pub &'a Chip);

impl<'a> fmt::Display for RegisterMap<'a> {
    fn fmt<W: Write>(&self, f: &mut fmt::Formatter<W>) -> fmt::Result {
        for (number, register) in (0..21u8).zip(&REGISTERS) {
            let value = [registers::read_register(*self.0, number)];
            write_column(f, register.head, 18)?;
            fmt::Display::fmt(&Bytes(&value), f)?;
            write_bits(f, register.bits, value[0])?;
            f.write_str("\n")?;
        }
        Ok(())
    }
}
