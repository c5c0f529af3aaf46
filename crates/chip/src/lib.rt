// The controller's record: its parts, the power-on record, when it is sound, and the INT pin.
#![tactic(auto)]

ghost use Rattle.std.specs.Prelude.{◌≡◌, cond};
ghost use Rattle.bits.specs.Flag.{flipped};
ghost use Rattle.chip.specs.Record.{power_on_registers, power_on_chip};
ghost use Rattle.chip.specs.Sound.{sound_ep0, sound_ep1, sound_ep2, sound_ep3, sound_registers, sound_irqs, sound_flags, sound_chip};
ghost use Rattle.chip.specs.Pin.{interrupt_active, pin_of, pin_reply, pin_number, pin_refusal, pin_value};

use refusal::Refusal;
use ring::Ring;
use std::fmt;

// The record is laid out as C programs hold it (include/max3420e.h). A flag is a number, 1 for on and 0 for off, and so is a toggle,
// 1 for DATA1; a record with another number there is not sound.

// Endpoint 0: one buffer for both directions, and the setup bytes (SUDFIFO).
#[repr(C)]
#[derive(Clone, Copy, PartialEq, Eq)]
pub struct Endpoint0 {
    pub bytes: [u8; 64],
    pub setup: [u8; 8],
    // R5, EP0BC: the count last armed or received.
    pub count: u8,
    pub armed: u8,
    // Positions of R0 for reads and writes, and of R4.
    pub readpos: u8,
    pub writepos: u8,
    pub setuppos: u8,
    pub intoggle: u8,
    pub outtoggle: u8,
    // A SETUP was accepted since the last reset.
    pub current: u8,
}

// Endpoint 1 OUT, double-buffered.
#[repr(C)]
#[derive(Clone, Copy, PartialEq, Eq)]
pub struct Endpoint1 {
    pub ring: Ring,
    pub readpos: u8,
    pub toggle: u8,
}

// Endpoint 2 IN, double-buffered.
#[repr(C)]
#[derive(Clone, Copy, PartialEq, Eq)]
pub struct Endpoint2 {
    pub ring: Ring,
    // R7, EP2INBC: the count last armed.
    pub count: u8,
    pub writepos: u8,
    pub toggle: u8,
}

// Endpoint 3 IN.
#[repr(C)]
#[derive(Clone, Copy, PartialEq, Eq)]
pub struct Endpoint3 {
    pub bytes: [u8; 64],
    // R8, EP3INBC: the count last armed.
    pub count: u8,
    pub armed: u8,
    pub writepos: u8,
    pub toggle: u8,
}

// R9 to R17, R19 and R20, by the maker's names. R18 is constant.
#[repr(C)]
#[derive(Clone, Copy, PartialEq, Eq)]
pub struct Registers {
    pub epstalls: u8,
    pub clrtogs: u8,
    pub epirq: u8,
    pub epien: u8,
    pub usbirq: u8,
    pub usbien: u8,
    pub usbctl: u8,
    pub cpuctl: u8,
    pub pinctl: u8,
    pub fnaddr: u8,
    pub iopins: u8,
}

// What the chip is supplied with.
#[repr(C)]
#[derive(Clone, Copy, PartialEq, Eq)]
pub struct Power {
    // The VBUS comparator's level.
    pub vbus: u8,
    // The oscillator is stable (000 page 49).
    pub oscok: u8,
}

#[repr(C)]
#[derive(Clone, Copy, PartialEq, Eq)]
pub struct Chip {
    pub ep0: Endpoint0,
    pub ep1: Endpoint1,
    pub ep2: Endpoint2,
    pub ep3: Endpoint3,
    pub registers: Registers,
    pub power: Power,
}

// The resting level of the INT pin; `pin_number` gives its value.
#[derive(Clone, Copy, Debug, PartialEq, Eq)]
pub enum Pin {
    Low,
    High,
    Open,
}

impl fmt::Display for Pin {
    fn fmt<W: fmt::Write>(&self, f: &mut fmt::Formatter<W>) -> fmt::Result {
        f.write_str(match self {
            Pin::Low => "low",
            Pin::High => "high",
            Pin::Open => "open",
        })
    }
}

// What a call hands back: the record after it, its reply or why it is refused, and the INT pin.
#[derive(Clone, Copy)]
pub struct CallAnswer<S, R> {
    pub state: S,
    pub reply: Result<R, Refusal>,
    pub pin: Pin,
}

// A toggle that flips.
pub fn flipped(toggle: u8) -> u8
    ensures { result ≡ flipped toggle }
{
    if toggle == 1 { 0 } else { 1 }
}

impl Endpoint0 {
    fn is_sound(self) -> bool
        ensures { result ≡ sound_ep0 self }
    {
        (self.count <= 64) & (self.readpos <= 64) & (self.writepos <= 64) & (self.setuppos <= 8)
    }
}

impl Endpoint1 {
    fn is_sound(self) -> bool
        ensures { result ≡ sound_ep1 self }
    {
        let r = self.ring;
        r.is_sound() & (self.readpos <= 64)
    }
}

impl Endpoint2 {
    fn is_sound(self) -> bool
        ensures { result ≡ sound_ep2 self }
    {
        let r = self.ring;
        r.is_sound() & (self.count <= 64) & (self.writepos <= 64)
    }
}

impl Endpoint3 {
    fn is_sound(self) -> bool
        ensures { result ≡ sound_ep3 self }
    {
        (self.count <= 64) & (self.writepos <= 64)
    }
}

impl Registers {
    fn power_on() -> Self
        ensures { result ≡ power_on_registers }
    {
        Registers {
            epstalls: 0,
            clrtogs: 0,
            epirq: 0x19,
            epien: 0,
            usbirq: 0,
            usbien: 0,
            usbctl: 0,
            cpuctl: 0,
            pinctl: 0,
            fnaddr: 0,
            iopins: 0,
        }
    }

    // Unused bits are 0.
    fn is_sound(self) -> bool
        ensures { result ≡ sound_registers self }
    {
        (self.epstalls & 0x80 == 0)
            & (self.clrtogs & 0x1f == 0)
            & (self.epirq & 0xc0 == 0)
            & (self.epien & 0xc0 == 0)
            & (self.usbctl & 0x03 == 0)
            & (self.cpuctl & 0xfe == 0)
            & (self.fnaddr & 0x80 == 0)
    }

    // IE is set, and some IRQ bit has its enable bit set.
    fn interrupt_active(self) -> bool
        ensures { result ≡ interrupt_active self }
    {
        (self.cpuctl & Chip::IE != 0)
            & ((self.epirq & self.epien != 0) | (self.usbirq & self.usbien != 0))
    }

    #[tactic(auto, unfolding(crate::specs::Pin::pin_of))]
    pub fn pin(self) -> Pin
        ensures { result ≡ pin_of self }
    {
        let active = self.interrupt_active();
        if self.pinctl & Chip::INTLEVEL != 0 {
            return choose_level(active, Pin::Low, Pin::Open);
        }
        if self.pinctl & Chip::POSINT != 0 {
            return choose_level(active, Pin::High, Pin::Low);
        }
        choose_level(active, Pin::Low, Pin::High)
    }
}

fn choose_level(active: bool, on: Pin, off: Pin) -> Pin
    ensures { result ≡ cond active on off }
{
    if active { on } else { off }
}

impl Chip {
    // The bytes of a packet, of a transfer, and of a SETUP, at most.
    pub const BUFFER: usize = 64;

    pub const TRANSFER: usize = 4096;

    pub const SETUP: usize = 8;

    // R5, EP0BC
    pub const COUNT_BITS: u8 = 0x7f;

    // R9, EPSTALLS
    pub const ACKSTAT: u8 = 0x40;

    pub const STLSTAT: u8 = 0x20;

    pub const STLEP3IN: u8 = 0x10;

    pub const STLEP2IN: u8 = 0x08;

    pub const STLEP1OUT: u8 = 0x04;

    pub const STLEP0OUT: u8 = 0x02;

    pub const STLEP0IN: u8 = 0x01;

    pub const EPSTALLS_BITS: u8 = 0x7f;

    // R10, CLRTOGS
    pub const EP3DISAB: u8 = 0x80;

    pub const EP2DISAB: u8 = 0x40;

    pub const EP1DISAB: u8 = 0x20;

    pub const CTGEP3IN: u8 = 0x10;

    pub const CTGEP2IN: u8 = 0x08;

    pub const CTGEP1OUT: u8 = 0x04;

    pub const DISABLE_BITS: u8 = 0xe0;

    // R11, EPIRQ
    pub const SUDAVIRQ: u8 = 0x20;

    pub const IN3BAVIRQ: u8 = 0x10;

    pub const IN2BAVIRQ: u8 = 0x08;

    pub const OUT1DAVIRQ: u8 = 0x04;

    pub const OUT0DAVIRQ: u8 = 0x02;

    pub const IN0BAVIRQ: u8 = 0x01;

    pub const EPIRQ_BITS: u8 = 0x3f;

    // Those that a 1 clears and no packet goes with.
    pub const CLEARED_EPIRQS: u8 = 0x3b;

    // R12, EPIEN
    pub const EPIEN_BITS: u8 = 0x3f;

    // R13, USBIRQ
    pub const URESDNIRQ: u8 = 0x80;

    pub const VBUSIRQ: u8 = 0x40;

    pub const NOVBUSIRQ: u8 = 0x20;

    pub const SUSPIRQ: u8 = 0x10;

    pub const BUSACTIRQ: u8 = 0x04;

    pub const OSCOKIRQ: u8 = 0x01;

    // SUSPIRQ and URESIRQ, which reply byte 0 shows.
    pub const STATUS_IRQS: u8 = 0x18;

    // R15, USBCTL
    pub const VBGATE: u8 = 0x40;

    pub const CHIPRES: u8 = 0x20;

    pub const CONNECT: u8 = 0x08;

    pub const USBCTL_BITS: u8 = 0xfc;

    // R16, CPUCTL
    pub const IE: u8 = 0x01;

    // R17, PINCTL
    pub const EP3INAK: u8 = 0x80;

    pub const EP2INAK: u8 = 0x40;

    pub const EP0INAK: u8 = 0x20;

    pub const FDUPSPI: u8 = 0x10;

    pub const INTLEVEL: u8 = 0x08;

    pub const POSINT: u8 = 0x04;

    pub const INAK_BITS: u8 = 0xe0;

    pub const PIN_BITS: u8 = 0x1f;

    // R20, IOPINS
    pub const INPUT_BITS: u8 = 0xf0;

    pub const OUTPUT_BITS: u8 = 0x0f;

    #[tactic(auto, unfolding(crate::specs::Record::power_on_chip))]
    pub fn power_on() -> Self
        ensures { result ≡ power_on_chip }
    {
        let ring = Ring::empty();
        Chip {
            ep0: Endpoint0 {
                bytes: [0u8; 64],
                setup: [0u8; 8],
                count: 0,
                armed: 0,
                readpos: 0,
                writepos: 0,
                setuppos: 0,
                intoggle: 0,
                outtoggle: 0,
                current: 0,
            },
            ep1: Endpoint1 {
                ring,
                readpos: 0,
                toggle: 0,
            },
            ep2: Endpoint2 {
                ring,
                count: 0,
                writepos: 0,
                toggle: 0,
            },
            ep3: Endpoint3 {
                bytes: [0u8; 64],
                count: 0,
                armed: 0,
                writepos: 0,
                toggle: 0,
            },
            registers: Registers::power_on(),
            power: Power { vbus: 0, oscok: 0 },
        }
    }

    // A BAV bit is 1 only where there is room, OUT1DAVIRQ exactly while a packet waits.
    fn sound_irqs(self) -> bool
        ensures { result ≡ sound_irqs self }
    {
        let irqs = self.registers.epirq;
        ((irqs & Chip::IN2BAVIRQ == 0) | (self.ep2.ring.waiting < 2))
            & ((irqs & Chip::IN3BAVIRQ == 0) | (self.ep3.armed != 1))
            & ((irqs & Chip::OUT1DAVIRQ != 0) == (0 < self.ep1.ring.waiting))
    }

    // Every flag is 0 or 1.
    fn sound_flags(self) -> bool
        ensures { result ≡ sound_flags self }
    {
        (self.ep0.armed <= 1)
            & (self.ep0.intoggle <= 1)
            & (self.ep0.outtoggle <= 1)
            & (self.ep0.current <= 1)
            & (self.ep1.toggle <= 1)
            & (self.ep2.toggle <= 1)
            & (self.ep3.armed <= 1)
            & (self.ep3.toggle <= 1)
            & (self.power.vbus <= 1)
            & (self.power.oscok <= 1)
    }

    #[tactic(auto, unfolding(crate::specs::Sound::sound_chip))]
    pub fn is_sound(self) -> bool
        ensures { result ≡ sound_chip self }
    {
        let a = self.ep0;
        let b = self.ep1;
        let c = self.ep2;
        let d = self.ep3;
        let g = self.registers;
        a.is_sound()
            & b.is_sound()
            & c.is_sound()
            & d.is_sound()
            & g.is_sound()
            & self.sound_irqs()
            & self.sound_flags()
    }

    #[tactic(auto, unfolding(crate::specs::Pin::pin_reply))]
    pub fn int_pin(self) -> Result<Pin, Refusal>
        ensures { (result ≡ pin_reply self) × (pin_refusal result ≡ cond (sound_chip self) 0 1)
            × (pin_value result ≡ cond (sound_chip self) (pin_number (pin_of self.registers)) 3) }
    {
        if self.is_sound() {
            let g = self.registers;
            return Ok(g.pin());
        }
        Err(Refusal::Unsound)
    }
}
