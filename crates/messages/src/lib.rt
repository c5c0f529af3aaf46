// What the console says of itself: its greeting, its help, and why a line cannot be read.
#![tactic(auto)]

use script::{Expected, Fault};
use std::fmt;
use std::fmt::Write;

// At most so many bytes of a word are repeated.
const WORD: usize = 32;

pub const GREETING: &str =
    " A MAX3420E at power-on. Type help for the lines it takes; end with control-D.\n";

pub const CLASSROOM_GREETING: &str =
    " Sixteen desks, all closed. Type help for the lines it takes; end with control-D.\n";

// The lines that can be typed, each with an example.
pub const HELP: &str =
    "\x20 Line                                    Example                      What it does\n\
    \x20 spi BYTES                               spi 58 00                    an SPI transfer, command byte first\n\
    \x20 power                                   power                        the chip and the firmware at power-on\n\
    \x20 stable                                  stable                       the oscillator is stable\n\
    \x20 vbus on|off                             vbus on                      VBUS comes or goes\n\
    \x20 pins LEVELS                             pins A                       the input pins: the low four bits\n\
    \x20 reset start|end                         reset start                  a bus reset\n\
    \x20 suspend                                 suspend                      the bus falls idle\n\
    \x20 activity                                activity                     the bus is active again\n\
    \x20 setup ADDRESS ENDPOINT [damaged] BYTES  setup 0 0 80 6 0 1 0 0 12 0  a SETUP and its eight bytes\n\
    \x20 out ADDRESS ENDPOINT data0|data1        out 0 1 data0 01 02          an OUT and its payload\n\
    \x20     [damaged] BYTES                     out 0 1 data0 damaged 01     the same, hurt on its way\n\
    \x20 in ADDRESS ENDPOINT [lost]              in 0 2                       an IN\n\
    \x20                                         in 0 2 lost                  the same; the host's ACK is lost\n\
    \x20 event CODE                              event 9                      any event code, all else 0\n\
    \x20 step                                    step                         the firmware serves a SETUP, if one waits\n\
    \x20 room COUNT                              room 64                      bytes lent for replies (decimal)\n\
    \x20 show                                    show                         registers, pin, what waits at each endpoint\n\
    \x20 help                                    help                         these lines\n\
    \x20 Numbers are hex of one or two digits; # starts a comment.\n";

// The lines of a classroom.
pub const CLASSROOM_HELP: &str = "\x20 Line            Example                What it does\n\
    \x20 open DESK KEY   open 3 DEADBEEF        opens a desk, whose board is at power-on, for who has the key\n\
    \x20 close DESK      close 3                closes a desk: its board goes back to power-on\n\
    \x20 DESK KEY LINE   3 DEADBEEF spi 58 00   a line at a desk\n\
    \x20                 3 DEADBEEF help        the lines that a desk takes\n\
    \x20 desks           desks                  the desks that are open, with the calls of each since its opening\n\
    \x20 help            help                   these lines\n\
    \x20 A desk is a decimal number, 0 to 15; a key is one to eight hex digits, not 0; # starts a comment.\n";

// What a line should have had there.
fn expectation(expected: Expected) -> &'static str {
    match expected {
        Expected::Line => {
            "a line starts with spi, power, stable, vbus, pins, reset, suspend, activity, \
            setup, out, in, event, step, room, show or help"
        }
        Expected::Byte => "a byte is one or two hex digits",
        Expected::Switch => "vbus goes on or off",
        Expected::Edge => "a reset has a start or an end",
        Expected::Pins => "pins are one or two hex digits",
        Expected::Code => "an event code is one or two hex digits",
        Expected::Address => "an address is one or two hex digits",
        Expected::Endpoint => "an endpoint is one or two hex digits",
        Expected::Toggle => "an OUT packet is data0 or data1",
        Expected::Room => "a room is a decimal number",
        Expected::End => "the line should end here",
        Expected::Order => "a line starts with a desk's number, open, close, desks or help",
        Expected::Desk => "a desk is a decimal number",
        Expected::Key => "a key is one to eight hex digits",
        Expected::Entry => {
            "a line of a lesson starts with spi, power, stable, vbus, pins, reset, suspend, activity, \
            setup, out, in, event or tick"
        }
        Expected::Tick => "a tick is a decimal number, 0 to 4294967295",
    }
}

// A word between quotation marks, cut where it is long. A byte that cannot be read is a question mark.
#[derive(Clone, Copy)]
struct Quoted<'a>(&'a [u8]);

impl<'a> fmt::Display for Quoted<'a> {
    fn fmt<W: Write>(&self, f: &mut fmt::Formatter<W>) -> fmt::Result {
        write!(f, "'")?;
        for byte in self.0.iter().take(WORD) {
            let glyph = if byte.is_ascii_graphic() { *byte } else { b'?' };
            f.write_char(char::from(glyph))?;
        }
        let end = if self.0.len() > WORD { "..'" } else { "'" };
        f.write_str(end)
    }
}

// Why a line cannot be read: what was expected, and the word that stands there.
#[derive(Clone, Copy)]
pub struct Reason<'a>(pub Fault<'a>);

impl<'a> fmt::Display for Reason<'a> {
    fn fmt<W: Write>(&self, f: &mut fmt::Formatter<W>) -> fmt::Result {
        let expected = expectation(self.0.expected);
        match self.0.word {
            None => write!(f, "{expected}, but the line ends"),
            Some(word) => {
                let word = Quoted(word);
                write!(f, "{expected}, not {word}")
            }
        }
    }
}
