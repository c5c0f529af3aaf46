// A line of a script becomes a command. The bytes that it names go to a lent buffer, as long as the line at least.
#![tactic(auto)]

ghost use Rattle.std.specs.Prelude.{◌≡◌, ◌≤◌, length, IfOk, IfSome};
ghost use Rattle.script.specs.Command.{command_count};
ghost use Rattle.script.specs.Reader.{left, NoLonger};

mod reader;

use model::{EndpointNumber, Event};
pub use reader::{Expected, Fault, Reader};

// What a line asks for. A count is that of the bytes in the lent buffer.
#[derive(Clone, Copy)]
pub enum Command {
    Transfer(usize),
    Event(Event, usize),
    Step,
    Room(usize),
    Show,
    Help,
}

impl Command {
    pub fn count(self) -> usize
        ensures { result ≡ command_count self }
    {
        match self {
            Command::Transfer(count) | Command::Event(_, count) => count,
            Command::Step | Command::Room(_) | Command::Show | Command::Help => 0,
        }
    }
}

// Event codes (document 01, the bus side).
const POWER: u8 = 1;

const STABLE: u8 = 2;

const VBUS_ON: u8 = 3;

const VBUS_OFF: u8 = 4;

// Event codes are numbers, as in crate model.
const PINS: u8 = 5;

const RESET_START: u8 = 6;

const RESET_END: u8 = 7;

const SUSPEND: u8 = 8;

const ACTIVITY: u8 = 9;

const SETUP: u8 = 10;

const OUT: u8 = 11;

const IN: u8 = 12;

// An event that is only a code.
fn signal(code: u8) -> Event {
    Event {
        code,
        pins: 0,
        address: 0,
        endpoint: EndpointNumber(0),
        damaged: false,
        data1: false,
        acknowledged: false,
    }
}

// The address and the endpoint of a transaction.
fn read_target<'a>(reader: &mut Reader<'a>, code: u8) -> Result<Event, Fault<'a>>
    ensures { NoLonger reader.old reader.new }
{
    let address = reader.byte(Expected::Address)?;
    let endpoint = EndpointNumber(reader.byte(Expected::Endpoint)?);
    Ok(Event {
        address,
        endpoint,
        ..signal(code)
    })
}

// A SETUP, up to its bytes.
fn read_setup<'a>(reader: &mut Reader<'a>) -> Result<Event, Fault<'a>>
    ensures { NoLonger reader.old reader.new }
{
    let transaction = read_target(reader, SETUP)?;
    let damaged = reader.accept(b"damaged");
    Ok(Event {
        damaged,
        ..transaction
    })
}

// An OUT, up to its bytes.
fn read_out<'a>(reader: &mut Reader<'a>) -> Result<Event, Fault<'a>>
    ensures { NoLonger reader.old reader.new }
{
    let transaction = read_target(reader, OUT)?;
    let data1 = reader.read(Expected::Toggle, |word| match word {
        b"data0" => Some(false),
        b"data1" => Some(true),
        _ => None,
    })?;
    let damaged = reader.accept(b"damaged");
    Ok(Event {
        data1,
        damaged,
        ..transaction
    })
}

fn read_in<'a>(reader: &mut Reader<'a>) -> Result<Event, Fault<'a>> {
    let transaction = read_target(reader, IN)?;
    let lost = reader.accept(b"lost");
    Ok(Event {
        acknowledged: !lost,
        ..transaction
    })
}

fn read_vbus<'a>(reader: &mut Reader<'a>) -> Result<Event, Fault<'a>> {
    let code = reader.read(Expected::Switch, |word| match word {
        b"on" => Some(VBUS_ON),
        b"off" => Some(VBUS_OFF),
        _ => None,
    })?;
    Ok(signal(code))
}

fn read_reset<'a>(reader: &mut Reader<'a>) -> Result<Event, Fault<'a>> {
    let code = reader.read(Expected::Edge, |word| match word {
        b"start" => Some(RESET_START),
        b"end" => Some(RESET_END),
        _ => None,
    })?;
    Ok(signal(code))
}

fn read_pins<'a>(reader: &mut Reader<'a>) -> Result<Event, Fault<'a>> {
    let pins = reader.byte(Expected::Pins)?;
    Ok(Event {
        pins,
        ..signal(PINS)
    })
}

fn read_code<'a>(reader: &mut Reader<'a>) -> Result<Event, Fault<'a>> {
    let code = reader.byte(Expected::Code)?;
    Ok(signal(code))
}

// The event that a line names by its first word, where it has no bytes.
fn read_event<'a>(
    word: &'a [u8],
    reader: &mut Reader<'a>,
    expected: Expected,
) -> Result<Event, Fault<'a>> {
    match word {
        b"power" => Ok(signal(POWER)),
        b"stable" => Ok(signal(STABLE)),
        b"vbus" => read_vbus(reader),
        b"pins" => read_pins(reader),
        b"reset" => read_reset(reader),
        b"suspend" => Ok(signal(SUSPEND)),
        b"activity" => Ok(signal(ACTIVITY)),
        b"in" => read_in(reader),
        b"event" => read_code(reader),
        _ => Err(Fault {
            expected,
            word: Some(word),
        }),
    }
}

// The call of such an event: it has no bytes.
fn read_short<'a>(
    word: &'a [u8],
    mut reader: Reader<'a>,
    expected: Expected,
) -> Result<Command, Fault<'a>>
    ensures { IfOk result (λ command. command_count command ≡ 0) }
{
    let sent = read_event(word, &mut reader, expected)?;
    reader.end()?;
    Ok(Command::Event(sent, 0))
}

// A call of the chip: the line whose first word is known. Another line is a fault, by what is expected of its first word.
pub fn read_call<'a>(
    word: &'a [u8],
    mut reader: Reader<'a>,
    expected: Expected,
    bytes: &mut [u8],
) -> Result<Command, Fault<'a>>
    requires { length (left reader) ≤ length bytes.old }
    ensures { IfOk result (λ command. command_count command ≤ length bytes.old) }
{
    match word {
        b"spi" => Ok(Command::Transfer(reader.bytes(bytes)?)),
        b"setup" => {
            let sent = read_setup(&mut reader)?;
            Ok(Command::Event(sent, reader.bytes(bytes)?))
        }
        b"out" => {
            let sent = read_out(&mut reader)?;
            Ok(Command::Event(sent, reader.bytes(bytes)?))
        }
        _ => read_short(word, reader, expected),
    }
}

// What a line asks for, without its line end; a CR there is passed over. Nothing is asked for where no word stands.
pub fn parse<'a>(line: &'a [u8], bytes: &mut [u8]) -> Result<Option<Command>, Fault<'a>>
    requires { length line.now ≤ length bytes.old }
    ensures { IfOk result (λ asked. IfSome asked (λ command. command_count command ≤ length bytes.old)) }
{
    let mut reader = Reader::new(words::content(line));
    let Some(word) = reader.word() else {
        return Ok(None);
    };
    let command = match word {
        b"step" => Command::Step,
        b"room" => Command::Room(reader.number(Expected::Room)? as usize),
        b"show" => Command::Show,
        b"help" => Command::Help,
        _ => return Ok(Some(read_call(word, reader, Expected::Line, bytes)?)),
    };
    reader.end()?;
    Ok(Some(command))
}
