// Records a lesson: each call line of a script becomes an entry, whose parts stand as the writer of lessons takes them.
#![tactic(auto)]

ghost use Rattle.std.specs.Prelude.{◌≡◌, ◌+◌, ◌≤◌, length, OnOk, OnErr};
ghost use Rattle.event_body.specs.Body.{body_of};
ghost use Rattle.recorder.specs.Recording.{Fits};

use lesson::{ENTRIES, ROW, SIZE};
use lesson_script::Line;
use messages::Reason;
use model::Event;
use script::{Command, Fault};
use std::fmt;
use std::fmt::Write;

// The kinds of an entry, as bytes, since the writer of lessons takes them so.
const TRANSFER: u8 = 1;

const EVENT: u8 = 2;

// Event codes are numbers, as in crate model.
const PINS: u8 = 5;

const SETUP: u8 = 10;

const OUT: u8 = 11;

const IN: u8 = 12;

// So many entries, with their kinds, their ticks and the lengths of their bodies; so many bytes of bodies, one after the other; the tick of
// the next entry.
#[derive(Clone, Copy)]
pub struct Recording {
    pub kinds: [u8; ENTRIES],
    pub ticks: [u32; ENTRIES],
    pub lengths: [u16; ENTRIES],
    pub count: usize,
    pub bodies: [u8; SIZE],
    pub size: usize,
    pub tick: u32,
    ghost fits: { Fits count size },
}

// Why a line is not recorded.
#[derive(Clone, Copy)]
pub enum Wrong<'a> {
    // The line cannot be read.
    Line(Fault<'a>),
    // The lesson would have over 255 entries, or over 64 KiB.
    Entries,
    Size,
}

impl<'a> From<Fault<'a>> for Wrong<'a> {
    fn from(fault: Fault<'a>) -> Wrong<'a> {
        Wrong::Line(fault)
    }
}

impl<'a> fmt::Display for Wrong<'a> {
    fn fmt<W: Write>(&self, f: &mut fmt::Formatter<W>) -> fmt::Result {
        match self {
            Wrong::Line(fault) => {
                let reason = Reason(*fault);
                write!(f, "{reason}")
            }
            Wrong::Entries => write!(f, "a lesson has at most {ENTRIES} entries"),
            Wrong::Size => write!(f, "a lesson has at most {SIZE} bytes"),
        }
    }
}

// How long the body of an event is: it is put where it stays, so that the length is asked first.
#[tactic(auto, unfolding(event_body::specs::Body::body_of))]
fn body_length(event: Event, payload: &[u8]) -> usize
    ensures { result ≡ length (body_of event payload.now) }
{
    match event.code {
        PINS => 2,
        SETUP | OUT => 4 + payload.len(),
        IN => 4,
        _ => 1,
    }
}

impl Recording {
    pub fn begin() -> Self {
        Recording {
            kinds: [0; ENTRIES],
            ticks: [0; ENTRIES],
            lengths: [0; ENTRIES],
            count: 0,
            bodies: [0; SIZE],
            size: 0,
            tick: 0,
        }
    }

    // Whether there is room for an entry with a body so long.
    fn check<'a>(&self, length: usize) -> Result<(), Wrong<'a>>
        ensures { OnOk result (Fits (self.now.count + 1) (self.now.size + length)) }
    {
        if SIZE - self.size < length {
            return Err(Wrong::Size);
        }
        if self.count == ENTRIES {
            return Err(Wrong::Entries);
        }
        if SIZE < 2 + ROW * (self.count + 1) + self.size + length {
            return Err(Wrong::Size);
        }
        Ok(())
    }

    // An entry of a kind, whose body, so long, stands behind those before it. The next has the tick after it.
    fn add_entry(&mut self, kind: u8, length: usize)
        requires { Fits (self.old.count + 1) (self.old.size + length) }
    {
        let count = self.count;
        let tick = self.tick;
        self.kinds[count] = kind;
        self.ticks[count] = tick;
        self.lengths[count] = length as u16;
        self.count = count + 1;
        self.size += length;
        self.tick = tick.wrapping_add(1);
    }

    fn add_transfer<'a>(&mut self, bytes: &[u8]) -> Result<(), Wrong<'a>>
        ensures { OnErr result (self.new ≡ self.old) }
    {
        self.check(bytes.len())?;
        let start = self.size;
        self.bodies[start..start + bytes.len()].copy_from_slice(bytes);
        self.add_entry(TRANSFER, bytes.len());
        Ok(())
    }

    // Four bytes more than the payload's are asked for, if the body has fewer too: no lesson gets there, for its table takes thirteen at least.
    fn add_event<'a>(&mut self, event: Event, payload: &[u8]) -> Result<(), Wrong<'a>>
        ensures { OnErr result (self.new ≡ self.old) }
    {
        let start = self.size;
        if SIZE - start < payload.len() + 4 {
            return Err(Wrong::Size);
        }
        let length = body_length(event, payload);
        self.check(length)?;
        let _ = event_body::put_body(event, payload, &mut self.bodies[start..]);
        self.add_entry(EVENT, length);
        Ok(())
    }

    // Takes a line, without its line end. The lent bytes are for what the line names. A line that is wrong changes nothing.
    pub fn take_line<'a>(&mut self, line: &'a [u8], bytes: &mut [u8]) -> Result<(), Wrong<'a>>
        requires { length line.now ≤ length bytes.old }
        ensures { OnErr result (self.new ≡ self.old) }
    {
        let Some(asked) = lesson_script::parse(line, bytes)? else {
            return Ok(());
        };
        let named = &bytes[..asked.count()];
        match asked {
            Line::Tick(tick) => {
                self.tick = tick;
                Ok(())
            }
            Line::Call(Command::Transfer(_)) => self.add_transfer(named),
            Line::Call(Command::Event(event, _)) => self.add_event(event, named),
            Line::Call(_) => Ok(()),
        }
    }
}
