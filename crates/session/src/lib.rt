// The lines of an input, read a chunk at a time. Nothing is read before the lines that are there are taken, so that who types sees the
// answers to them.
#![tactic(auto)]

ghost use Rattle.std.specs.Prelude.{◌≡◌, ◌≤◌, length, take, IfOk, IfSome, OnSome, IfNone};
ghost use Rattle.session.specs.Session.{kept};

use std::io::Read;
use std::ops::Range;
use std::{fmt, io};

// The bytes of a line, at most.
const LINE: usize = 16384;

// What is kept of a line whose end is still to come: the CR of the longest and one byte more, by which a longer one is seen.
const KEPT: usize = 16386;

const CHUNK: usize = 65536;

const ROOM: usize = KEPT + CHUNK;

#[derive(Clone, Copy)]
pub struct TooLong;

impl fmt::Display for TooLong {
    fn fmt<W: fmt::Write>(&self, f: &mut fmt::Formatter<W>) -> fmt::Result {
        write!(f, "a line has at most {LINE} bytes")
    }
}

// A line with its number from 1 on, and without its end.
#[derive(Clone, Copy)]
pub struct Line<'a> {
    pub number: u64,
    pub text: Result<&'a [u8], TooLong>,
}

// An input's lines so far. The input is lent to each read: who calls keeps it, and a session is no more than bytes and numbers.
#[derive(Clone, Copy)]
pub struct Session {
    // What is read, so many bytes; the lines before `start` are taken.
    pub text: [u8; ROOM],
    pub filled: usize,
    pub start: usize,
    // No line ends from there to here, so that no byte is searched twice.
    pub searched: usize,
    // The lines that are taken.
    pub number: u64,
    // The input has ended.
    pub ended: bool,
    ghost inside: { (start ≤ searched) × (searched ≤ filled) × (filled ≤ 81922) },
}

impl Session {
    // Nothing is read.
    pub fn begin() -> Self
        ensures { (result.filled ≡ 0) × (result.start ≡ 0) }
    {
        Session {
            text: [0; ROOM],
            filled: 0,
            start: 0,
            searched: 0,
            number: 0,
            ended: false,
        }
    }

    // Where the next line is, with its CR and without its LF.
    fn take(&mut self) -> Option<Range<usize>>
        ensures { IfSome result (λ r. (r.start ≤ r.end) × (r.end ≤ self.new.filled)) }
    {
        let start = self.start;
        let searched = self.searched;
        let filled = self.filled;
        let rest = &self.text[searched..filled];
        let (end, next) = match rest.iter().position(|byte| *byte == b'\n') {
            Some(length) => (searched + length, searched + length + 1),
            None if self.ended && start < filled => (filled, filled),
            None => {
                self.searched = filled;
                return None;
            }
        };
        self.start = next;
        self.searched = next;
        self.number = self.number.wrapping_add(1);
        Some(start..end)
    }

    // The next line, if its end has been read. At the input's end a last line may have none.
    pub fn line(&mut self) -> Option<Line<'_>>
        ensures { IfSome result (λ l. IfOk l.text (λ text. length text.now ≤ 16384)) }
    {
        let place = self.take()?;
        let number = self.number;
        let whole = &self.text[place];
        let text = words::without_return(whole);
        if LINE < text.len() {
            return Some(Line {
                number,
                text: Err(TooLong),
            });
        }
        Some(Line {
            number,
            text: Ok(text),
        })
    }

    // What is not taken goes to the front, as much of it as is kept. Where it stands there nothing is moved: a line may come byte by byte.
    fn keep(&mut self)
        ensures front { (self.new.start ≡ 0) × (self.new.filled ≤ 16386) }
        ensures kept { take self.new.filled self.new.text ≡ kept self.old.text self.old.start self.old.filled }
        ensures all { self.new.filled ≡ length (kept self.old.text self.old.start self.old.filled) }
    {
        let count = (self.filled - self.start).min(KEPT);
        self.searched = (self.searched - self.start).min(count);
        self.filled = count;
        if self.start == 0 {
            return;
        }
        self.text.copy_within(self.start..self.start + count, 0);
        self.start = 0;
    }

    // Reads once, or says by None that the input had ended before. It ends with a read that fails, too.
    pub fn read(&mut self, input: &mut impl Read) -> Option<io::Result<()>>
        ensures kept { OnSome result (take (length (kept self.old.text self.old.start self.old.filled)) self.new.text ≡ kept self.old.text self.old.start self.old.filled) }
        ensures filled { OnSome result ((self.new.start ≡ 0) × (length (kept self.old.text self.old.start self.old.filled) ≤ self.new.filled)) }
        ensures ended { IfNone result (self.new ≡ self.old) }
    {
        if self.ended {
            return None;
        }
        self.keep();
        let kept = self.filled;
        let read = input.read(&mut self.text[kept..kept + CHUNK]);
        let count = read.unwrap_or(0);
        self.ended = count == 0;
        self.filled = kept + count;
        Some(read.map(|_| ()))
    }
}
