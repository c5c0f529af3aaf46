// Text goes to a page, and from there to a stream when the next does not fit or at a flush. Nothing is lost, and no call has a precondition;
// the first write that fails is remembered, and nothing is written after it.
#![tactic(auto)]

ghost use Rattle.std.specs.Prelude.{◌≡◌, ◌≤◌, ◌<◌, ⊤, length};

use std::alloc::AllocError;
use std::fmt::{InlineText, Write};
use std::{fmt, io, str};

// Text on its way to a stream, a page of so many bytes at a time.
pub struct Output<'a, P: Print, const PAGE: usize> {
    pub stream: &'a P,
    // What is not yet written, so many bytes.
    pub page: [u8; PAGE],
    pub filled: usize,
    // How the writes went: after one that failed none follows.
    pub written: io::Result<()>,
    ghost fits: { filled ≤ PAGE },
}

impl<'a, P: Print, const PAGE: usize> Clone for Output<'a, P, PAGE> {
    ghost is_clone = { λ x y. (y.stream ≡ x.stream) × (y.page ≡ x.page) × (y.filled ≡ x.filled) × (y.written ≡ x.written) };

    ghost is_infallible = { λ _. ⊤ };

    fn clone(&self) -> Result<Self, AllocError> {
        Ok(Output {
            stream: self.stream,
            page: self.page,
            filled: self.filled,
            written: self.written,
        })
    }
}

impl<'a, P: Print, const PAGE: usize> Copy for Output<'a, P, PAGE> {}

// An error as its number tells it: the system's, or 0 where it has none.
fn numbered(error: io::Error) -> io::Error {
    io::Error::from_raw_os_error(error.raw_os_error().unwrap_or(0))
}

impl<'a, P: Print, const PAGE: usize> Output<'a, P, PAGE> {
    // Nothing waits, and nothing has failed.
    pub fn new(stream: &'a P) -> Self
        ensures { result.filled ≡ 0 }
    {
        Output {
            stream,
            page: [0; PAGE],
            filled: 0,
            written: Ok(()),
        }
    }

    // Puts text on the page, if it fits there.
    fn put(&mut self, text: &[u8]) -> bool {
        if PAGE - self.filled < text.len() {
            return false;
        }
        let start = self.filled;
        let end = start + text.len();
        let page = &mut self.page[..];
        page[start..end].copy_from_slice(text);
        self.filled = end;
        true
    }

    // Writes what waits on the page, and answers with the first failure of all writes so far. Nothing waits then.
    pub fn flush(&mut self) -> io::Result<()>
        ensures { self.new.filled ≡ 0 }
    {
        if self.written.is_ok() {
            self.written = self
                .stream
                .write_all(&self.page[..self.filled])
                .map_err(numbered);
        }
        self.filled = 0;
        self.written
    }
}

impl<'a, P: Print, const PAGE: usize> Write for Output<'a, P, PAGE> {
    fn write_str(&mut self, text: &str) -> fmt::Result {
        let bytes = text.as_bytes();
        if self.written.is_ok() && self.put(bytes) {
            return Ok(());
        }
        if self.flush().is_ok() && !self.put(bytes) {
            self.written = self.stream.write_all(bytes).map_err(numbered);
        }
        match self.written {
            Ok(()) => Ok(()),
            Err(_) => Err(fmt::Error),
        }
    }
}

// Bytes as hex digits, a blank before each.
#[derive(Clone, Copy)]
pub struct Bytes<'a>(pub &'a [u8]);

impl<'a> Bytes<'a> {
    // The first so many of some bytes: all, where there are fewer.
    pub fn first(count: usize, some: &'a [u8]) -> Self {
        Bytes(some.get(..count).unwrap_or(some))
    }
}

// A digit of a byte as text.
fn glyph(digit: u8) -> u8
    requires { digit < 16 }
{
    if digit < 10 {
        b'0' + digit
    } else {
        b'A' + (digit - 10)
    }
}

const BLANKS: &str = "                                ";

// So many bytes at a time become one text: by `{:02X}` each took three times as long.
const PART: usize = 64;

// Puts the bytes of a part as text, and answers how long that is.
fn put_part(part: &[u8], text: &mut [u8; 192]) -> usize
    requires { length part.now ≤ 64 }
    ensures { result ≤ 192 }
{
    for i in 0..part.len() {
        text[3 * i] = b' ';
        text[3 * i + 1] = glyph(part[i] / 16);
        text[3 * i + 2] = glyph(part[i] % 16);
    }
    3 * part.len()
}

impl<'a> fmt::Display for Bytes<'a> {
    fn fmt<W: Write>(&self, f: &mut fmt::Formatter<W>) -> fmt::Result {
        for part in self.0.chunks(PART) {
            let mut text = [0u8; 192];
            let length = put_part(part, &mut text);
            f.write_str(str::from_utf8(&text[..length]).unwrap_or(""))?;
        }
        Ok(())
    }
}

// Text in a column so wide, 32 at the most: blanks follow. `{:<n}` writes them one by one.
pub fn write_column(out: &mut impl Write, text: &str, width: usize) -> fmt::Result {
    out.write_str(text)?;
    match BLANKS.get(text.len()..width) {
        Some(blanks) => out.write_str(blanks),
        None => Ok(()),
    }
}

// A file's name, which need not be text: one that is none is told as its bytes.
#[derive(Clone, Copy)]
pub struct Name<'a>(pub &'a [u8]);

impl<'a> fmt::Display for Name<'a> {
    fn fmt<W: Write>(&self, f: &mut fmt::Formatter<W>) -> fmt::Result {
        match str::from_utf8(self.0) {
            Ok(text) => f.write_str(text),
            Err(_) => {
                let bytes = Bytes(self.0);
                write!(f, "{bytes}")
            }
        }
    }
}

// A number, and what there are so many of: one word for one, another for none or more.
#[derive(Clone, Copy)]
pub struct Count<'a>(pub u64, pub &'a str, pub &'a str);

impl<'a> fmt::Display for Count<'a> {
    fn fmt<W: Write>(&self, f: &mut fmt::Formatter<W>) -> fmt::Result {
        let number = self.0;
        let word = if number == 1 { self.1 } else { self.2 };
        write!(f, "{number} {word}")
    }
}

// A line on standard error: what failed, and the system's words for why. What failed is bytes, since a file's name need not be text.
pub fn tell_failure(err: &impl Print, what: &[u8], error: io::Error) {
    let told = InlineText::<160>::of(error);
    let text = told.as_str();
    let reason = match text.split_once(" (os error ") {
        Some((words, _number)) => words,
        None => text,
    };
    let _ = err.write_all(what);
    let _ = err.write_all(b": ");
    let _ = err.write_all(reason.as_bytes());
    let _ = err.write_all(b"\n");
}
