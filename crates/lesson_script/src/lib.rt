// A line of the script of a lesson: a call of the chip, as a line of the console, or the tick of the next one.
#![tactic(auto)]

ghost use Rattle.std.specs.Prelude.{◌≡◌, ◌≤◌, length, IfOk, IfSome};
ghost use Rattle.lesson_script.specs.Line.{line_count, exact, tick_of};
ghost use Rattle.script.specs.Reader.{left};

use numerals::Growth;
use script::{Command, Expected, Fault, Reader};

#[derive(Clone, Copy)]
pub enum Line {
    Tick(u32),
    Call(Command),
}

impl Line {
    pub fn count(self) -> usize
        ensures { result ≡ line_count self }
    {
        match self {
            Line::Tick(_) => 0,
            Line::Call(command) => command.count(),
        }
    }
}

// A number is one of 32 bits, or none.
struct Exact;

impl Growth for Exact {
    ghost taken = { exact };

    fn take(number: u32, digit: u32, base: u32) -> Option<u32> {
        number.checked_mul(base)?.checked_add(digit)
    }
}

// A decimal number of 32 bits.
fn read_number(word: &[u8]) -> Option<u32>
    ensures { result ≡ tick_of word.now }
{
    numerals::read_digits::<Exact>(word, 10)
}

fn read_tick<'a>(mut reader: Reader<'a>) -> Result<Line, Fault<'a>>
    ensures { IfOk result (λ line. line_count line ≡ 0) }
{
    let tick = reader.read(Expected::Tick, read_number)?;
    reader.end()?;
    Ok(Line::Tick(tick))
}

// What a line asks for, without its line end. The bytes that it names go to a lent buffer, as long as the line at least.
pub fn parse<'a>(line: &'a [u8], bytes: &mut [u8]) -> Result<Option<Line>, Fault<'a>>
    requires { length line.now ≤ length bytes.old }
    ensures { IfOk result (λ asked. IfSome asked (λ line. line_count line ≤ length bytes.old)) }
{
    let mut reader = Reader::new(words::content(line));
    let Some(word) = reader.word() else {
        return Ok(None);
    };
    let asked = match word {
        b"tick" => read_tick(reader)?,
        _ => Line::Call(script::read_call(word, reader, Expected::Entry, bytes)?),
    };
    Ok(Some(asked))
}
