// A line of a classroom becomes an order of the teacher, or a line at a desk.
#![tactic(auto)]

ghost use Rattle.std.specs.Prelude.{◌≡◌, [], ◌≤◌, ltb, length, IfOk, IfSome};
ghost use Rattle.classroom_record.specs.Record.{is_desk};
ghost use Rattle.classroom_script.specs.Place.{desk_line};
ghost use Rattle.script.specs.Reader.{left};

use classroom_record::DeskNumber;
use script::{Expected, Fault, Reader};

// What a line asks for.
#[derive(Clone, Copy)]
pub enum ClassroomCommand<'a> {
    Open(DeskNumber, u32),
    Close(DeskNumber),
    Desks,
    Help,
    // At a desk, with a key, the line that is left.
    Call(DeskNumber, u32, &'a [u8]),
}

// The number of a desk. One that no desk has stays such a number.
fn desk_number(number: u32) -> DeskNumber
    ensures { is_desk result ≡ ltb number 16 }
{
    DeskNumber(u8::try_from(number).unwrap_or(255))
}

fn read_open<'a>(reader: &mut Reader<'a>) -> Result<ClassroomCommand<'a>, Fault<'a>>
    ensures { IfOk result (λ order. desk_line order ≡ []) }
{
    let number = reader.number(Expected::Desk)?;
    let key = reader.key(Expected::Key)?;
    Ok(ClassroomCommand::Open(desk_number(number), key))
}

fn read_close<'a>(reader: &mut Reader<'a>) -> Result<ClassroomCommand<'a>, Fault<'a>>
    ensures { IfOk result (λ order. desk_line order ≡ []) }
{
    let number = reader.number(Expected::Desk)?;
    Ok(ClassroomCommand::Close(desk_number(number)))
}

// The desk is the first word, and the key the next.
fn read_call<'a>(mut reader: Reader<'a>) -> Result<ClassroomCommand<'a>, Fault<'a>>
    ensures { IfOk result (λ order. length (desk_line order) ≤ length (left reader.entry)) }
{
    let number = reader.number(Expected::Order)?;
    let key = reader.key(Expected::Key)?;
    Ok(ClassroomCommand::Call(desk_number(number), key, reader.words.rest))
}

// What a line asks for, without its comment and its line end. Nothing is asked for where no word stands.
pub fn parse_order<'a>(line: &'a [u8]) -> Result<Option<ClassroomCommand<'a>>, Fault<'a>>
    ensures { IfOk result (λ asked. IfSome asked (λ order. length (desk_line order) ≤ length line.now)) }
{
    let mut reader = Reader::new(line);
    let Some(word) = reader.word() else {
        return Ok(None);
    };
    let order = match word {
        b"open" => read_open(&mut reader)?,
        b"close" => read_close(&mut reader)?,
        b"desks" => ClassroomCommand::Desks,
        b"help" => ClassroomCommand::Help,
        _ => return Ok(Some(read_call(Reader::new(line))?)),
    };
    reader.end()?;
    Ok(Some(order))
}
