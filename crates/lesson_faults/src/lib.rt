// Why a file is no lesson, in words. Which entry is named comes from the check of the crate lesson; what is said here explains it.
#![tactic(auto)]

ghost use Rattle.std.specs.Prelude.{◌≡◌, ◌+◌, ◌*◌, ◌≤◌, length};
ghost use Rattle.lesson.specs.Read.{offset_at};

use lesson::{ROW, SIZE};
use output::{Count, Name};
use refusal::Refusal;
use std::fmt;

// What is wrong with a file. A place is the byte where an entry starts in the table.
#[derive(Clone, Copy)]
enum Fault {
    // The file has no version.
    Short(usize),
    Long,
    Version(u8),
    // The file ends before the entry does: its size, and how many entries the table has.
    Missing(usize, u8),
    // An entry's place, and its kind that is none.
    Kind(usize, u8),
    // An entry's place, where its body is said to be, and where it must be.
    Offset(usize, u32, usize),
    // The file does not end where the table of no entries does: its size.
    Empty(usize),
    // The file does not end where the last body does: that place, and its size.
    End(usize, usize),
}

impl fmt::Display for Fault {
    fn fmt<W: fmt::Write>(&self, f: &mut fmt::Formatter<W>) -> fmt::Result {
        match *self {
            Fault::Short(size) => {
                let bytes = Count(size as u64, "byte", "bytes");
                write!(f, "the file has {bytes}, a lesson at least 2")
            }
            Fault::Long => write!(f, "the file has over {SIZE} bytes"),
            Fault::Version(version) => write!(f, "the file's version is {version}, not 1"),
            Fault::Missing(size, count) => {
                let entries = Count(u64::from(count), "entry", "entries");
                write!(
                    f,
                    "it is missing: the file ends at byte {size}, inside the table of {entries}"
                )
            }
            Fault::Kind(place, kind) => write!(f, "at byte {place} its kind is {kind}, not 1 or 2"),
            Fault::Offset(place, said, must) => write!(
                f,
                "at byte {place} its body is said to be at byte {said}, it must be at byte {must}"
            ),
            Fault::Empty(size) => write!(
                f,
                "a lesson of no entries ends at byte 2, the file at byte {size}"
            ),
            Fault::End(end, size) => write!(
                f,
                "the last body ends at byte {end}, the file at byte {size}"
            ),
        }
    }
}

// Where the body of an entry must be: after the table and the bodies before it.
fn body_place(file: &[u8], entry: usize) -> usize
    requires { (2 + 11 * entry ≤ length file.now) × (entry ≤ 255) }
    ensures { result ≡ offset_at file.now entry }
{
    let mut offset = 2 + ROW * file[1] as usize;
    for i in 0..entry {
        offset += little_endian::read_u16(file, 2 + ROW * i + 9) as usize;
    }
    offset
}

// An entry of a bad kind, or one whose body is not where it must be.
fn row_fault(file: &[u8], entry: usize) -> Fault
    requires { (2 + 11 * entry + 11 ≤ length file.now) × (entry ≤ 255) }
{
    let place = 2 + ROW * entry;
    let kind = file[place];
    if !lesson::is_kind(kind) {
        return Fault::Kind(place, kind);
    }
    Fault::Offset(
        place,
        little_endian::read_u32(file, place + 5),
        body_place(file, entry),
    )
}

// What is wrong with the table of so many entries, or with the file's end.
fn table_fault(file: &[u8], count: u8, entry: usize) -> Fault {
    let size = file.len();
    let rows = count as usize;
    if entry < rows && 2 + ROW * entry + ROW <= size {
        return row_fault(file, entry);
    }
    if entry < rows || size < 2 + ROW * rows {
        return Fault::Missing(size, count);
    }
    if count == 0 {
        return Fault::Empty(size);
    }
    Fault::End(body_place(file, rows), size)
}

// What is wrong: the file's size or version, else its table or its end.
fn fault_at(file: &[u8], entry: usize) -> Fault {
    match file {
        _ if file.len() > SIZE => Fault::Long,
        [lesson::VERSION, count, ..] => table_fault(file, *count, entry),
        [version, _, ..] => Fault::Version(*version),
        _ => Fault::Short(file.len()),
    }
}

// The refusal of a file that is no lesson: which file it is, the refusal's number, the entry that it names, and why.
#[derive(Clone, Copy)]
pub struct NoLesson<'a> {
    pub path: &'a [u8],
    pub file: &'a [u8],
    pub refusal: Refusal,
}

impl<'a> fmt::Display for NoLesson<'a> {
    fn fmt<W: fmt::Write>(&self, f: &mut fmt::Formatter<W>) -> fmt::Result {
        let name = Name(self.path);
        let number = self.refusal.number();
        let entry = self.refusal.found();
        let fault = fault_at(self.file, entry);
        writeln!(
            f,
            "{name} is no lesson: refused {number} entry {entry}: {fault}"
        )
    }
}
