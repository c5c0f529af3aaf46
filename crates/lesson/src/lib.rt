// The file of a lesson (document 02, Ask 5): whether it is one, its entries, and the time between two of them.
#![tactic(auto)]

ghost use Rattle.std.specs.Prelude.{◌≡◌, Ok, List, get_or, ◌+◌, ◌<◌, ◌≤◌, length, drop};
ghost use Rattle.std.specs.Iterator.{YieldsFirstBy, item_count};
ghost use Rattle.lesson.specs.Lesson.{LessonEntry, is_kind, table_end, file_of};
ghost use Rattle.lesson.specs.Ticks.{elapsed_ticks};
ghost use Rattle.lesson.specs.Read.{read_from, lesson_of, entries_of, reading_checked, row_fits, entry_at, Located, OfLesson};

use refusal::Refusal;
use std::marker::Model;

pub const VERSION: u8 = 1;

// The entries of a lesson, and the bytes of its file, at most.
pub const ENTRIES: usize = 255;

pub const SIZE: usize = 65536;

// The bytes of an entry in the table.
pub const ROW: usize = 11;

// What the call of an entry is.
#[derive(Clone, Copy, Debug, PartialEq, Eq)]
pub enum EntryKind {
    Transfer,
    Event,
}

// A byte that is no kind of entry.
#[derive(Clone, Copy, Debug, PartialEq, Eq)]
pub struct UnknownKind(pub u8);

impl TryFrom<u8> for EntryKind {
    type Error = UnknownKind;

    ghost use Rattle.lesson.specs.Kind.{Names};

    ghost try_from_gives = { Names };

    fn try_from(number: u8) -> Result<Self, UnknownKind> {
        match number {
            1 => Ok(EntryKind::Transfer),
            2 => Ok(EntryKind::Event),
            _ => Err(UnknownKind(number)),
        }
    }
}

// Whether a byte is a kind of entry.
pub fn is_kind(number: u8) -> bool
    ensures { result ≡ is_kind number }
{
    EntryKind::try_from(number).is_ok()
}

// The row at a place has a kind that is one, and its body is where it must be.
fn row_fits(file: &[u8], place: usize, offset: usize) -> bool
    requires { place + 11 ≤ length file.now }
    ensures { result ≡ row_fits offset (drop place file.now) }
{
    let found = little_endian::read_u32(file, place + 5) as usize;
    is_kind(file[place]) && found == offset
}

// The table of n entries, and the file's end. Each offset follows from the one before.
fn check_table(file: &[u8], n: usize) -> Result<(), Refusal>
    requires { (2 ≤ length file.now) × (n ≤ 255) }
    ensures { result ≡ reading_checked (read_from n 0 (table_end n) file.now (drop 2 file.now)) }
{
    let mut offset = 2 + ROW * n;
    for i in 0..n {
        let place = 2 + ROW * i;
        if file.len() < place + ROW || !row_fits(file, place, offset) {
            return Err(Refusal::NoLesson(i));
        }
        offset += little_endian::read_u16(file, place + 9) as usize;
    }
    if offset == file.len() {
        Ok(())
    } else {
        Err(Refusal::NoLesson(n))
    }
}

// Whether a file is that of a lesson.
#[tactic(auto, unfolding(crate::specs::Read::lesson_of))]
pub fn check(file: &[u8]) -> Result<(), Refusal>
    ensures { result ≡ reading_checked (lesson_of file.now) }
{
    match file {
        [VERSION, n, ..] if file.len() <= SIZE => check_table(file, *n as usize),
        _ => Err(Refusal::NoLesson(0)),
    }
}

// ---- the entries of a file that is a lesson's: `entry_is` says where they are; for callers that hold the file, else `Lesson` below

// How many there are.
pub fn entry_count(file: &[u8]) -> usize
    requires { reading_checked (lesson_of file.now) ≡ Ok tt }
    ensures { (result ≡ length (entries_of (lesson_of file.now))) × (result ≤ 255) }
{
    file[1] as usize
}

pub fn kind_at(file: &[u8], i: usize) -> u8
    requires { Located file.now i }
    ensures { result ≡ (entry_at file.now i).kind }
{
    file[2 + ROW * i]
}

pub fn tick_at(file: &[u8], i: usize) -> u32
    requires { Located file.now i }
    ensures { result ≡ (entry_at file.now i).tick }
{
    little_endian::read_u32(file, 2 + ROW * i + 1)
}

// The body, as a part of the file.
pub fn body_at(file: &[u8], i: usize) -> &[u8]
    requires { Located file.now i }
    ensures { result.now ≡ (entry_at file.now i).body }
{
    let place = 2 + ROW * i;
    let start = little_endian::read_u32(file, place + 5) as usize;
    let end = start + (little_endian::read_u16(file, place + 9) as usize);
    &file[start..end]
}

// ---- a lesson

// An entry, its body lent by the lesson's file.
#[derive(Clone, Copy)]
pub struct Entry<'a> {
    pub kind: EntryKind,
    pub tick: u32,
    pub body: &'a [u8],
}

// A file that is a lesson's, seen as the entries.
#[derive(Drop)]
pub struct Lesson<'a> {
    file: &'a [u8],
}

impl<'a> Model for Lesson<'a> {
    ghost Value = { List LessonEntry };

    ghost view = { λ l. entries_of (lesson_of l.file.now) };

    ghost invariant = { λ l. OfLesson l.file.now };
}

impl<'a> Lesson<'a> {
    ghost use Rattle.lesson.specs.Kind.{entry_told, lesson_read};

    // The lesson of a file, or why it is none (`check`).
    pub fn new(file: &'a [u8]) -> Result<Self, Refusal>
        ensures { result ≡ lesson_read (lesson_of file.now) }
    {
        check(file)?;
        Ok(Lesson { file })
    }

    // How many entries it has.
    pub fn len(&self) -> usize
        ensures { (result ≡ length self.now) × (result ≤ 255) }
    {
        entry_count(self.file)
    }

    // How many bytes its file has.
    pub fn size(&self) -> usize
        ensures { (result ≡ length (file_of self.now)) × (result ≤ 65536) }
    {
        self.file.len()
    }

    pub fn entry(&self, i: usize) -> Entry<'a>
        requires { i < length self.now }
        ensures { (none : LessonEntry) → get_or self.now i none ≡ entry_told result }
    {
        let file = self.file;
        let kind = if kind_at(file, i) == 1 {
            EntryKind::Transfer
        } else {
            EntryKind::Event
        };
        Entry {
            kind,
            tick: tick_at(file, i),
            body: body_at(file, i),
        }
    }

    pub fn entries<'l>(&'l self) -> Entries<'l, 'a>
        ensures { (result.lesson.now ≡ self.now) × (result.next ≡ 0) }
    {
        Entries {
            lesson: self,
            next: 0,
        }
    }
}

// The entries of a lesson, in order, from one on.
#[derive(Drop)]
pub struct Entries<'l, 'a> {
    lesson: &'l Lesson<'a>,
    next: usize,
}

impl<'l, 'a> Iterator for Entries<'l, 'a> {
    type Item = Entry<'a>;

    ghost use Rattle.lesson.specs.Kind.{entry_told};

    ghost next_gives = { YieldsFirstBy entry_told (λ s. drop s.next s.lesson.now) };

    ghost remaining = { item_count (λ s. drop s.next s.lesson.now) };

    fn next(&mut self) -> Option<Entry<'a>> {
        if self.lesson.len() <= self.next {
            return None;
        }
        let entry = self.lesson.entry(self.next);
        self.next += 1;
        Some(entry)
    }
}

// The ticks from one to another: their difference modulo 2 to the 32.
pub fn elapsed(from: u32, to: u32) -> u32
    ensures { result ≡ elapsed_ticks from to }
{
    to.wrapping_sub(from)
}
