// Writes the file of a lesson (document 02, Ask 5). The lesson is lent in parts: the entries' kinds, ticks and body lengths, and the bodies
// one after the other. These are slices side by side, and kinds are bytes, since C lends them so (max3420e_write_lesson).
#![tactic(auto)]

ghost use Rattle.std.specs.Prelude.{◌≡◌, ◌+◌, ◌≤◌, length};
ghost use Rattle.std.proofs.lemmas.List.Edits.{sets};
ghost use Rattle.lesson.specs.Lesson.{row, file_of};
ghost use Rattle.lesson_writer.specs.Parts.{lesson_from, rows, total, all_kinds, has_file, writer_reply, writer_buffer};
ghost use Rattle.lesson_writer.specs.Room.{TableRoom, FileRoom};

use lesson::{ENTRIES, ROW, SIZE, VERSION};
use refusal::Refusal;

fn put_row(file: &mut [u8], place: usize, kind: u8, tick: u32, offset: u32, size: u16)
    requires { place + 11 ≤ length file.old }
    ensures { file.new ≡ sets file.old place (row kind tick offset size) }
{
    file[place] = kind;
    little_endian::put_u32(file, place + 1, tick);
    little_endian::put_u32(file, place + 5, offset);
    little_endian::put_u16(file, place + 9, size);
}

// The table, the first body at the given offset. A row's place needs its index, by which its tick and its length are found too.
fn put_table(kinds: &[u8], ticks: &[u32], lengths: &[u16], start: usize, file: &mut [u8])
    requires { TableRoom kinds.now ticks.now lengths.now start file.old }
    ensures { file.new
        ≡ sets file.old 2 (rows start kinds.now ticks.now lengths.now) }
{
    let mut offset = start;
    for (i, kind) in kinds.iter().enumerate() {
        put_row(
            file,
            2 + ROW * i,
            *kind,
            ticks[i],
            offset as u32,
            lengths[i],
        );
        offset += lengths[i] as usize;
    }
}

fn all_kinds(kinds: &[u8]) -> bool
    ensures { result ≡ all_kinds kinds.now }
{
    kinds.iter().all(|kind| lesson::is_kind(*kind))
}

fn sum(lengths: &[u16]) -> usize
    requires { length lengths.now ≤ 255 }
    ensures { result ≡ total lengths.now }
{
    lengths.iter().map(|size| *size as usize).sum()
}

#[tactic(auto, unfolding(crate::specs::Parts::has_file))]
fn has_file(kinds: &[u8], ticks: &[u32], lengths: &[u16], bodies: &[u8]) -> bool
    ensures { result ≡ has_file kinds.now ticks.now lengths.now bodies.now }
{
    let n = kinds.len();
    n <= ENTRIES
        && 2 + ROW * n + bodies.len() <= SIZE
        && ticks.len() == n
        && lengths.len() == n
        && sum(lengths) == bodies.len()
        && all_kinds(kinds)
}

// The whole file, at the start of the buffer.
fn put_file(kinds: &[u8], ticks: &[u32], lengths: &[u16], bodies: &[u8], file: &mut [u8])
    requires { FileRoom kinds.now ticks.now lengths.now bodies.now file.old }
    ensures { file.new
        ≡ sets file.old 0
        (file_of (lesson_from kinds.now ticks.now lengths.now bodies.now)) }
{
    let n = kinds.len();
    let start = 2 + ROW * n;
    file[0] = VERSION;
    file[1] = n as u8;
    put_table(kinds, ticks, lengths, start, file);
    little_endian::put_bytes(file, start, bodies);
}

pub fn write(
    kinds: &[u8],
    ticks: &[u32],
    lengths: &[u16],
    bodies: &[u8],
    file: &mut [u8],
) -> Result<usize, Refusal>
    ensures { (result ≡ writer_reply kinds.now ticks.now lengths.now bodies.now
        (length file.old))
        × (file.new
        ≡ writer_buffer kinds.now ticks.now lengths.now bodies.now file.old) }
{
    if !has_file(kinds, ticks, lengths, bodies) {
        return Err(Refusal::NoLesson(0));
    }
    let size = 2 + ROW * kinds.len() + bodies.len();
    if file.len() < size {
        return Err(Refusal::ShortBuffer);
    }
    put_file(kinds, ticks, lengths, bodies, file);
    Ok(size)
}
