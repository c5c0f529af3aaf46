// Lessons in files: a file is read and played, and one is written from a script. What fails is told on standard error.
#![tactic(auto)]

ghost use Rattle.std.specs.Prelude.{◌≤◌, length, IfOk};

use files::Told;
use lesson::Lesson;
use lesson_faults::NoLesson;
use output::Output;
use recorder::Recording;
use session::{Line, Session};
use std::fmt::Display;
use std::io::Read;
use std::rt::Files;

// Plays the lesson of a file. One byte more than a lesson has is read, so that a longer file is seen.
pub fn replay(rt: &(impl Files + Print), err: &impl Print, path: &[u8]) -> Result<(), Told> {
    let (name, mut input) = files::open(rt, err, path)?;
    let mut file = [0u8; 65537];
    let length = files::read_whole(&mut input, &mut file).map_err(|error| files::fail_read(
        err, name, error,
    ))?;
    let file = &file[..length];
    let lesson = Lesson::new(file).map_err(|refusal| {
        let why = NoLesson {
            path,
            file,
            refusal,
        };
        files::tell(err, format_args!("max3420e: {why}"))
    })?;
    let mut out: Output<_, 65536> = Output::new(rt);
    let _ = lesson_console::play(path, &lesson, &mut out);
    files::finish(err, &mut out)
}

// Says where a script is wrong, and why.
fn tell_wrong<D: Display + Drop>(err: &impl Print, script: &str, number: u64, why: D) -> Told {
    files::tell(
        err,
        format_args!("max3420e: {script} line {number}: {why}\n"),
    )
}

fn record_line(
    err: &impl Print,
    script: &str,
    line: Line<'_>,
    bytes: &mut [u8],
    recording: &mut Recording,
) -> Result<(), Told>
    requires { IfOk line.text (λ text. length text.now ≤ length bytes.old) }
{
    let number = line.number;
    match line.text {
        Ok(text) => recording
            .take_line(text, bytes)
            .map_err(|wrong| tell_wrong(err, script, number, wrong)),
        Err(long) => Err(tell_wrong(err, script, number, long)),
    }
}

// Records the lines of a script to its end, or to the first that is wrong. A proved loop has to end: no run uses its turns up.
fn record_lines(err: &impl Print, script: &str, input: &mut impl Read) -> Result<Recording, Told> {
    let mut bytes = [0u8; 16384];
    let mut session = Session::begin();
    let mut recording = Recording::begin();
    let mut read = Ok(());
    for _ in 0..u64::MAX {
        match session.line() {
            Some(line) => record_line(err, script, line, &mut bytes, &mut recording)?,
            None => match session.read(input) {
                Some(Ok(())) => {}
                Some(Err(error)) => read = Err(files::fail_read(err, script, error)),
                None => break,
            },
        }
    }
    read?;
    Ok(recording)
}

// Writes the file of a lesson, and says what was recorded. It is a lesson, so that nothing is refused.
fn write_lesson(
    rt: &(impl Files + Print),
    err: &impl Print,
    path: &[u8],
    recording: &Recording,
) -> Result<(), Told> {
    let mut file = [0u8; 65536];
    let count = recording.count;
    let kinds = &recording.kinds[..count];
    let ticks = &recording.ticks[..count];
    let lengths = &recording.lengths[..count];
    let bodies = &recording.bodies[..recording.size];
    match lesson_writer::write(kinds, ticks, lengths, bodies, &mut file) {
        Ok(size) => {
            files::overwrite(rt, err, path, &file[..size])?;
            let mut out: Output<_, 65536> = Output::new(rt);
            let _ = lesson_console::write_recorded(path, count, size, &mut out);
            files::finish(err, &mut out)
        }
        Err(_) => Err(files::tell(err, "max3420e: what was recorded is no lesson\n")),
    }
}

// Writes the lesson of a script to a file, or nothing where the script is wrong. The script stays open till then: it may be the same pipe.
pub fn record(
    rt: &(impl Files + Print),
    err: &impl Print,
    script: &[u8],
    path: &[u8],
) -> Result<(), Told> {
    let (script, mut input) = files::open(rt, err, script)?;
    let recording = record_lines(err, script, &mut input)?;
    write_lesson(rt, err, path, &recording)
}
