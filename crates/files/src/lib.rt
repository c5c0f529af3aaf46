// Files: opened, read to the end, written anew; and the end of what goes to standard output. What fails is told on standard error.
#![tactic(auto)]

ghost use Rattle.std.specs.Prelude.{◌≤◌, length, IfOk};

use output::Output;
use std::fmt::Display;
use std::fs::OpenFile;
use std::io::{ErrorKind, Write};
use std::rt::Files;
use std::{fmt, fs, io, str};

// Something failed, and why stands on standard error already.
#[derive(Clone, Copy)]
pub struct Told;

// By one write, so that lines of programs that run side by side stay whole.
pub fn tell<D: Display + Drop>(err: &impl Print, text: D) -> Told {
    let mut out: Output<_, 65536> = Output::new(err);
    let _ = fmt::Write::write_fmt(&mut out, format_args!("{text}"));
    let _ = out.flush();
    Told
}

// Tells what cannot be done, which file it is, and why.
pub fn fail(err: &impl Print, what: &str, path: &[u8], error: io::Error) -> Told {
    let _ = err.print(what);
    output::tell_failure(err, path, error);
    Told
}

// A read failed.
pub fn fail_read(err: &impl Print, path: &str, error: io::Error) -> Told {
    fail(err, "max3420e: cannot read ", path.as_bytes(), error)
}

// A file's name as text: the library takes no other.
fn name(path: &[u8]) -> io::Result<&str> {
    str::from_utf8(path).map_err(|_| io::Error::from(ErrorKind::InvalidFilename))
}

fn open_to_read<'a, R: Files>(rt: &R, path: &'a [u8]) -> io::Result<(&'a str, R::File)> {
    let name = name(path)?;
    Ok((name, fs::open(rt, name)?))
}

// A file to read, and its name.
pub fn open<'a, R: Files>(
    rt: &R,
    err: &impl Print,
    path: &'a [u8],
) -> Result<(&'a str, R::File), Told> {
    open_to_read(rt, path).map_err(|error| fail(err, "max3420e: cannot open ", path, error))
}

// Reads a file to its end, or as much as there is room for: how much that is. The loop is by hand, since std's read_to_end fills a Vec.
pub fn read_whole(input: &mut impl io::Read, file: &mut [u8]) -> io::Result<usize>
    ensures { IfOk result (λ filled. filled ≤ length file.old) }
{
    let mut filled: usize = 0;
    while filled < file.len() {
        let count = input.read(&mut file[filled..])?;
        if count == 0 {
            break;
        }
        filled += count;
    }
    Ok(filled)
}

// Waits until a file is where it is kept, since what fails as it is closed is not told. A pipe or a device is not waited for.
fn settle(file: &impl OpenFile) -> io::Result<()> {
    match file.sync_all() {
        Err(error)
            if matches!(
                error.kind(),
                ErrorKind::InvalidInput | ErrorKind::Unsupported
            ) => { Ok(()) }
        settled => settled,
    }
}

fn write_anew<'a>(rt: &impl Files, path: &'a [u8], bytes: &[u8]) -> io::Result<&'a str> {
    let name = name(path)?;
    let mut file = fs::create(rt, name)?;
    file.write_all(bytes)?;
    settle(&file)?;
    Ok(name)
}

// Writes a file in place of what it had, and answers with its name.
pub fn overwrite<'a>(
    rt: &impl Files,
    err: &impl Print,
    path: &'a [u8],
    bytes: &[u8],
) -> Result<&'a str, Told> {
    write_anew(rt, path, bytes).map_err(|error| fail(err, "max3420e: cannot write ", path, error))
}

// Writes what is left on the page. Only where all of the output is written that went well.
pub fn finish<P: Print, const PAGE: usize>(
    err: &impl Print,
    out: &mut Output<'_, P, PAGE>,
) -> Result<(), Told> {
    out.flush().map_err(|error| {
        output::tell_failure(err, b"max3420e: standard output", error);
        Told
    })
}
