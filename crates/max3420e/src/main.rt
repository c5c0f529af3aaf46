// The console, or the console of a classroom, on a file that is named or on standard input; or a lesson that is played or recorded:
// `max3420e [FILE]`, `max3420e classroom [FILE]`, `max3420e replay FILE`, `max3420e record SCRIPT FILE`.
#![tactic(auto)]

ghost use Rattle.std.specs.Prelude.{◌≤◌, length};

use console::Console;
use files::Told;
use output::Output;
use roster::Roster;
use session::Session;
use std::env::FillError;
use std::fmt::Write;
use std::io::{IsTerminal, Read};
use std::process::ExitCode;
use std::rt::{Env, Files};
use std::{fmt, io};

// The system's number for a name that is too long.
const NAME_TOO_LONG: i32 = 36;

const USAGE: &str = "max3420e: one file at most: max3420e [FILE], or max3420e classroom [FILE]; \
    a lesson: max3420e replay FILE, or max3420e record SCRIPT FILE; \
    a file called classroom, replay or record is ./classroom, ./replay or ./record\n";

// What takes the lines that are typed, and answers them.
trait Listener: Drop {
    // What is said before the first line, where a person types.
    const GREETING: &'static str;

    // The lent bytes are for what the line names.
    fn take_line<W: fmt::Write>(
        &mut self,
        number: u64,
        line: &[u8],
        bytes: &mut [u8],
        out: &mut W,
    ) -> fmt::Result
        requires { length line.now ≤ length bytes.old };
}

impl Listener for Console {
    const GREETING: &'static str = messages::GREETING;

    fn take_line<W: fmt::Write>(
        &mut self,
        number: u64,
        line: &[u8],
        bytes: &mut [u8],
        out: &mut W,
    ) -> fmt::Result {
        self.take_line(number, line, bytes, out)
    }
}

impl Listener for Roster {
    const GREETING: &'static str = messages::CLASSROOM_GREETING;

    fn take_line<W: fmt::Write>(
        &mut self,
        number: u64,
        line: &[u8],
        bytes: &mut [u8],
        out: &mut W,
    ) -> fmt::Result {
        classroom_console::take_line(self, number, line, bytes, out)
    }
}

// Takes the lines of an input to its end. What waits on the page is written before each read, so that who types sees it. A proved loop
// has to end, and nothing says that a file does: no run uses its turns up.
fn run<L: Listener>(
    rt: &impl Print,
    err: &impl Print,
    mut listener: L,
    input: &mut impl Read,
    path: &str,
    typed: bool,
) -> Result<(), Told> {
    let mut bytes = [0u8; 16384];
    let mut out: Output<_, 65536> = Output::new(rt);
    let mut session = Session::begin();
    let mut read = Ok(());
    if typed {
        let _ = out.write_str(L::GREETING);
    }
    for _ in 0..u64::MAX {
        if let Some(line) = session.line() {
            let number = line.number;
            let _ = match line.text {
                Ok(text) => listener.take_line(number, text, &mut bytes, &mut out),
                Err(long) => writeln!(out, "{number} error: {long}"),
            };
            continue;
        }
        files::finish(err, &mut out)?;
        match session.read(input) {
            Some(Ok(())) => {}
            Some(Err(error)) => read = Err(files::fail_read(err, path, error)),
            None => break,
        }
    }
    read
}

// Whether there is such an argument.
fn is_given(rt: &impl Env, place: usize) -> bool {
    !matches!(rt.arg(place, &mut [0u8; 1]), Err(FillError::NotPresent))
}

// The argument at a place, a file's name. The only thing that can be wrong with one that is there is its length.
fn name_at<'a>(
    rt: &impl Env,
    err: &impl Print,
    place: usize,
    room: &'a mut [u8; 4096],
) -> Result<&'a [u8], Told> {
    match rt.arg(place, room) {
        Ok(length) => Ok(&room[..length]),
        Err(_) => {
            let error = io::Error::from_raw_os_error(NAME_TOO_LONG);
            output::tell_failure(err, b"max3420e: the file's name", error);
            Err(Told)
        }
    }
}

fn run_typed(
    rt: &(impl Input + Print),
    err: &impl Print,
    listener: impl Listener,
    typed: bool,
) -> Result<(), Told> {
    let mut input = rt.reader();
    run(rt, err, listener, &mut input, "standard input", typed)
}

// Runs on the file that an argument names.
fn run_file(
    rt: &(impl Env + Files + Print),
    err: &impl Print,
    listener: impl Listener,
    place: usize,
) -> Result<(), Told> {
    let mut room = [0u8; 4096];
    let path = name_at(rt, err, place, &mut room)?;
    let (path, mut input) = files::open(rt, err, path)?;
    run(rt, err, listener, &mut input, path, false)
}

fn replay(rt: &(impl Env + Files + Print), err: &impl Print) -> Result<(), Told> {
    let mut room = [0u8; 4096];
    let path = name_at(rt, err, 2, &mut room)?;
    lesson_files::replay(rt, err, path)
}

fn record(rt: &(impl Env + Files + Print), err: &impl Print) -> Result<(), Told> {
    let mut script = [0u8; 4096];
    let mut room = [0u8; 4096];
    let script = name_at(rt, err, 2, &mut script)?;
    let path = name_at(rt, err, 3, &mut room)?;
    lesson_files::record(rt, err, script, path)
}

// Does what the arguments ask for: the first says what, the program's name and five at most are counted.
fn start(
    rt: &(impl Env + Files + Input + Print),
    err: &impl Print,
    typed: bool,
) -> Result<(), Told> {
    let count = (0..5).take_while(|place| is_given(rt, *place)).count();
    let mut word = [0u8; 4096];
    let length = rt.arg(1, &mut word).unwrap_or(0);
    match (&word[..length], count) {
        (b"replay", 3) => replay(rt, err),
        (b"record", 4) => record(rt, err),
        (b"classroom", 2) => run_typed(rt, err, Roster::start(), typed),
        (b"classroom", 3) => run_file(rt, err, Roster::start(), 2),
        (b"replay" | b"record" | b"classroom", _) | (_, 3..) => { Err(files::tell(err, USAGE)) }
        (_, 2) => run_file(rt, err, Console::power_on(), 1),
        (_, _) => run_typed(rt, err, Console::power_on(), typed),
    }
}

// The status is 1 where something that was to be read or written was not.
fn main(rt: HostRuntime) -> ExitCode {
    let typed = rt.stdin().is_terminal();
    let err = rt.stderr();
    match start(&rt, &err, typed) {
        Ok(()) => ExitCode::SUCCESS,
        Err(Told) => ExitCode::FAILURE,
    }
}
