// A lesson played as text: a line for each entry, with its number, its tick and what the call is answered, then a summary.
#![tactic(auto)]

ghost use Rattle.std.specs.Prelude.{◌≡◌, IfSome, IfNone};
ghost use Rattle.lesson.specs.Ticks.{elapsed_ticks};

use answers::{Answer, Reply};
use chip::{CallAnswer, Chip};
use lesson::{Entry, EntryKind, Lesson};
use output::{Count, Name};
use std::fmt;
use std::fmt::Write;

// What the entries played so far leave.
#[derive(Clone, Copy)]
struct Run {
    chip: Chip,
    // The tick of the last of them, and the ticks since the first: those between each and the next, added up.
    tick: Option<u32>,
    ticks: u64,
    // How many were refused.
    refused: u64,
}

// The ticks since the entry before, modulo 2 to the 32: none at the first.
fn since(before: Option<u32>, tick: u32) -> u32
    ensures first { IfNone before (result ≡ 0) }
    ensures next { IfSome before (λ last. result ≡ elapsed_ticks last tick) }
{
    match before {
        None => 0,
        Some(last) => lesson::elapsed(last, tick),
    }
}

impl Run {
    fn power_on() -> Self {
        Run {
            chip: Chip::power_on(),
            tick: None,
            ticks: 0,
            refused: 0,
        }
    }

    // Keeps what a call leaves, and puts what it is answered.
    fn finish<R: Reply + Copy>(
        &mut self,
        call: CallAnswer<Chip, R>,
        reply: &[u8],
        out: &mut impl Write,
    ) -> fmt::Result {
        self.chip = call.state;
        if call.reply.is_err() {
            self.refused = self.refused.wrapping_add(1);
        }
        let answer = Answer {
            call: &call,
            bytes: reply,
        };
        writeln!(out, "{answer}")
    }

    // Makes the call of an entry, its reply in the lent bytes.
    fn play(
        &mut self,
        number: usize,
        entry: Entry,
        reply: &mut [u8],
        out: &mut impl Write,
    ) -> fmt::Result {
        let tick = entry.tick;
        let since = since(self.tick, tick);
        self.tick = Some(tick);
        // At most 255 times 2 to the 32: it never wraps.
        self.ticks = self.ticks.wrapping_add(u64::from(since));
        write!(out, "{number} tick {tick} +{since} ")?;
        match entry.kind {
            EntryKind::Transfer => {
                let call = spi::transfer(self.chip, entry.body, reply);
                self.finish(call, reply, out)
            }
            EntryKind::Event => {
                let event = event_body::event_of(entry.body);
                let payload = event_body::payload_of(entry.body);
                let call = bus::event(self.chip, event, payload, reply);
                self.finish(call, reply, out)
            }
        }
    }
}

// The summary of a lesson that is recorded in a file of that name: the bytes of the file.
pub fn write_recorded(
    path: &[u8],
    entries: usize,
    size: usize,
    out: &mut impl Write,
) -> fmt::Result {
    let entries = Count(entries as u64, "entry", "entries");
    let bytes = Count(size as u64, "byte", "bytes");
    let name = Name(path);
    writeln!(out, "{name}: {entries}, {bytes}")
}

// Plays a lesson, the file of that name: the calls of all entries one by one from power-on, each lent 4,096 bytes. The summary tells how
// many entries were refused, and the ticks.
pub fn play(path: &[u8], lesson: &Lesson, out: &mut impl Write) -> fmt::Result {
    let mut reply = [0u8; 4096];
    let mut run = Run::power_on();
    // Not `enumerate`: that its count has room for every list of entries was not proved.
    for (number, entry) in (0..lesson.len()).zip(lesson.entries()) {
        run.play(number, entry, &mut reply, out)?;
    }
    let entries = Count(lesson.len() as u64, "entry", "entries");
    let refused = run.refused;
    let ticks = Count(run.ticks, "tick", "ticks");
    let name = Name(path);
    writeln!(out, "{name}: {entries}, {refused} refused, {ticks}")
}
