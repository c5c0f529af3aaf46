// The C interface of lessons (include/max3420e.h): a function promises what the inner one does, its answer flattened. It is an archive of
// its own, as that of the classroom: the calls on a chip alone stay inlined in libcapi.a (docs/BENCHMARK.md).
#![tactic(auto)]

ghost use Rattle.std.specs.Prelude.{◌≡◌, length};
ghost use Rattle.refusal.specs.Check.{tells};
ghost use Rattle.lesson.specs.Read.{lesson_of};
ghost use Rattle.lesson.specs.Ticks.{elapsed_ticks};
ghost use Rattle.lesson_writer.specs.Parts.{writer_reply, writer_buffer};
ghost use Rattle.replay.specs.Replay.{replay_count, replay_answer, replay_buffer};
ghost use Rattle.capi_lesson.specs.Answer.{lesson_answer, flat_check, flat_writer, flat_replay};

use chip::Chip;
use flat::pin_number;
use lesson::Lesson;
use refusal::Refusal;

// What the check and the writer hand back.
#[repr(C)]
#[derive(Clone, Copy)]
pub struct FlatLessonAnswer {
    pub refusal: u8,
    pub found: usize,
    pub count: usize,
}

// What a replay hands back.
#[repr(C)]
#[derive(Clone, Copy)]
pub struct FlatReplayAnswer {
    pub chip: Chip,
    pub refusal: u8,
    pub pin: u8,
    pub found: usize,
    pub count: usize,
}

// A reply's numbers.
fn reply_numbers(reply: Result<usize, Refusal>) -> FlatLessonAnswer
    ensures { result ≡ lesson_answer (tells reply) (replay_count reply) }
{
    match reply {
        Err(refusal) => FlatLessonAnswer {
            refusal: refusal.number(),
            found: refusal.found(),
            count: 0,
        },
        Ok(count) => FlatLessonAnswer {
            refusal: 0,
            found: 0,
            count,
        },
    }
}

pub fn max3420e_check_lesson(file: &[u8]) -> FlatLessonAnswer
    ensures { result ≡ flat_check (lesson_of file.now) }
{
    reply_numbers(Lesson::new(file).map(|lesson| lesson.len()))
}

pub fn max3420e_write_lesson(
    kinds: &[u8],
    ticks: &[u32],
    lengths: &[u16],
    bodies: &[u8],
    file: &mut [u8],
) -> FlatLessonAnswer
    ensures { (result ≡ flat_writer (writer_reply kinds.now ticks.now lengths.now bodies.now
        (length file.old)))
        × (file.new
        ≡ writer_buffer kinds.now ticks.now lengths.now bodies.now file.old) }
{
    reply_numbers(lesson_writer::write(kinds, ticks, lengths, bodies, file))
}

pub fn max3420e_replay(file: &[u8], output: &mut [u8]) -> FlatReplayAnswer
    ensures { (result ≡ flat_replay (replay_answer file.now (length output.old)))
        × (output.new ≡ replay_buffer file.now output.old) }
{
    let answer = replay::replay(file, output);
    let n = reply_numbers(answer.reply);
    FlatReplayAnswer {
        chip: answer.state,
        refusal: n.refusal,
        pin: pin_number(answer.pin),
        found: n.found,
        count: n.count,
    }
}

// The ticks from one to another.
pub fn max3420e_elapsed(from: u32, to: u32) -> u32
    ensures { result ≡ elapsed_ticks from to }
{
    lesson::elapsed(from, to)
}
