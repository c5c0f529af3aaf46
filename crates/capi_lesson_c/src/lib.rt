// What C programs call on lessons (include/max3420e.h): the functions of crate capi_lesson, each with the same promise, exported as a
// static library of its own, as those of the classroom.
#![tactic(auto)]

ghost use Rattle.std.specs.Prelude.{◌≡◌, length};
ghost use Rattle.lesson.specs.Read.{lesson_of};
ghost use Rattle.lesson.specs.Ticks.{elapsed_ticks};
ghost use Rattle.lesson_writer.specs.Parts.{writer_reply, writer_buffer};
ghost use Rattle.replay.specs.Replay.{replay_answer, replay_buffer};
ghost use Rattle.capi_lesson.specs.Answer.{flat_check, flat_writer, flat_replay};

use capi_lesson::{FlatLessonAnswer, FlatReplayAnswer};

#[unsafe(no_mangle)]
pub extern "C" fn max3420e_check_lesson(file: &[u8]) -> FlatLessonAnswer
    ensures { result ≡ flat_check (lesson_of file.now) }
{
    capi_lesson::max3420e_check_lesson(file)
}

#[unsafe(no_mangle)]
pub extern "C" fn max3420e_write_lesson(
    kinds: &[u8],
    ticks: &[u32],
    lengths: &[u16],
    bodies: &[u8],
    file: &mut [u8],
) -> FlatLessonAnswer
    ensures { (result ≡ flat_writer (writer_reply kinds.now ticks.now lengths.now bodies.now
        (length file.old)))
        × (file.new
        ≡ writer_buffer kinds.now ticks.now lengths.now bodies.now file.old) }
{
    capi_lesson::max3420e_write_lesson(kinds, ticks, lengths, bodies, file)
}

#[unsafe(no_mangle)]
pub extern "C" fn max3420e_replay(file: &[u8], output: &mut [u8]) -> FlatReplayAnswer
    ensures { (result ≡ flat_replay (replay_answer file.now (length output.old)))
        × (output.new ≡ replay_buffer file.now output.old) }
{
    capi_lesson::max3420e_replay(file, output)
}

#[unsafe(no_mangle)]
pub extern "C" fn max3420e_elapsed(from: u32, to: u32) -> u32
    ensures { result ≡ elapsed_ticks from to }
{
    capi_lesson::max3420e_elapsed(from, to)
}
