// Replay of a lesson (document 02, Ask 5): the calls of its entries are made one by one from power-on, and what each is answered is
// written to a lent buffer, or nothing at all if that does not fit.
#![tactic(auto)]

ghost use Rattle.std.specs.Prelude.{◌≡◌, ◌+◌, ◌≤◌, ◌<◌, length};
ghost use Rattle.std.proofs.lemmas.List.Edits.{sets};
ghost use Rattle.model.specs.Reply.{lent};
ghost use Rattle.model.specs.Call.{answer_of, buffer_after};
ghost use Rattle.rules.specs.Event.{max3420e};
ghost use Rattle.lesson.specs.Kind.{kind_number};
ghost use Rattle.replay.specs.Results.{call_with, result_with, flat_answer};
ghost use Rattle.replay.specs.Replay.{played_bytes, played_to, lesson_plays, replay_answer_with, replay_answer_of, replay_buffer_of, replay_answer, replay_buffer};

use chip::{CallAnswer, Chip};
use flat::FlatAnswer;
use lesson::{EntryKind, Lesson};
use refusal::Refusal;

// The reply is how many bytes are written.
pub type ReplayAnswer = CallAnswer<Chip, usize>;

// The bytes lent to each call.
const ROOM: usize = 4096;

// No lesson is answered with more bytes: its file has 65,536 at the most, and 68 come for each of 255 entries.
const MOST: usize = 82876;

// What the calls of a lesson leave so far: the record, and how many bytes they are answered with.
#[derive(Clone, Copy)]
struct Run {
    chip: Chip,
    size: usize,
}

// The call of an entry of that kind and body, its reply in the lent bytes.
#[tactic(auto, unfolding(flat::specs::Answer::flat_answer_of, flat::specs::Answer::flat_transfer, flat::specs::Answer::flat_event))]
fn play(chip: Chip, kind: EntryKind, body: &[u8], reply: &mut [u8]) -> FlatAnswer
    ensures { (result ≡ flat_answer chip (call_with (length reply.old) (kind_number kind) body.now))
        × (reply.new
        ≡ buffer_after (answer_of max3420e chip (call_with (length reply.old) (kind_number kind) body.now)) reply.old) }
{
    // A way of its own for each kind, so that no two ways join holding a record.
    if let EntryKind::Transfer = kind {
        return flat::flat_answer(spi::transfer(chip, body, reply));
    }
    let event = event_body::event_of(body);
    let payload = event_body::payload_of(body);
    flat::flat_answer(bus::event(chip, event, payload, reply))
}

// The result of a call, at its place.
fn put_result(output: &mut [u8], at: usize, refusal: u8, pid: u8, bytes: &[u8])
    requires { (at + (4 + length bytes.now) ≤ length output.old) × (length bytes.now < 65536) }
    ensures { output.new ≡ sets output.old at (result_with refusal pid bytes.now) }
{
    output[at] = refusal;
    output[at + 1] = pid;
    little_endian::put_u16(output, at + 2, bytes.len() as u16);
    little_endian::put_bytes(output, at + 4, bytes);
}

// Makes all calls of a lesson from power-on, and writes what they are answered.
fn play_all(lesson: &Lesson, output: &mut [u8]) -> Run
    requires { length (played_bytes lesson.now) ≤ length output.old }
    ensures { (result.chip ≡ played_to lesson.now)
        × (result.size ≡ length (played_bytes lesson.now))
        × (output.new ≡ lent (played_bytes lesson.now) output.old) }
{
    let mut reply = [0u8; ROOM];
    let mut run = Run {
        chip: Chip::power_on(),
        size: 0,
    };
    for entry in lesson.entries() {
        let answer = play(run.chip, entry.kind, entry.body, &mut reply);
        let count = answer.count as usize;
        put_result(
            output,
            run.size,
            answer.refusal,
            answer.pid,
            &reply[..count],
        );
        run.chip = answer.chip;
        run.size += 4 + count;
    }
    run
}

fn answer_with(chip: Chip, reply: Result<usize, Refusal>) -> ReplayAnswer
    ensures { result ≡ replay_answer_with chip reply }
{
    let registers = chip.registers;
    CallAnswer {
        state: chip,
        reply,
        pin: registers.pin(),
    }
}

// Plays a lesson where the room may be too short: what its calls are answered is kept until it is known to fit.
fn play_kept(lesson: &Lesson, output: &mut [u8]) -> ReplayAnswer
    requires { length (played_bytes lesson.now) ≤ MOST }
    ensures { (result ≡ replay_answer_of (lesson_plays lesson.now (length output.old)) lesson.now)
        × (output.new ≡ replay_buffer_of (lesson_plays lesson.now (length output.old)) lesson.now output.old) }
{
    let mut kept = [0u8; MOST];
    let run = play_all(lesson, &mut kept);
    let size = run.size;
    if output.len() < size {
        return answer_with(Chip::power_on(), Err(Refusal::ShortBuffer));
    }
    little_endian::put_bytes(output, 0, &kept[..size]);
    answer_with(run.chip, Ok(size))
}

fn play_lesson(lesson: &Lesson, output: &mut [u8]) -> ReplayAnswer
    ensures { (result ≡ replay_answer_of (lesson_plays lesson.now (length output.old)) lesson.now)
        × (output.new ≡ replay_buffer_of (lesson_plays lesson.now (length output.old)) lesson.now output.old) }
{
    // Room that is always enough: for each entry four bytes and a packet, and the bodies.
    if 68 * lesson.len() + lesson.size() <= output.len() {
        let run = play_all(lesson, output);
        return answer_with(run.chip, Ok(run.size));
    }
    play_kept(lesson, output)
}

pub fn replay(file: &[u8], output: &mut [u8]) -> ReplayAnswer
    ensures { (result ≡ replay_answer file.now (length output.old))
        × (output.new ≡ replay_buffer file.now output.old) }
{
    match Lesson::new(file) {
        Err(refusal) => answer_with(Chip::power_on(), Err(refusal)),
        Ok(lesson) => play_lesson(&lesson, output),
    }
}
