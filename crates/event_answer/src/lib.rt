// What a call of the bus side hands back (document 01, "The bus side").
#![tactic(auto)]

ghost use Rattle.std.specs.Prelude.{◌≡◌};
ghost use Rattle.event_answer.specs.Answer.{data_reply, event_answer_with};

use chip::{CallAnswer, Chip};
use refusal::Refusal;

// What an event that is not refused is replied: events 1 to 9 done; nothing on the bus; a handshake; a data packet of so many bytes.
#[derive(Clone, Copy, Debug, PartialEq, Eq)]
pub enum EventReply {
    Done,
    Silence,
    Ack,
    Nak,
    Stall,
    Data0(u8),
    Data1(u8),
}

pub type EventAnswer = CallAnswer<Chip, EventReply>;

// The answer with this record and this reply.
pub fn answer_with(chip: Chip, reply: Result<EventReply, Refusal>) -> EventAnswer
    ensures { result ≡ event_answer_with chip reply }
{
    CallAnswer {
        state: chip,
        reply,
        pin: chip.registers.pin(),
    }
}

// A data packet of so many bytes.
pub fn data_packet(data1: bool, count: u8) -> EventReply
    ensures { result ≡ data_reply data1 count }
{
    if data1 {
        EventReply::Data1(count)
    } else {
        EventReply::Data0(count)
    }
}
