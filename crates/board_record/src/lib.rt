// The board's records, the chip's and the firmware's: at power-on, when they are sound, and which events put the firmware's back.
#![tactic(auto)]

ghost use Rattle.std.specs.Prelude.{◌≡◌};
ghost use Rattle.board_record.specs.Record.{power_on_board, sound_board, is_done, firmware_for};

use chip::Chip;
use event_answer::EventReply;
use firmware::Firmware;
use model::Event;
use refusal::Refusal;

#[repr(C)]
#[derive(Clone, Copy, PartialEq, Eq)]
pub struct Board {
    pub chip: Chip,
    pub firmware: Firmware,
}

impl Board {
    pub fn power_on() -> Self
        ensures { result ≡ power_on_board }
    {
        Board {
            chip: Chip::power_on(),
            firmware: Firmware::power_on(),
        }
    }

    pub fn is_sound(self) -> bool
        ensures { result ≡ sound_board self }
    {
        let c = self.chip;
        let f = self.firmware;
        c.is_sound() & f.is_sound()
    }
}

fn is_done(reply: Result<EventReply, Refusal>) -> bool
    ensures { result ≡ is_done reply }
{
    matches!(reply, Ok(EventReply::Done))
}

// Power-on and a bus reset start that is seen put the firmware's record back.
pub fn firmware_at(firmware: Firmware, event: Event, reply: Result<EventReply, Refusal>) -> Firmware
    ensures { result ≡ firmware_for firmware event reply }
{
    let done = is_done(reply);
    if ((event.code == 1) | (event.code == 6)) & done {
        return Firmware::power_on();
    }
    firmware
}
