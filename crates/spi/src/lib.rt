// One SPI transfer: its refusals, the command byte, reply byte 0; its data bytes are crate transfer_bursts (document 01, "The SPI side").
#![tactic(auto)]

ghost use Rattle.std.specs.Prelude.{◌≡◌, cond, ◌<◌, ◌≤◌, length};
ghost use Rattle.bits.specs.Bit.{raised};
ghost use Rattle.ring.specs.Ring.{oldest_count};
ghost use Rattle.refusal.specs.Check.{check, unless_refused, tells};
ghost use Rattle.chip.specs.Mask.{ackstat};
ghost use Rattle.chip.specs.Sound.{sound_chip};
ghost use Rattle.chip.specs.Set.{set_registers};
ghost use Rattle.model.specs.Reply.{lent};
ghost use Rattle.model.specs.Spi.{command_acknowledges, transfer_to, transfer_of};
ghost use Rattle.model.specs.Call.{Call, transfer_grounds, checked, answer_of, buffer_after};
ghost use Rattle.rules.specs.Spi.{status_byte, max3420e_spi};
ghost use Rattle.rules.specs.Event.{max3420e};
ghost use Rattle.spi.specs.Transfer.{transfer_answer, transfer_count};

use chip::{CallAnswer, Chip, Registers};
use refusal::Refusal;

// The reply is how many bytes of the lent buffer are the reply's.
pub type TransferAnswer = CallAnswer<Chip, u16>;

fn check(chip: Chip, n: usize, room: usize) -> Result<(), Refusal>
    ensures { result ≡ check (transfer_grounds (sound_chip chip) n room) }
{
    if chip.is_sound() {
        if n == 0 {
            return Err(Refusal::NoCommand);
        }
        if Chip::TRANSFER < n {
            return Err(Refusal::LongTransfer);
        }
        if room < n {
            return Err(Refusal::ShortBuffer);
        }
        return Ok(());
    }
    Err(Refusal::Unsound)
}

// Reply byte 0.
fn status_byte(registers: Registers) -> u8
    ensures { (c : Chip) → result ≡ status_byte (set_registers registers c) }
{
    if registers.pinctl & Chip::FDUPSPI != 0 {
        return (registers.usbirq & Chip::STATUS_IRQS) * 8 | (registers.epirq & Chip::EPIRQ_BITS);
    }
    0
}

// R9 after the command byte, whose bit 0 sets ACKSTAT.
pub fn acknowledged(epstalls: u8, command: u8) -> u8
    ensures { result ≡ cond (command_acknowledges command) (raised ackstat epstalls) epstalls }
{
    if command & 0x01 != 0 {
        return epstalls | Chip::ACKSTAT;
    }
    epstalls
}

// A transfer that is not refused.
fn run(mut chip: Chip, bytes: &[u8], reply: &mut [u8]) -> Chip
    requires { (chip.ep0.count ≤ 64) × (oldest_count 2 chip.ep1.ring ≤ 64)
        × (0 < length bytes.now) × (length bytes.now ≤ length reply.old) }
    ensures { (result ≡ transfer_to max3420e_spi chip bytes.now)
        × (reply.new ≡ lent (transfer_of max3420e_spi chip bytes.now) reply.old) }
{
    let command = bytes[0];
    let before = chip.registers;
    let epstalls = acknowledged(before.epstalls, command);
    chip.registers.epstalls = epstalls;
    let after = transfer_bursts::burst(chip, command & 0x02 != 0, command / 8, bytes, reply);
    reply[0] = status_byte(before);
    after
}

pub fn transfer(chip: Chip, bytes: &[u8], reply: &mut [u8]) -> TransferAnswer
    ensures { (result ≡ transfer_answer chip (Call.transfer bytes.now (length reply.old)))
        × (reply.new
        ≡ buffer_after (answer_of max3420e chip (Call.transfer bytes.now (length reply.old))) reply.old)
        × (tells result.reply ≡ checked max3420e chip (Call.transfer bytes.now (length reply.old)))
        × (transfer_count result.reply
        ≡ unless_refused (checked max3420e chip (Call.transfer bytes.now (length reply.old)))
        (length bytes.now)) }
{
    match check(chip, bytes.len(), reply.len()) {
        Err(refusal) => CallAnswer {
            state: chip,
            reply: Err(refusal),
            pin: chip.registers.pin(),
        },
        Ok(()) => {
            let after = run(chip, bytes, reply);
            CallAnswer {
                state: after,
                reply: Ok(bytes.len() as u16),
                pin: after.registers.pin(),
            }
        }
    }
}
