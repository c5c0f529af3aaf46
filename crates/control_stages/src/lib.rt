// The stage of a control transfer, read off the setup bytes (document 01, "The bus side").
#![tactic(auto)]

ghost use Rattle.std.specs.Prelude.{◌≡◌};
ghost use Rattle.rules.specs.Control.{w_length, reading, sets_address};

use chip::Chip;

pub fn w_length(chip: Chip) -> u16
    ensures { result ≡ w_length chip }
{
    let setup = chip.ep0.setup;
    u16::from_le_bytes([setup[6], setup[7]])
}

// IN is data and OUT is status.
pub fn reading(chip: Chip) -> bool
    ensures { result ≡ reading chip }
{
    let setup = chip.ep0.setup;
    (setup[0] & 0x80 != 0) & (w_length(chip) != 0)
}

// The request is SET_ADDRESS.
pub fn sets_address(chip: Chip) -> bool
    ensures { result ≡ sets_address chip }
{
    let setup = chip.ep0.setup;
    (setup[0] == 0x00) & (setup[1] == 0x05) & (w_length(chip) == 0)
}
