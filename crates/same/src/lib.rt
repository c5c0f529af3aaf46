// Whether two records are the same, number by number: the test that their types derive.
#![tactic(auto)]

ghost use Rattle.std.specs.Prelude.{◌≡◌};
ghost use Rattle.chip.specs.Same.{same_ep0, same_ep1, same_ep2, same_ep3, same_registers, same_chip};
ghost use Rattle.same.specs.Firmware.{same_firmware};

use chip::{Chip, Endpoint0, Endpoint1, Endpoint2, Endpoint3, Registers};
use request::Firmware;

// Part by part: of `a == b` on whole chips the search for a proof gives up at its limit.

#[tactic(auto, using(crate::proofs::Numbers::same_numbers_is))]
fn same_ep0(a: Endpoint0, b: Endpoint0) -> bool
    ensures { result ≡ same_ep0 a b }
{
    a == b
}

#[tactic(auto, using(crate::proofs::Numbers::same_numbers_is))]
fn same_ep1(a: Endpoint1, b: Endpoint1) -> bool
    ensures { result ≡ same_ep1 a b }
{
    a == b
}

#[tactic(auto, using(crate::proofs::Numbers::same_numbers_is))]
fn same_ep2(a: Endpoint2, b: Endpoint2) -> bool
    ensures { result ≡ same_ep2 a b }
{
    a == b
}

#[tactic(auto, using(crate::proofs::Numbers::same_numbers_is))]
fn same_ep3(a: Endpoint3, b: Endpoint3) -> bool
    ensures { result ≡ same_ep3 a b }
{
    a == b
}

#[tactic(auto, using(crate::proofs::Numbers::same_numbers_is))]
fn same_registers(a: Registers, b: Registers) -> bool
    ensures { result ≡ same_registers a b }
{
    a == b
}

#[tactic(auto, unfolding(chip::specs::Same::same_chip))]
pub fn same_chip(a: Chip, b: Chip) -> bool
    ensures { result ≡ same_chip a b }
{
    same_ep0(a.ep0, b.ep0)
        & same_ep1(a.ep1, b.ep1)
        & same_ep2(a.ep2, b.ep2)
        & same_ep3(a.ep3, b.ep3)
        & same_registers(a.registers, b.registers)
        & (a.power == b.power)
}

pub fn same_firmware(a: Firmware, b: Firmware) -> bool
    ensures { result ≡ same_firmware a b }
{
    b == a
}
