// The record as text: registers, supply and pin, and what waits at each endpoint. Every line starts with a blank.
#![tactic(auto)]

use chip::Chip;
use endpoints::Endpoints;
use registermap::RegisterMap;
use std::fmt;

// The whole record.
#[derive(Clone, Copy)]
pub struct Record<'a>(pub &'a Chip);

impl<'a> fmt::Display for Record<'a> {
    fn fmt<W: fmt::Write>(&self, f: &mut fmt::Formatter<W>) -> fmt::Result {
        let chip = self.0;
        let map = RegisterMap(chip);
        let vbus = if chip.power.vbus == 1 { "on" } else { "off" };
        let oscillator = if chip.power.oscok == 1 {
            "stable"
        } else {
            "not stable"
        };
        let pin = chip.registers.pin();
        let endpoints = Endpoints(chip);
        write!(
            f,
            "{map}  VBUS {vbus}, oscillator {oscillator}, INT {pin}\n{endpoints}"
        )
    }
}
