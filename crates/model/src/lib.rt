// What a call to a model is, and what it means to be a model of a chip: definitions and laws over any state, no functions.
// The types below are those that the code shares with the definitions.
#![tactic(auto)]

// The number of an endpoint, 0 to 15: a kind of number of its own (document 02, Ask 3).
#[derive(Clone, Copy, Debug, PartialEq, Eq)]
pub struct EndpointNumber(pub u8);

// An event of the bus side. Fields that an event does not use are ignored. Its code stays a number: the bus side takes every code, a C
// program's too, and refuses those that are none of the twelve.
#[derive(Clone, Copy, Debug, PartialEq, Eq)]
pub struct Event {
    // 1 power-on, 2 oscillator stable, 3 VBUS on, 4 VBUS off, 5 input pins, 6 bus reset start, 7 bus reset end,
    // 8 suspend, 9 activity, 10 SETUP, 11 OUT, 12 IN.
    pub code: u8,
    // Event 5: the input pins, low four bits.
    pub pins: u8,
    // SETUP, OUT, IN.
    pub address: u8,
    pub endpoint: EndpointNumber,
    // SETUP, OUT: the packet is damaged.
    pub damaged: bool,
    // OUT: the packet is a DATA1.
    pub data1: bool,
    // IN: the host's ACK reaches the chip.
    pub acknowledged: bool,
}
