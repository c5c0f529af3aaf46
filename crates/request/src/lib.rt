// The firmware's record, and what becomes of each request (document 01, "The firmware").
//
// A request is decided by its type, then by its code, then by the descriptor type. specs/Request.antt lists the requests
// that are answered.
#![tactic(auto)]

ghost use Rattle.std.specs.Prelude.{◌≡◌, cond};
ghost use Rattle.request.specs.Record.{power_on_firmware, sound_firmware};
ghost use Rattle.request.specs.Request.{fields, plain, decision_of};

use descriptor::Data;

// The configuration, whether remote wakeup is enabled, and whether endpoint 3 is halted.
#[repr(C)]
#[derive(Clone, Copy, PartialEq, Eq)]
pub struct Firmware {
    pub configuration: u8,
    pub wakeup: u8, // a flag: 1 is on, 0 is off
    pub halted: u8, // a flag
}

impl Firmware {
    pub fn power_on() -> Self
        ensures { result ≡ power_on_firmware }
    {
        Firmware {
            configuration: 0,
            wakeup: 0,
            halted: 0,
        }
    }

    pub fn is_sound(self) -> bool
        ensures { result ≡ sound_firmware self }
    {
        (self.configuration <= 1)
            & (self.wakeup <= 1)
            & (self.halted <= 1)
            & ((self.halted != 1) | (self.configuration == 1))
    }
}

// What an accepted request changes at the data endpoints: the halt of endpoint 3, and toggles.
#[derive(Clone, Copy)]
pub enum Endpoints {
    Unchanged,
    ClearHalt,
    SetHalt,
    Configure,
}

// What becomes of a request: STALL; data to send; or an ACK, with the next record.
#[derive(Clone, Copy)]
pub enum Decision {
    Stall,
    Send(Data),
    Accept(Firmware, Endpoints),
}

// The fields of a request, by their names in USB 2.0 section 9.3.
#[derive(Clone, Copy)]
pub struct Request {
    pub bmrequesttype: u8,
    pub brequest: u8,
    pub wvalue: u16,
    pub windex: u16,
    pub wlength: u16,
}

// Whether wValue and wIndex are as given.
fn fields(request: Request, value: u16, index: u16) -> bool
    ensures { result ≡ fields request value index }
{
    (request.wvalue == value) & (request.windex == index)
}

// Whether a descriptor's index and wIndex are 0.
fn plain(request: Request) -> bool
    ensures { result ≡ plain request }
{
    (request.wvalue % 256 == 0) & (request.windex == 0)
}

// Data to send where the test holds, else STALL.
fn send_if(ok: bool, contents: Data) -> Decision
    ensures { result ≡ cond ok (Decision.Send contents) Decision.Stall }
{
    if ok {
        Decision::Send(contents)
    } else {
        Decision::Stall
    }
}

// An ACK with the next record where the test holds, else STALL.
fn accept_if(ok: bool, next: Firmware, endpoints: Endpoints) -> Decision
    ensures { result ≡ cond ok (Decision.Accept next endpoints) Decision.Stall }
{
    if ok {
        Decision::Accept(next, endpoints)
    } else {
        Decision::Stall
    }
}

// Reads from the device: GET_STATUS, GET_DESCRIPTOR, GET_CONFIGURATION.
#[tactic(auto, unfolding(crate::specs::Request::decision_of))]
fn read_device(request: Request, firmware: Firmware) -> Decision
    requires { request.bmrequesttype ≡ 0x80 }
    ensures { result ≡ decision_of request firmware }
{
    let code = request.brequest;
    let descriptor_type = (request.wvalue / 256) as u8;
    let index = (request.wvalue % 256) as u8;
    match code {
        0x00 => send_if(
            fields(request, 0, 0),
            Data::Status(if firmware.wakeup == 1 { 3 } else { 1 }),
        ),
        0x06 => match descriptor_type {
            0x01 => send_if(plain(request), Data::Device),
            0x02 => send_if(plain(request), Data::Configuration),
            0x03 => send_if(index < descriptor::STRINGS, Data::String(index)),
            0x00 | 0x04..=0xFF => Decision::Stall,
        },
        0x08 => send_if(fields(request, 0, 0), Data::Byte(firmware.configuration)),
        0x01..=0x05 | 0x07 | 0x09..=0xFF => Decision::Stall,
    }
}

// Reads from the interface: GET_STATUS, GET_DESCRIPTOR, GET_INTERFACE.
#[tactic(auto, unfolding(crate::specs::Request::decision_of))]
fn read_interface(request: Request, firmware: Firmware) -> Decision
    requires { request.bmrequesttype ≡ 0x81 }
    ensures { result ≡ decision_of request firmware }
{
    let code = request.brequest;
    let descriptor_type = (request.wvalue / 256) as u8;
    let configured = firmware.configuration == 1;
    match code {
        0x00 => send_if(fields(request, 0, 0) & configured, Data::Status(0)),
        0x06 => match descriptor_type {
            0x21 => send_if(plain(request), Data::Hid),
            0x22 => send_if(plain(request), Data::Report),
            0x00..=0x20 | 0x23..=0xFF => Decision::Stall,
        },
        0x0A => send_if(fields(request, 0, 0) & configured, Data::Byte(0)),
        0x01..=0x05 | 0x07..=0x09 | 0x0B..=0xFF => Decision::Stall,
    }
}

// Reads from an endpoint: GET_STATUS.
#[tactic(auto, unfolding(crate::specs::Request::decision_of))]
fn read_endpoint(request: Request, firmware: Firmware) -> Decision
    requires { request.bmrequesttype ≡ 0x82 }
    ensures { result ≡ decision_of request firmware }
{
    let code = request.brequest;
    match code {
        0x00 => {
            if fields(request, 0, 0x00) | fields(request, 0, 0x80) {
                return Decision::Send(Data::Status(0));
            }
            send_if(
                fields(request, 0, 0x83) & (firmware.configuration == 1),
                Data::Status(if firmware.halted == 1 { 1 } else { 0 }),
            )
        }
        0x01..=0xFF => Decision::Stall,
    }
}

// Writes to the device: CLEAR_FEATURE, SET_FEATURE, SET_ADDRESS, SET_CONFIGURATION.
#[tactic(auto, unfolding(crate::specs::Request::decision_of))]
fn write_device(request: Request, firmware: Firmware) -> Decision
    requires { request.bmrequesttype ≡ 0x00 }
    ensures { result ≡ decision_of request firmware }
{
    let code = request.brequest;
    match code {
        0x01 => accept_if(
            fields(request, 1, 0) & (request.wlength == 0),
            Firmware {
                wakeup: 0,
                ..firmware
            },
            Endpoints::Unchanged,
        ),
        0x03 => accept_if(
            fields(request, 1, 0) & (request.wlength == 0),
            Firmware {
                wakeup: 1,
                ..firmware
            },
            Endpoints::Unchanged,
        ),
        0x05 => accept_if(
            (request.windex == 0) & (request.wlength == 0),
            firmware,
            Endpoints::Unchanged,
        ),
        0x09 => accept_if(
            (request.windex == 0) & (request.wlength == 0) & (request.wvalue <= 1),
            Firmware {
                configuration: (request.wvalue % 256) as u8,
                halted: 0, // a new configuration ends a halt
                ..firmware
            },
            Endpoints::Configure,
        ),
        0x00 | 0x02 | 0x04 | 0x06..=0x08 | 0x0A..=0xFF => Decision::Stall,
    }
}

// Writes to the interface: SET_INTERFACE.
#[tactic(auto, unfolding(crate::specs::Request::decision_of))]
fn write_interface(request: Request, firmware: Firmware) -> Decision
    requires { request.bmrequesttype ≡ 0x01 }
    ensures { result ≡ decision_of request firmware }
{
    let code = request.brequest;
    match code {
        0x0B => accept_if(
            fields(request, 0, 0) & (request.wlength == 0) & (firmware.configuration == 1),
            firmware,
            Endpoints::Unchanged,
        ),
        0x00..=0x0A | 0x0C..=0xFF => Decision::Stall,
    }
}

// Writes to an endpoint: CLEAR_FEATURE, SET_FEATURE.
#[tactic(auto, unfolding(crate::specs::Request::decision_of))]
fn write_endpoint(request: Request, firmware: Firmware) -> Decision
    requires { request.bmrequesttype ≡ 0x02 }
    ensures { result ≡ decision_of request firmware }
{
    let code = request.brequest;
    let ok = fields(request, 0, 0x83) & (request.wlength == 0) & (firmware.configuration == 1);
    match code {
        0x01 => accept_if(
            ok,
            Firmware {
                halted: 0,
                ..firmware
            },
            Endpoints::ClearHalt,
        ),
        0x03 => accept_if(
            ok,
            Firmware {
                halted: 1,
                ..firmware
            },
            Endpoints::SetHalt,
        ),
        0x00 | 0x02 | 0x04..=0xFF => Decision::Stall,
    }
}

// What becomes of a request.
#[tactic(auto, using(crate::proofs::Decided::undecided))]
pub fn decide(request: Request, firmware: Firmware) -> Decision
    ensures { result ≡ decision_of request firmware }
{
    let request_type = request.bmrequesttype;
    match request_type {
        0x80 => read_device(request, firmware),
        0x81 => read_interface(request, firmware),
        0x82 => read_endpoint(request, firmware),
        0x00 => write_device(request, firmware),
        0x01 => write_interface(request, firmware),
        0x02 => write_endpoint(request, firmware),
        0x03..=0x7F | 0x83..=0xFF => Decision::Stall,
    }
}
