// The firmware's answer to eight setup bytes (document 01, "The firmware").
#![tactic(auto)]

ghost use Rattle.std.specs.Prelude.{◌≡◌, ◌≤◌, length};
ghost use Rattle.request.specs.Request.{request_of};
ghost use Rattle.firmware.specs.Registers.{epstalls_of, clrtogs_of};
ghost use Rattle.firmware.specs.Answer.{unchanged, counted, served_of, handled, Numbers};

use refusal::Refusal;
use request::{Decision, Request};
pub use request::{Endpoints, Firmware};

// STALL, ACK only, or so many bytes and ACK.
#[derive(Clone, Copy, Debug, PartialEq, Eq)]
pub enum RequestReply {
    Stall,
    Ack,
    Data(u8),
}

// The reply, the next record, and what is to be written to R9 and R10 before the ACK.
#[derive(Clone, Copy)]
pub struct RequestAnswer {
    pub reply: Result<RequestReply, Refusal>,
    pub firmware: Firmware,
    pub endpoints: Endpoints,
}

// The fields that the eight setup bytes spell.
fn parse(setup: &[u8]) -> Request
    requires { length setup.now ≡ 8 }
    ensures { result ≡ request_of setup.now }
{
    Request {
        bmrequesttype: setup[0],
        brequest: setup[1],
        wvalue: u16::from_le_bytes([setup[2], setup[3]]),
        windex: u16::from_le_bytes([setup[4], setup[5]]),
        wlength: u16::from_le_bytes([setup[6], setup[7]]),
    }
}

// So many bytes and ACK; none is ACK only.
fn counted(n: u8) -> RequestReply
    ensures { result ≡ counted n }
{
    if n == 0 {
        RequestReply::Ack
    } else {
        RequestReply::Data(n)
    }
}

// A reply that leaves the record and the endpoints as they are.
fn unchanged(reply: Result<RequestReply, Refusal>, firmware: Firmware) -> RequestAnswer
    ensures { result ≡ unchanged reply firmware }
{
    RequestAnswer {
        reply,
        firmware,
        endpoints: Endpoints::Unchanged,
    }
}

// The answer to a request, for a call that is not refused.
#[tactic(auto, unfolding(crate::specs::Answer::served_of))]
fn serve(request: Request, firmware: Firmware, reply: &mut [u8]) -> RequestAnswer
    requires { 64 ≤ length reply.old }
    ensures { (result ≡ (served_of request firmware reply.old).answer)
        × (reply.new ≡ (served_of request firmware reply.old).buffer) }
{
    match request::decide(request, firmware) {
        Decision::Stall => unchanged(Ok(RequestReply::Stall), firmware),
        Decision::Send(contents) => {
            unchanged(Ok(counted(contents.send(request.wlength, reply))), firmware)
        }
        Decision::Accept(next, endpoints) => RequestAnswer {
            reply: Ok(RequestReply::Ack),
            firmware: next,
            endpoints,
        },
    }
}

// R9, EPSTALLS, as it is written before the ACK, from the byte that it held.
pub fn epstalls(endpoints: Endpoints, r9: u8) -> u8
    ensures { result ≡ epstalls_of endpoints r9 }
{
    match endpoints {
        Endpoints::Unchanged => r9,
        Endpoints::ClearHalt => r9 & 0xEF,
        Endpoints::SetHalt => r9 | 0x10,
        Endpoints::Configure => r9 & 0xEF,
    }
}

// R10, CLRTOGS, as it is written before the ACK, from the byte that it held.
pub fn clrtogs(endpoints: Endpoints, r10: u8) -> u8
    ensures { result ≡ clrtogs_of endpoints r10 }
{
    match endpoints {
        Endpoints::Unchanged => r10,
        Endpoints::ClearHalt => r10 | 0x10,
        Endpoints::SetHalt => r10,
        Endpoints::Configure => r10 | 0x1C,
    }
}

// The answer to a call: the answer, and the bytes that it counts at the start of the reply buffer.
pub fn answer(setup: &[u8], firmware: Firmware, reply: &mut [u8]) -> RequestAnswer
    ensures { (result ≡ (handled setup.now firmware reply.old).answer)
        × (reply.new ≡ (handled setup.now firmware reply.old).buffer)
        × Numbers setup.now firmware reply.old result.reply }
{
    if !firmware.is_sound() {
        return unchanged(Err(Refusal::Unsound), firmware);
    }
    if reply.len() < 64 {
        return unchanged(Err(Refusal::ShortBuffer), firmware);
    }
    if setup.len() != 8 {
        return unchanged(Err(Refusal::SetupPayload(setup.len())), firmware);
    }
    serve(parse(setup), firmware, reply)
}
