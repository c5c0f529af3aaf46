// The body of an event in a lesson (document 02, Ask 5), to an event and back. Codes and marks are numbers, as in the file and in crate model.
#![tactic(auto)]

ghost use Rattle.std.specs.Prelude.{◌≡◌, false, [], ◌∷◌, ◌+◌, ◌≤◌, length};
ghost use Rattle.std.proofs.lemmas.List.Edits.{sets};
ghost use Rattle.event_body.specs.Body.{is_signal, signal, event_of, payload_of, body_of};

use model::{EndpointNumber, Event};

const PINS: u8 = 5;

const SETUP: u8 = 10;

const OUT: u8 = 11;

const IN: u8 = 12;

// ---- what a body is read as

fn is_signal(code: u8) -> bool
    ensures { result ≡ is_signal code }
{
    matches!(code, 1..=4 | 6..=9)
}

// An event that is only a code.
fn read_signal(code: u8) -> Event
    ensures { result ≡ signal code }
{
    Event {
        code,
        pins: 0,
        address: 0,
        endpoint: EndpointNumber(0),
        damaged: false,
        data1: false,
        acknowledged: false,
    }
}

// The event of a body that is long enough for a transaction's: its marks are those that its code has, and IN has no payload.
#[tactic(auto, unfolding(crate::specs::Body::event_of))]
fn read_transaction(body: &[u8]) -> Event
    requires { 4 ≤ length body.now }
    ensures { result ≡ event_of body.now }
{
    let marks = body[3];
    let transaction = Event {
        address: body[1],
        endpoint: EndpointNumber(body[2]),
        ..read_signal(body[0])
    };
    match transaction.code {
        SETUP if marks <= 1 => Event {
            damaged: marks == 1,
            ..transaction
        },
        OUT if marks <= 3 => Event {
            damaged: marks % 2 == 1,
            data1: 2 <= marks,
            ..transaction
        },
        IN if body.len() == 4 && marks <= 1 => Event {
            acknowledged: marks == 1,
            ..transaction
        },
        _ => read_signal(0),
    }
}

// The event of a body; of a body that is no event's, event 0.
#[tactic(auto, unfolding(crate::specs::Body::event_of))]
pub fn event_of(body: &[u8]) -> Event
    ensures { result ≡ event_of body.now }
{
    match body {
        [code] if is_signal(*code) => read_signal(*code),
        [PINS, levels] => Event {
            pins: *levels,
            ..read_signal(PINS)
        },
        [_, _, _, _, ..] => read_transaction(body),
        _ => read_signal(0),
    }
}

// The payload of a transaction's body; of a shorter one none.
pub fn payload_of(body: &[u8]) -> &[u8]
    ensures { result.now ≡ payload_of body.now }
{
    body.get(4..).unwrap_or(&[])
}

// ---- the body of an event

// A transaction's body: its code, address, endpoint and marks, then the payload.
fn put_transaction(event: Event, marks: u8, payload: &[u8], body: &mut [u8]) -> usize
    requires { 4 + length payload.now ≤ length body.old }
    ensures { (result ≡ 4 + length payload.now)
        × (body.new
        ≡ sets body.old 0 (event.code ∷ event.address ∷ event.endpoint.0 ∷ marks ∷ payload.now)) }
{
    little_endian::put_bytes(
        body,
        0,
        &[event.code, event.address, event.endpoint.0, marks],
    );
    little_endian::put_bytes(body, 4, payload);
    4 + payload.len()
}

// Puts the body of an event at the start of a lent buffer, and says how long it is.
#[tactic(auto, unfolding(crate::specs::Body::body_of))]
pub fn put_body(event: Event, payload: &[u8], body: &mut [u8]) -> usize
    requires { 4 + length payload.now ≤ length body.old }
    ensures { (result ≡ length (body_of event payload.now))
        × (body.new ≡ sets body.old 0 (body_of event payload.now)) }
{
    match event.code {
        PINS => {
            little_endian::put_bytes(body, 0, &[PINS, event.pins]);
            2
        }
        SETUP => put_transaction(event, u8::from(event.damaged), payload, body),
        OUT => {
            let marks = u8::from(event.damaged) + 2 * u8::from(event.data1);
            put_transaction(event, marks, payload, body)
        }
        IN => put_transaction(event, u8::from(event.acknowledged), &[], body),
        code => {
            body[0] = code;
            1
        }
    }
}
