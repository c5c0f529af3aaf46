// Plays the lessons of crates/board_runs/specs/Enumeration.antt on the real code: a host enumerates the board, halts endpoint 3 and
// clears it, configures again, and resets the bus in the middle. Writes each call with its answer. A heading names the address
// of the transactions below it; they go to endpoint 0 unless the line names another. Buffers are as long as in the lessons, and
// filled with EE.
#![tactic(auto)]

use board_record::Board;
use firmware::RequestReply;
use model::EndpointNumber;
use output::Bytes;
use print::Answered;
use std::fmt;

type Host<'a, R> = host::Host<'a, R, Board>;

// ---- the requests

const DEVICE_8: [u8; 8] = *b"\x80\x06\x00\x01\x00\x00\x08\x00";

const DEVICE_18: [u8; 8] = *b"\x80\x06\x00\x01\x00\x00\x12\x00";

const SET_ADDRESS_7: [u8; 8] = *b"\x00\x05\x07\x00\x00\x00\x00\x00";

const CONFIGURATION_9: [u8; 8] = *b"\x80\x06\x00\x02\x00\x00\x09\x00";

const CONFIGURATION_34: [u8; 8] = *b"\x80\x06\x00\x02\x00\x00\x22\x00";

const STRING_0: [u8; 8] = *b"\x80\x06\x00\x03\x00\x00\xFF\x00";

const STRING_1: [u8; 8] = *b"\x80\x06\x01\x03\x00\x00\xFF\x00";

const STRING_2: [u8; 8] = *b"\x80\x06\x02\x03\x00\x00\xFF\x00";

const STRING_3: [u8; 8] = *b"\x80\x06\x03\x03\x00\x00\xFF\x00";

const SET_CONFIGURATION_1: [u8; 8] = *b"\x00\x09\x01\x00\x00\x00\x00\x00";

const GET_CONFIGURATION: [u8; 8] = *b"\x80\x08\x00\x00\x00\x00\x01\x00";

const REPORT: [u8; 8] = *b"\x81\x06\x00\x22\x00\x00\x2B\x00";

const SET_HALT: [u8; 8] = *b"\x02\x03\x00\x00\x83\x00\x00\x00";

const CLEAR_HALT: [u8; 8] = *b"\x02\x01\x00\x00\x83\x00\x00\x00";

const ENDPOINT_STATUS: [u8; 8] = *b"\x82\x00\x00\x00\x83\x00\x02\x00";

const VENDOR: [u8; 8] = *b"\xC0\x00\x00\x00\x00\x00\x02\x00";

// ---- writing

// What a board step is replied, None where none waits, with the lent buffer.
#[derive(Clone, Copy)]
struct Stepped<'a>(Option<RequestReply>, &'a [u8]);

impl<'a> fmt::Display for Stepped<'a> {
    fn fmt<W: fmt::Write>(&self, f: &mut fmt::Formatter<W>) -> fmt::Result {
        match self.0 {
            None => write!(f, ": idle"),
            Some(RequestReply::Stall) => write!(f, ": stall"),
            Some(RequestReply::Ack) => write!(f, ": ack"),
            Some(RequestReply::Data(count)) => {
                write!(f, ":{}", Bytes::first(count as usize, self.1))
            }
        }
    }
}

// The bytes that a transfer is replied: the front of the lent buffer.
#[derive(Clone, Copy)]
struct Transferred<'a>(u16, &'a [u8]);

impl<'a> fmt::Display for Transferred<'a> {
    fn fmt<W: fmt::Write>(&self, f: &mut fmt::Formatter<W>) -> fmt::Result {
        write!(f, ":{}", Bytes::first(self.0 as usize, self.1))
    }
}

fn put_heading(host: &Host<impl Print>, name: &str, address: u8) {
    host.say(format_args!("{name}, address {address:02X}\n"));
}

// ---- the calls

const EP0: EndpointNumber = EndpointNumber(0);

const EP2: EndpointNumber = EndpointNumber(2);

const EP3: EndpointNumber = EndpointNumber(3);

fn send_in(host: &mut Host<impl Print>, address: u8, endpoint: EndpointNumber) {
    if endpoint.0 == 0 {
        host.send_in("  IN", address, endpoint, true);
    } else {
        let number = Bytes(&[endpoint.0]);
        host.send_in(
            format_args!("  IN endpoint{number}"),
            address,
            endpoint,
            true,
        );
    }
}

// A transfer of the microcontroller, by hand.
fn transfer(host: &mut Host<impl Print>, bytes: &[u8]) {
    let mut buffer = [0xEEu8; 4096];
    let answer = board::transfer(host.device, bytes, &mut buffer);
    host.device = answer.state;
    let sent = Bytes(bytes);
    let replied = Answered(answer.reply.map(|count| Transferred(count, &buffer)));
    host.say(format_args!("  SPI{sent}{replied}\n"));
}

// The board step.
fn step(host: &mut Host<impl Print>) {
    let mut buffer = [0xEEu8; 64];
    let answer = board::step(host.device, &mut buffer);
    host.device = answer.state;
    let replied = Answered(answer.reply.map(|reply| Stepped(reply, &buffer)));
    host.say(format_args!("  step{replied}\n"));
}

// ---- requests

// SETUP, the board step, an IN at endpoint 0: data, the status stage of a request with no data, or a STALL.
fn ask(host: &mut Host<impl Print>, name: &str, address: u8, request: &[u8]) {
    put_heading(host, name, address);
    host.setup(address, request);
    step(host);
    send_in(host, address, EP0);
}

// The same with data to the host: the status stage is an empty OUT DATA1.
fn read(host: &mut Host<impl Print>, name: &str, address: u8, request: &[u8]) {
    ask(host, name, address, request);
    host.send_out("  OUT DATA1", address, EP0, true, b"");
}

// ---- the lessons

fn connect(host: &mut Host<impl Print>) {
    host.say("power, VBUS, connect, bus reset\n");
    host.signal("  power-on", 1);
    host.signal("  oscillator stable", 2);
    host.signal("  VBUS on", 3);
    step(host);
    transfer(host, b"\x7A\x08");
    host.signal("  bus reset start", 6);
    host.signal("  bus reset end", 7);
}

fn enumerate(host: &mut Host<impl Print>) {
    read(host, "device descriptor, 8 bytes", 0, &DEVICE_8);
    read(host, "device descriptor, 18 bytes", 0, &DEVICE_18);
    ask(host, "SET_ADDRESS 7", 0, &SET_ADDRESS_7);
    read(host, "configuration, 9 bytes", 7, &CONFIGURATION_9);
    read(host, "configuration, 34 bytes", 7, &CONFIGURATION_34);
    read(host, "string 0, languages", 7, &STRING_0);
    read(host, "string 1, manufacturer", 7, &STRING_1);
    read(host, "string 2, product", 7, &STRING_2);
    read(host, "string 3, serial number", 7, &STRING_3);
    ask(host, "SET_CONFIGURATION 1", 7, &SET_CONFIGURATION_1);
    read(host, "report descriptor", 7, &REPORT);
}

fn report(host: &mut Host<impl Print>) {
    put_heading(host, "three bytes at endpoint 3, armed by hand", 7);
    transfer(host, b"\x1A\x01\x02\x03");
    transfer(host, b"\x42\x03");
    send_in(host, 7, EP3);
}

fn halt(host: &mut Host<impl Print>) {
    ask(host, "halt of endpoint 3 set", 7, &SET_HALT);
    send_in(host, 7, EP3);
    read(host, "GET_STATUS of endpoint 83", 7, &ENDPOINT_STATUS);
    ask(
        host,
        "a vendor request, whose STALL keeps the halt",
        7,
        &VENDOR,
    );
    send_in(host, 7, EP3);
    ask(
        host,
        "halt of endpoint 3 cleared, DATA0 again",
        7,
        &CLEAR_HALT,
    );
    transfer(host, b"\x42\x01");
    send_in(host, 7, EP3);
}

fn configure_again(host: &mut Host<impl Print>) {
    put_heading(host, "an empty packet at endpoint 2", 7);
    transfer(host, b"\x3A\x00");
    send_in(host, 7, EP2);
    ask(
        host,
        "SET_CONFIGURATION 1 again, DATA0 at endpoints 2 and 3",
        7,
        &SET_CONFIGURATION_1,
    );
    transfer(host, b"\x3A\x00");
    send_in(host, 7, EP2);
    transfer(host, b"\x42\x00");
    send_in(host, 7, EP3);
}

fn reset_bus(host: &mut Host<impl Print>) {
    host.say("a bus reset that is not seen\n");
    transfer(host, b"\x7A\x00");
    host.signal("  bus reset start", 6);
    transfer(host, b"\x7A\x08");
    read(
        host,
        "GET_CONFIGURATION, not forgotten",
        7,
        &GET_CONFIGURATION,
    );
    put_heading(host, "a bus reset between SETUP and step", 7);
    host.setup(7, &DEVICE_18);
    host.signal("  bus reset start", 6);
    step(host);
    host.signal("  bus reset end", 7);
    read(
        host,
        "GET_CONFIGURATION after the reset",
        0,
        &GET_CONFIGURATION,
    );
    ask(
        host,
        "GET_STATUS of endpoint 83, not configured",
        0,
        &ENDPOINT_STATUS,
    );
}

fn main(rt: HostRuntime) {
    let mut host = Host {
        rt: &rt,
        device: Board::power_on(),
    };
    host.say("== enumeration\n");
    connect(&mut host);
    enumerate(&mut host);
    let enumerated = host.device;
    report(&mut host);
    let reported = host.device;
    host.say("== after that packet: a halt\n");
    halt(&mut host);
    host.device = reported;
    host.say("== after that packet: configured again\n");
    configure_again(&mut host);
    host.device = enumerated;
    host.say("== after the report descriptor: bus resets\n");
    reset_bus(&mut host);
}
