// Asks the firmware each request of document 01, not configured and configured, and makes a call for each refusal. Writes
// each request with its answer.
#![tactic(auto)]

use firmware::{Endpoints, Firmware, RequestReply};
use output::Bytes;
use print::{Answered, say};
use std::fmt;

// GET_STATUS of the device, of the interface, and of endpoints 00, 80, 83 and 81, which does not exist.
const STATUS: [[u8; 8]; 6] = [
    *b"\x80\x00\x00\x00\x00\x00\x02\x00",
    *b"\x81\x00\x00\x00\x00\x00\x02\x00",
    *b"\x82\x00\x00\x00\x00\x00\x02\x00",
    *b"\x82\x00\x00\x00\x80\x00\x02\x00",
    *b"\x82\x00\x00\x00\x83\x00\x02\x00",
    *b"\x82\x00\x00\x00\x81\x00\x02\x00",
];

// Remote wakeup on and off, each with the device's status; a feature that does not exist.
const WAKEUP: [[u8; 8]; 5] = [
    *b"\x00\x03\x01\x00\x00\x00\x00\x00",
    *b"\x80\x00\x00\x00\x00\x00\x02\x00",
    *b"\x00\x01\x01\x00\x00\x00\x00\x00",
    *b"\x80\x00\x00\x00\x00\x00\x02\x00",
    *b"\x00\x03\x02\x00\x00\x00\x00\x00",
];

// The halt of endpoint 83 on and off, each with its status; on again.
const HALT: [[u8; 8]; 5] = [
    *b"\x02\x03\x00\x00\x83\x00\x00\x00",
    *b"\x82\x00\x00\x00\x83\x00\x02\x00",
    *b"\x02\x01\x00\x00\x83\x00\x00\x00",
    *b"\x82\x00\x00\x00\x83\x00\x02\x00",
    *b"\x02\x03\x00\x00\x83\x00\x00\x00",
];

// SET_ADDRESS with two values; GET_CONFIGURATION.
const DEVICE: [[u8; 8]; 3] = [
    *b"\x00\x05\x17\x00\x00\x00\x00\x00",
    *b"\x00\x05\xFF\xFF\x00\x00\x00\x00",
    *b"\x80\x08\x00\x00\x00\x00\x01\x00",
];

// The device descriptor with wLength 64, 8 and 0; the configuration with 9 and 255; a type that does not exist.
const DESCRIPTORS: [[u8; 8]; 6] = [
    *b"\x80\x06\x00\x01\x00\x00\x40\x00",
    *b"\x80\x06\x00\x01\x00\x00\x08\x00",
    *b"\x80\x06\x00\x01\x00\x00\x00\x00",
    *b"\x80\x06\x00\x02\x00\x00\x09\x00",
    *b"\x80\x06\x00\x02\x00\x00\xFF\x00",
    *b"\x80\x06\x00\x06\x00\x00\x0A\x00",
];

// The strings 0 to 3, with a language; 4 and 255, which do not exist.
const STRINGS: [[u8; 8]; 6] = [
    *b"\x80\x06\x00\x03\x00\x00\xFF\x00",
    *b"\x80\x06\x01\x03\x09\x04\xFF\x00",
    *b"\x80\x06\x02\x03\x09\x04\xFF\x00",
    *b"\x80\x06\x03\x03\x09\x04\xFF\x00",
    *b"\x80\x06\x04\x03\x09\x04\xFF\x00",
    *b"\x80\x06\xFF\x03\x09\x04\xFF\x00",
];

// The HID and the report descriptor; a type that does not exist; GET_INTERFACE, SET_INTERFACE.
const INTERFACE: [[u8; 8]; 5] = [
    *b"\x81\x06\x00\x21\x00\x00\x09\x00",
    *b"\x81\x06\x00\x22\x00\x00\xFF\x00",
    *b"\x81\x06\x00\x23\x00\x00\xFF\x00",
    *b"\x81\x0A\x00\x00\x00\x00\x01\x00",
    *b"\x01\x0B\x00\x00\x00\x00\x00\x00",
];

// A vendor request; SET_IDLE of the HID class; requests with a field that is not named and not 0.
const OTHERS: [[u8; 8]; 13] = [
    *b"\xC0\x00\x00\x00\x00\x00\x02\x00",
    *b"\x21\x0A\x00\x00\x00\x00\x00\x00",
    *b"\x80\x00\x01\x00\x00\x00\x02\x00",
    *b"\x80\x08\x00\x00\x01\x00\x01\x00",
    *b"\x00\x01\x01\x00\x00\x00\x01\x00",
    *b"\x02\x01\x00\x00\x83\x00\x01\x00",
    *b"\x00\x05\x01\x00\x01\x00\x00\x00",
    *b"\x00\x09\x01\x00\x00\x00\x01\x00",
    *b"\x80\x06\x01\x01\x00\x00\x40\x00",
    *b"\x80\x06\x00\x01\x01\x00\x40\x00",
    *b"\x81\x06\x00\x21\x01\x00\x09\x00",
    *b"\x81\x0A\x00\x00\x01\x00\x01\x00",
    *b"\x01\x0B\x01\x00\x00\x00\x00\x00",
];

// SET_CONFIGURATION 2, 0 and 1, with the status of endpoint 83.
const CONFIGURATION: [[u8; 8]; 5] = [
    *b"\x00\x09\x02\x00\x00\x00\x00\x00",
    *b"\x00\x09\x00\x00\x00\x00\x00\x00",
    *b"\x82\x00\x00\x00\x83\x00\x02\x00",
    *b"\x00\x09\x01\x00\x00\x00\x00\x00",
    *b"\x82\x00\x00\x00\x83\x00\x02\x00",
];

// What a request that is not refused is replied, with the buffer that the bytes of its data are in.
#[derive(Clone, Copy)]
struct Replied<'a>(RequestReply, &'a [u8]);

impl<'a> fmt::Display for Replied<'a> {
    fn fmt<W: fmt::Write>(&self, f: &mut fmt::Formatter<W>) -> fmt::Result {
        match self.0 {
            RequestReply::Stall => write!(f, ": stall"),
            RequestReply::Ack => write!(f, ": ack"),
            RequestReply::Data(count) => write!(
                f,
                ": data{}",
                Bytes::first(count as usize, self.1)
            ),
        }
    }
}

fn words(endpoints: Endpoints) -> &'static str {
    match endpoints {
        Endpoints::Unchanged => "",
        Endpoints::ClearHalt => ", clear halt",
        Endpoints::SetHalt => ", set halt",
        Endpoints::Configure => ", configure",
    }
}

// The firmware as the calls so far have left it, and what they are written on.
#[derive(Drop)]
struct Bench<'a, R> {
    rt: &'a R,
    firmware: Firmware,
}

impl<'a, R: Print> Bench<'a, R> {
    // Makes one call, and writes the request and the answer.
    fn ask(&mut self, setup: &[u8], buffer: &mut [u8]) {
        let response = firmware::answer(setup, self.firmware, buffer);
        self.firmware = response.firmware;
        let request = Bytes(setup);
        let replied = Answered(response.reply.map(|reply| Replied(reply, buffer)));
        let endpoints = words(response.endpoints);
        say(
            self.rt,
            format_args!("request{request}{replied}{endpoints}\n"),
        );
    }

    fn ask_all(&mut self) {
        let lists: [(&str, &[[u8; 8]]); 9] = [
            ("GET_STATUS\n", &STATUS),
            ("Remote wakeup\n", &WAKEUP),
            ("The halt of endpoint 83\n", &HALT),
            ("SET_ADDRESS, GET_CONFIGURATION\n", &DEVICE),
            ("GET_DESCRIPTOR: device, configuration\n", &DESCRIPTORS),
            ("GET_DESCRIPTOR: strings\n", &STRINGS),
            ("The interface\n", &INTERFACE),
            ("Requests that are not served\n", &OTHERS),
            ("SET_CONFIGURATION\n", &CONFIGURATION),
        ];
        for (heading, requests) in lists {
            say(self.rt, heading);
            for request in requests {
                self.ask(request, &mut [0u8; 64]);
            }
        }
    }
}

fn main(rt: HostRuntime) {
    let mut bench = Bench {
        rt: &rt,
        firmware: Firmware::power_on(),
    };
    say(&rt, "== Not configured\n");
    bench.ask_all();
    let configured = bench.firmware;
    say(&rt, "== Configured\n");
    bench.ask_all();
    // A record that is not sound, a reply buffer of 63 bytes, requests of seven bytes and of nine.
    say(&rt, "== Refused\n");
    bench.firmware = Firmware {
        configuration: 2,
        ..configured
    };
    bench.ask(b"\x80\x00\x00\x00\x00\x00\x02", &mut [0u8; 63]);
    bench.firmware = configured;
    bench.ask(b"\x80\x00\x00\x00\x00\x00\x02", &mut [0u8; 63]);
    bench.ask(b"\x80\x00\x00\x00\x00\x00\x02", &mut [0u8; 64]);
    bench.ask(b"\x80\x00\x00\x00\x00\x00\x02\x00\x81", &mut [0u8; 64]);
}
