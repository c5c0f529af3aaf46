// Runs transfers on the real code: the bench cases of document 01 that need no bus event, the refusals, and long bursts. Writes
// each transfer with its answer: the lent buffer is shown whole, so that bytes past the reply can be seen to stay EE.
#![tactic(auto)]

use chip::Chip;
use output::Bytes;
use print::{Answered, say};
use std::fmt;

// What a transfer is replied: the count of bytes as two bytes.
#[derive(Clone, Copy)]
struct Transferred(u16);

impl fmt::Display for Transferred {
    fn fmt<W: fmt::Write>(&self, f: &mut fmt::Formatter<W>) -> fmt::Result {
        write!(f, ": count{}", Bytes(&self.0.to_be_bytes()))
    }
}

// The bytes of a transfer and of the lent buffer that are written.
const SHOWN: usize = 8;

// A chip, and what its transfers are written on.
#[derive(Drop)]
struct Bench<'a, R> {
    rt: &'a R,
    chip: Chip,
}

impl<'a, R: Print> Bench<'a, R> {
    // Powered and stable, `7A 08` sent.
    fn power_on(rt: &'a R) -> Self {
        let mut chip = Chip::power_on();
        chip.power.oscok = 1;
        let mut bench = Bench { rt, chip };
        bench.send(b"\x7A\x08");
        bench
    }

    // Makes one call, and writes it with its answer.
    fn call(&mut self, bytes: &[u8], buffer: &mut [u8]) {
        let answer = spi::transfer(self.chip, bytes, buffer);
        self.chip = answer.state;
        let sent = Bytes::first(SHOWN, bytes);
        let replied = Answered(answer.reply.map(Transferred));
        let lent = Bytes::first(SHOWN, buffer);
        let pin = answer.pin;
        say(
            self.rt,
            format_args!("transfer{sent}{replied}, buffer{lent}, pin {pin}\n"),
        );
    }

    // The same with a lent buffer of six bytes.
    fn send(&mut self, bytes: &[u8]) {
        self.call(bytes, &mut [0xEEu8; 6]);
    }

    // The same with one that is long enough for any transfer.
    fn send_long(&mut self, bytes: &[u8]) {
        self.call(bytes, &mut [0xEEu8; 4097]);
    }

    fn send_each(&mut self, transfers: &[&[u8]]) {
        for bytes in transfers {
            self.send(bytes);
        }
    }
}

// A heading, and the transfers below it on a chip of their own.
fn run<'a, R: Print>(rt: &'a R, heading: &str, transfers: &[&[u8]]) -> Bench<'a, R> {
    say(rt, heading);
    let mut bench = Bench::power_on(rt);
    bench.send_each(transfers);
    bench
}

fn bench_replies(rt: &impl Print) {
    run(rt, "1: R11 after power-on\n", &[b"\x58\x00"]);
    run(
        rt,
        "2: reply byte 0 with FDUPSPI, ACKSTAT by bit 0 of the command byte\n",
        &[b"\x8A\x10", b"\x91", b"\x48\x00"],
    );
    run(
        rt,
        "7: the outputs; R19, R20, R20 are read\n",
        &[b"\xA2\x05\x0A", b"\x98\x00\x00\x00"],
    );
}

fn bench_buffers(rt: &impl Print) {
    run(
        rt,
        "3: endpoint 2 takes two packets, a third changes nothing\n",
        &[
            b"\x12\x01",
            b"\x3A\x01",
            b"\x58\x00",
            b"\x12\x02",
            b"\x3A\x01",
            b"\x58\x00",
            b"\x12\x03",
            b"\x3A\x01",
            b"\x58\x00",
        ],
    );
    run(
        rt,
        "5: a count over 64 changes nothing, 64 and 0 arm\n",
        &[
            b"\x3A\x41",
            b"\x38\x00",
            b"\x3A\x40",
            b"\x38\x00",
            b"\x3A\x00",
            b"\x38\x00",
            b"\x58\x00",
        ],
    );
    run(
        rt,
        "6: endpoint 3 armed with three bytes\n",
        &[b"\x1A\x00\x00\x08", b"\x42\x03", b"\x58\x00"],
    );
}

fn endpoint0(rt: &impl Print) {
    let mut bench = run(
        rt,
        "endpoint 0: bytes to R0, bit 7 of R5 has no effect, read back by R0, then 0\n",
        &[
            b"\x02\x0A\x0B\x0C",
            b"\x2A\x83",
            b"\x28\x00",
            b"\x00\x00\x00\x00\x00",
            b"\x58\x00",
        ],
    );
    say(rt, "while it is armed R0 and R5 are ignored\n");
    bench.send_each(&[b"\x02\x0D", b"\x2A\x04", b"\x28\x00"]);
}

fn interrupts(rt: &impl Print) {
    let mut bench = run(
        rt,
        "the pin in level mode: open, low with IN0BAVIE, open once IN0BAVIRQ is cleared\n",
        &[b"\x8A\x08", b"\x82\x01", b"\x62\x01", b"\x5A\x01"],
    );
    say(rt, "in edge mode by POSINT\n");
    bench.send_each(&[b"\x8A\x00", b"\x8A\x04"]);
    say(rt, "R9 to R12 in one burst, read back\n");
    bench.send_each(&[b"\x4A\xFF\xFF\xFF\xFF", b"\x48\x00\x00\x00\x00"]);
    say(rt, "CHIPRES going 0 to 1 is a chip reset\n");
    bench.send_each(&[b"\x7A\x28", b"\x78\x00\x00\x00", b"\x48\x00\x00\x00\x00"]);
}

fn refusals(rt: &impl Print) {
    let mut bench = run(
        rt,
        "refused: not sound, no command byte, a short buffer\n",
        &[],
    );
    let chip = bench.chip;
    bench.chip.ep0.readpos = 65;
    bench.send(b"");
    bench.chip = chip;
    bench.send_each(&[b"", b"\x4A\x01\x02\x03\x04\x05\x06"]);
}

fn long_bursts(rt: &impl Print) {
    let mut burst = [0x5Au8; 4097];
    burst[0] = 0x12;
    let mut stored = run(
        rt,
        "a burst of 4,096 bytes to R2; 64 are stored, and endpoint 2 is armed with them\n",
        &[],
    );
    stored.send_long(&burst[..4096]);
    stored.send_each(&[b"\x3A\x40", b"\x58\x00"]);
    burst[0] = 0x2A;
    let mut stuck = run(rt, "a burst of 4,096 bytes from R5 on sticks at R20\n", &[]);
    stuck.send_long(&burst[..4096]);
    stuck.send(b"\xA0\x00\x00");
    let mut refused = run(rt, "4,097 bytes are refused\n", &[]);
    refused.send_long(&burst);
}

fn main(rt: HostRuntime) {
    bench_replies(&rt);
    bench_buffers(&rt);
    endpoint0(&rt);
    interrupts(&rt);
    refusals(&rt);
    long_bursts(&rt);
}
