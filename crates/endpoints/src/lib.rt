// What waits at each endpoint, with its toggle and the position of its FIFO. Every line starts with a blank.
#![tactic(auto)]

use chip::Chip;
use output::{Bytes, write_column};
use ring::Ring;
use std::fmt;
use std::fmt::Write;

// A packet: how many bytes wait, and which.
#[derive(Clone, Copy)]
struct Packet<'a> {
    count: u8,
    bytes: &'a [u8],
}

impl<'a> fmt::Display for Packet<'a> {
    fn fmt<W: Write>(&self, f: &mut fmt::Formatter<W>) -> fmt::Result {
        let count = self.count;
        let bytes = Bytes::first(count as usize, self.bytes);
        write!(f, "\n    waits {count:>3} bytes {bytes}")
    }
}

// An endpoint's line: its name, its toggle, its position, and the packets that wait, oldest first.
fn write_endpoint(
    out: &mut impl Write,
    name: &str,
    toggle: &str,
    position: u8,
    packets: &[Packet],
) -> fmt::Result {
    out.write_str("  ")?;
    write_column(out, name, 11)?;
    write_column(out, toggle, 7)?;
    write!(out, "position {position:>3}")?;
    if packets.is_empty() {
        out.write_str("  nothing waits")?;
    }
    for packet in packets {
        write!(out, "{packet}")?;
    }
    out.write_str("\n")
}

fn toggle_name(toggle: u8) -> &'static str {
    if toggle == 1 { "DATA1" } else { "DATA0" }
}

// The packet of a single buffer, where it waits.
fn write_single(
    out: &mut impl Write,
    name: &str,
    toggle: &str,
    position: u8,
    packet: Option<Packet>,
) -> fmt::Result {
    match packet {
        Some(packet) => write_endpoint(out, name, toggle, position, &[packet]),
        None => write_endpoint(out, name, toggle, position, &[]),
    }
}

// The packets that wait in a ring.
fn write_ring(
    out: &mut impl Write,
    name: &str,
    toggle: u8,
    position: u8,
    ring: &Ring,
) -> fmt::Result {
    let mut packets = [
        Packet {
            count: ring.counts[0],
            bytes: &ring.bytes[..Chip::BUFFER],
        },
        Packet {
            count: ring.counts[1],
            bytes: &ring.bytes[Chip::BUFFER..],
        },
    ];
    if ring.oldest % 2 == 1 {
        packets.swap(0, 1);
    }
    let waiting = ring.waiting.min(2) as usize;
    write_endpoint(
        out,
        name,
        toggle_name(toggle),
        position,
        &packets[..waiting],
    )
}

// Endpoint 0's buffer serves both directions: it is armed for IN, or holds what an OUT brought (OUT0DAVIRQ). The bytes of a SETUP wait for
// the firmware (SUDAVIRQ); its position is how far R4 has been read.
fn write_endpoint0(out: &mut impl Write, chip: &Chip) -> fmt::Result {
    let endpoint = &chip.ep0;
    let setup = Packet {
        count: 8,
        bytes: &endpoint.setup,
    };
    let packet = Packet {
        count: endpoint.count,
        bytes: &endpoint.bytes,
    };
    let waits = chip.registers.epirq & Chip::SUDAVIRQ != 0;
    let armed = endpoint.armed == 1;
    let came = chip.registers.epirq & Chip::OUT0DAVIRQ != 0;
    let sent = toggle_name(endpoint.intoggle);
    let taken = toggle_name(endpoint.outtoggle);
    write_single(
        out,
        "EP0 SETUP",
        "",
        endpoint.setuppos,
        waits.then_some(setup),
    )?;
    write_single(
        out,
        "EP0 IN",
        sent,
        endpoint.writepos,
        armed.then_some(packet),
    )?;
    write_single(
        out,
        "EP0 OUT",
        taken,
        endpoint.readpos,
        came.then_some(packet),
    )
}

// Every endpoint.
#[derive(Clone, Copy)]
pub struct Endpoints<'a>(pub &'a Chip);

impl<'a> fmt::Display for Endpoints<'a> {
    fn fmt<W: Write>(&self, f: &mut fmt::Formatter<W>) -> fmt::Result {
        let chip = self.0;
        let ep1 = &chip.ep1;
        let ep2 = &chip.ep2;
        let ep3 = &chip.ep3;
        let armed = ep3.armed == 1;
        let packet = Packet {
            count: ep3.count,
            bytes: &ep3.bytes,
        };
        write_endpoint0(f, chip)?;
        write_ring(f, "EP1 OUT", ep1.toggle, ep1.readpos, &ep1.ring)?;
        write_ring(f, "EP2 IN", ep2.toggle, ep2.writepos, &ep2.ring)?;
        write_single(
            f,
            "EP3 IN",
            toggle_name(ep3.toggle),
            ep3.writepos,
            armed.then_some(packet),
        )
    }
}
