// R0 to R4, the FIFO registers, on the endpoint that each belongs to, and their writes on the record (document 01, "Writes" and
// "Reads"). R0, R2 and R3 have a function each, since each endpoint has a record of its own: C programs hold them so.
#![tactic(auto)]

ghost use Rattle.std.specs.Prelude.{◌≡◌};
ghost use Rattle.rules.specs.Write.{write_ep0fifo, write_ep2infifo, write_ep3infifo};
ghost use Rattle.fifos.specs.Fifo.{ep0_store_to, ep2_store_to, ep3_store_to, position_to, ep0_byte_of, ep1_byte_of, setup_byte_of};

use chip::{Chip, Endpoint0, Endpoint1, Endpoint2, Endpoint3};

// A byte written to R0; busy while the buffer is the chip's.
pub fn store_ep0(mut endpoint: Endpoint0, busy: bool, byte: u8) -> Endpoint0
    ensures { result ≡ ep0_store_to busy endpoint byte }
{
    let position = endpoint.writepos;
    if 64 <= position {
        return endpoint;
    }
    if busy {
        return endpoint;
    }
    endpoint.bytes[position as usize] = byte;
    endpoint.writepos = position + 1;
    endpoint
}

// A byte written to R2.
pub fn store_ep2(mut endpoint: Endpoint2, byte: u8) -> Endpoint2
    ensures { result ≡ ep2_store_to endpoint byte }
{
    let position = endpoint.writepos;
    if 64 <= position {
        return endpoint;
    }
    let ring = endpoint.ring;
    if 2 <= ring.waiting {
        return endpoint;
    }
    let stored = ring.store_byte(position, byte);
    endpoint.ring = stored;
    endpoint.writepos = position + 1;
    endpoint
}

// A byte written to R3.
pub fn store_ep3(mut endpoint: Endpoint3, byte: u8) -> Endpoint3
    ensures { result ≡ ep3_store_to endpoint byte }
{
    let position = endpoint.writepos;
    if 64 <= position {
        return endpoint;
    }
    if endpoint.armed == 1 {
        return endpoint;
    }
    endpoint.bytes[position as usize] = byte;
    endpoint.writepos = position + 1;
    endpoint
}

// The read position after a read.
pub fn move_on(position: u8, end: u8) -> u8
    ensures { result ≡ position_to position end }
{
    if position < end {
        return position + 1;
    }
    position
}

// The byte that R0 reads.
pub fn ep0_byte(endpoint: Endpoint0) -> u8
    ensures { result ≡ ep0_byte_of endpoint }
{
    let position = endpoint.readpos;
    if position < endpoint.count {
        if 64 <= position {
            return 0;
        }
        return endpoint.bytes[position as usize];
    }
    0
}

// The byte that R1 reads.
pub fn ep1_byte(endpoint: Endpoint1) -> u8
    ensures { result ≡ ep1_byte_of endpoint }
{
    let ring = endpoint.ring;
    ring.oldest_byte(endpoint.readpos)
}

// The byte that R4 reads.
pub fn setup_byte(endpoint: Endpoint0) -> u8
    ensures { result ≡ setup_byte_of endpoint }
{
    let position = endpoint.setuppos;
    if position < 8 {
        return endpoint.setup[position as usize];
    }
    0
}

// ---- on the record

// R0
pub fn write_ep0fifo(mut chip: Chip, byte: u8) -> Chip
    ensures { result ≡ write_ep0fifo chip byte }
{
    let old = chip.ep0;
    let busy = (old.armed == 1) | (chip.registers.epirq & Chip::OUT0DAVIRQ != 0);
    let new = store_ep0(old, busy, byte);
    chip.ep0 = new;
    chip
}

// R2
pub fn write_ep2infifo(mut chip: Chip, byte: u8) -> Chip
    ensures { result ≡ write_ep2infifo chip byte }
{
    let old = chip.ep2;
    let new = store_ep2(old, byte);
    chip.ep2 = new;
    chip
}

// R3
pub fn write_ep3infifo(mut chip: Chip, byte: u8) -> Chip
    ensures { result ≡ write_ep3infifo chip byte }
{
    let old = chip.ep3;
    let new = store_ep3(old, byte);
    chip.ep3 = new;
    chip
}
