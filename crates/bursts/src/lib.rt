// The data bytes of a burst at R0 to R4, on the endpoint that the register belongs to (document 01, "Writes" and "Reads"). The buffer
// is taken out and put back once for a burst, not for each byte. What is common is `store_all` and `read_all`; the rest is the endpoint's own
// record, as C programs hold it. The bytes sent and the lent buffer stay two slices: a pair of them would only say their two facts again.
#![tactic(auto)]

ghost use Rattle.std.specs.Prelude.{◌≡◌, true, false, ◌+◌, ◌<◌, ◌≤◌, min, length, get_or};
ghost use Rattle.bits.specs.Bit.{has};
ghost use Rattle.ring.specs.Ring.{oldest_count};
ghost use Rattle.chip.specs.declared.Chip.{Chip};
ghost use Rattle.chip.specs.Mask.{out0davirq};
ghost use Rattle.chip.specs.Set.{set_ep0, set_ep1, set_ep2, set_ep3};
ghost use Rattle.model.specs.Spi.{burst_to};
ghost use Rattle.rules.specs.Spi.{max3420e_spi};
ghost use Rattle.bursts.specs.Burst.{filling, limit_of, stored_to, packet_spi, Burst};

use chip::{Endpoint0, Endpoint1, Endpoint2, Endpoint3};

// ---- writes

// How many bytes a buffer takes: none while it is the chip's.
fn limit_of(busy: bool) -> u8
    ensures { (result ≡ limit_of busy) × (result ≤ 64) }
{
    if busy { 0 } else { 64 }
}

// How many of so many bytes are stored where there is room.
fn fitting(room: u8, count: usize) -> usize
    ensures { (result ≡ min room count) × (result ≤ room) × (result ≤ count) }
{
    if (room as usize) < count {
        return room as usize;
    }
    count
}

// Bytes sent to the buffer that starts here, below the limit: those that fit are copied at once; the write position after.
fn copy_fitting(buffers: &mut [u8], start: usize, limit: u8, position: u8, sent: &[u8]) -> u8
    requires { (start + limit ≤ length buffers.old) × (limit ≤ 64) × (position < limit) }
    ensures { filling buffers.new result
        ≡ stored_to start limit (filling buffers.old position) sent.now }
{
    let count = sent.len();
    let stored = fitting(limit - position, count);
    let at = start + position as usize;
    octets::copy(&sent[0..stored], &mut buffers[at..]);
    position + stored as u8
}

// Bytes sent to the buffer that starts here; the write position after. One alone, as most bursts have, costs less than a copy.
fn store_all(buffers: &mut [u8], start: usize, limit: u8, position: u8, sent: &[u8]) -> u8
    requires { (start + limit ≤ length buffers.old) × (limit ≤ 64) }
    ensures { filling buffers.new result
        ≡ stored_to start limit (filling buffers.old position) sent.now }
{
    if limit <= position {
        return position;
    }
    if sent.len() == 1 {
        buffers[start + position as usize] = sent[0];
        return position + 1;
    }
    copy_fitting(buffers, start, limit, position, sent)
}

// R0; `dav` where OUT0DAVIRQ=1.
pub fn write_ep0(mut endpoint: Endpoint0, dav: bool, sent: &[u8]) -> Endpoint0
    ensures { (c : Chip) → has c.registers.epirq out0davirq ≡ dav
        → set_ep0 result c ≡ burst_to max3420e_spi (set_ep0 endpoint c) true 0 sent.now }
{
    let mut buffer = endpoint.bytes;
    let limit = limit_of((endpoint.armed == 1) | dav);
    let position = store_all(&mut buffer, 0, limit, endpoint.writepos, sent);
    endpoint.bytes = buffer;
    endpoint.writepos = position;
    endpoint
}

// R2
pub fn write_ep2(mut endpoint: Endpoint2, sent: &[u8]) -> Endpoint2
    ensures { (c : Chip) → set_ep2 result c ≡ burst_to max3420e_spi (set_ep2 endpoint c) true 2 sent.now }
{
    let mut ring = endpoint.ring;
    let start = ring.next_buffer() * 64;
    let limit = limit_of(2 <= ring.waiting);
    let mut buffers = ring.bytes;
    let position = store_all(&mut buffers, start, limit, endpoint.writepos, sent);
    ring.bytes = buffers;
    endpoint.ring = ring;
    endpoint.writepos = position;
    endpoint
}

// R3
pub fn write_ep3(mut endpoint: Endpoint3, sent: &[u8]) -> Endpoint3
    ensures { (c : Chip) → set_ep3 result c ≡ burst_to max3420e_spi (set_ep3 endpoint c) true 3 sent.now }
{
    let mut buffer = endpoint.bytes;
    let limit = limit_of(endpoint.armed == 1);
    let position = store_all(&mut buffer, 0, limit, endpoint.writepos, sent);
    endpoint.bytes = buffer;
    endpoint.writepos = position;
    endpoint
}

// ---- reads

// A packet's byte, 0 past its end.
fn byte_at(packet: &[u8], position: u8) -> u8
    ensures { result ≡ get_or packet.now position 0 }
{
    if packet.len() <= position as usize {
        return 0;
    }
    packet[position as usize]
}

// The data bytes, one after the other; the read position after.
fn read_all(packet: &[u8], readpos: u8, bytes: &[u8], reply: &mut [u8]) -> u8
    requires { (length packet.now ≤ 64) × (0 < length bytes.now) × (length bytes.now ≤ length reply.old) }
    ensures { Burst (packet_spi packet.now) readpos result
        false 0 bytes.now reply.old reply.new }
{
    let end = packet.len() as u8;
    let mut position = readpos;
    for i in 1..bytes.len() {
        reply[i] = byte_at(packet, position);
        position = fifos::move_on(position, end);
    }
    position
}

// R0
pub fn read_ep0(mut endpoint: Endpoint0, bytes: &[u8], reply: &mut [u8]) -> Endpoint0
    requires { (endpoint.count ≤ 64) × (0 < length bytes.now) × (length bytes.now ≤ length reply.old) }
    ensures { (c : Chip)
        → Burst max3420e_spi (set_ep0 endpoint c) (set_ep0 result c) false 0 bytes.now reply.old reply.new }
{
    let buffer = endpoint.bytes;
    let end = endpoint.count as usize;
    let position = read_all(&buffer[..end], endpoint.readpos, bytes, reply);
    endpoint.readpos = position;
    endpoint
}

// R1
pub fn read_ep1(mut endpoint: Endpoint1, bytes: &[u8], reply: &mut [u8]) -> Endpoint1
    requires { (oldest_count 2 endpoint.ring ≤ 64) × (0 < length bytes.now) × (length bytes.now ≤ length reply.old) }
    ensures { (c : Chip)
        → Burst max3420e_spi (set_ep1 endpoint c) (set_ep1 result c) false 1 bytes.now reply.old reply.new }
{
    let ring = endpoint.ring;
    let start = (ring.oldest % 2) as usize * 64;
    let end = start + ring.oldest_count() as usize;
    let buffers = ring.bytes;
    let position = read_all(&buffers[start..end], endpoint.readpos, bytes, reply);
    endpoint.readpos = position;
    endpoint
}

// R4
pub fn read_setup(mut endpoint: Endpoint0, bytes: &[u8], reply: &mut [u8]) -> Endpoint0
    requires { (0 < length bytes.now) × (length bytes.now ≤ length reply.old) }
    ensures { (c : Chip)
        → Burst max3420e_spi (set_ep0 endpoint c) (set_ep0 result c) false 4 bytes.now reply.old reply.new }
{
    let setup = endpoint.setup;
    let position = read_all(&setup, endpoint.setuppos, bytes, reply);
    endpoint.setuppos = position;
    endpoint
}
