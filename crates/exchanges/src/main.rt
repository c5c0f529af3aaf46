// Exchanges of a host with the chip: control transfers of each kind, SET_ADDRESS, double buffering both ways with lost ACKs and wrong
// toggles, suspend, activity, a bus reset in the middle, and refusals. What the microcontroller does over SPI is done to the
// record by hand. Writes each event with its reply.
#![tactic(auto)]

use chip::Chip;
use model::EndpointNumber;
use output::Bytes;

type Host<'a, R> = host::Host<'a, R, Chip>;

const EP0: EndpointNumber = EndpointNumber(0);

const EP1: EndpointNumber = EndpointNumber(1);

const EP2: EndpointNumber = EndpointNumber(2);

// ---- what the host sends

fn send_out(host: &mut Host<impl Print>, endpoint: EndpointNumber, data1: bool, payload: &[u8]) {
    let number = Bytes(&[endpoint.0]);
    let toggle = data1 as u8;
    let bytes = Bytes(payload);
    host.send_out(
        format_args!("  OUT{number} DATA{toggle}{bytes}"),
        0,
        endpoint,
        data1,
        payload,
    );
}

fn send_in(host: &mut Host<impl Print>, address: u8, endpoint: EndpointNumber, acknowledged: bool) {
    let number = Bytes(&[endpoint.0]);
    let lost = if acknowledged { "" } else { " (ACK lost)" };
    host.send_in(
        format_args!("  IN{number}{lost}"),
        address,
        endpoint,
        acknowledged,
    );
}

// ---- the microcontroller, by hand

// ACKSTAT: the status stage is to be acknowledged.
fn acknowledge(chip: &mut Chip) {
    chip.registers.epstalls |= Chip::ACKSTAT;
}

// R0 and R5: endpoint 0 is armed with so many bytes.
fn arm_ep0(chip: &mut Chip, byte: u8, count: u8) {
    chip.ep0.bytes = [byte; 64];
    chip.ep0.count = count;
    chip.ep0.armed = 1;
    chip.registers.epirq &= !Chip::IN0BAVIRQ;
}

// R11: the packet at endpoint 0 is read.
fn clear_out0(chip: &mut Chip) {
    chip.registers.epirq &= !Chip::OUT0DAVIRQ;
}

// R2 and R7: endpoint 2 is armed with one byte.
fn arm_ep2(chip: &mut Chip, byte: u8) {
    let ring = chip.ep2.ring;
    if 2 <= ring.waiting {
        return;
    }
    if ring.waiting == 1 {
        chip.registers.epirq &= !Chip::IN2BAVIRQ;
    }
    chip.ep2.ring = ring.store_byte(0, byte).arm_next(1);
    chip.ep2.count = 1;
}

// R11: the older packet at endpoint 1 is released.
fn release_ep1(chip: &mut Chip) {
    let ring = chip.ep1.ring;
    if ring.waiting <= 1 {
        chip.registers.epirq &= !Chip::OUT1DAVIRQ;
    }
    chip.ep1.ring = ring.release_oldest();
}

// ---- the exchanges

// The oscillator is stable, and the microcontroller connects: R15.
fn start(host: &mut Host<impl Print>) {
    host.say("power\n");
    host.signal("  oscillator stable", 2);
    host.signal("  suspend, not connected", 8);
    host.device.registers.usbctl = Chip::CONNECT;
}

fn read_descriptor(host: &mut Host<impl Print>) {
    host.say("control read\n");
    host.setup(0, b"\x80\x06\x00\x01\x00\x00\x12\x00");
    send_in(host, 0, EP0, true);
    host.say("  -- 3 bytes are armed\n");
    arm_ep0(&mut host.device, 0xA1, 3);
    send_in(host, 0, EP0, false);
    send_in(host, 0, EP0, true);
    send_out(host, EP0, true, b"");
    host.say("  -- ACKSTAT is set\n");
    acknowledge(&mut host.device);
    send_out(host, EP0, true, b"");
}

fn write_report(host: &mut Host<impl Print>) {
    host.say("control write\n");
    host.setup(0, b"\x21\x09\x00\x02\x00\x00\x04\x00");
    send_out(host, EP0, true, b"\x11\x22");
    send_out(host, EP0, false, b"\x33\x44");
    host.say("  -- the packet is read\n");
    clear_out0(&mut host.device);
    send_out(host, EP0, true, b"\x11\x22");
    send_out(host, EP0, false, b"\x33\x44");
    send_in(host, 0, EP0, true);
    host.say("  -- ACKSTAT is set\n");
    acknowledge(&mut host.device);
    send_in(host, 0, EP0, true);
}

fn set_address(host: &mut Host<impl Print>) {
    host.say("SET_ADDRESS 5, no data\n");
    host.setup(0, b"\x00\x05\x05\x00\x00\x00\x00\x00");
    acknowledge(&mut host.device);
    send_in(host, 0, EP0, false);
    host.say("  -- the ACK was lost: still address 0\n");
    send_in(host, 5, EP0, true);
    send_in(host, 0, EP0, true);
    host.say("  -- address 5: nothing at 0, and at 5 nothing is armed\n");
    send_in(host, 0, EP2, true);
    send_in(host, 5, EP2, true);
}

fn buffer_in(host: &mut Host<impl Print>) {
    host.say("double buffering, IN\n");
    arm_ep2(&mut host.device, 0x01);
    arm_ep2(&mut host.device, 0x02);
    send_in(host, 5, EP2, false);
    send_in(host, 5, EP2, true);
    arm_ep2(&mut host.device, 0x03);
    send_in(host, 5, EP2, true);
    send_in(host, 5, EP2, true);
    send_in(host, 5, EP2, true);
}

fn reset_bus(host: &mut Host<impl Print>) {
    host.say("suspend, activity, and a bus reset with a packet armed\n");
    arm_ep2(&mut host.device, 0x04);
    host.signal("  suspend", 8);
    host.signal("  activity", 9);
    host.signal("  bus reset start", 6);
    host.signal("  bus reset end", 7);
    send_in(host, 5, EP2, true);
    send_in(host, 0, EP2, true);
}

fn buffer_out(host: &mut Host<impl Print>) {
    host.say("double buffering, OUT\n");
    send_out(host, EP1, false, b"\x0A");
    send_out(host, EP1, false, b"\x0A");
    send_out(host, EP1, true, b"\x0B");
    send_out(host, EP1, false, b"\x0C");
    host.say("  -- the older packet is released\n");
    release_ep1(&mut host.device);
    send_out(host, EP1, false, b"\x0C");
    send_out(host, EP2, false, b"\x0D");
}

fn refusals(host: &mut Host<impl Print>) {
    host.say("refused\n");
    let sound = host.device;
    host.device.registers.epstalls = 0x80;
    host.signal("  a record that is not sound", 8);
    host.device = sound;
    host.signal("  event 13", 13);
    host.send_out("  OUT of 65 bytes", 0, EP1, false, &[0u8; 65]);
    host.setup(0, b"\x80\x06");
    host.say("  -- at address 128\n");
    host.setup(128, b"\x80\x06");
    host.setup(128, b"\x80\x06\x00\x01\x00\x00\x12\x00");
}

fn main(rt: HostRuntime) {
    let mut host = Host {
        rt: &rt,
        device: Chip::power_on(),
    };
    start(&mut host);
    read_descriptor(&mut host);
    write_report(&mut host);
    set_address(&mut host);
    buffer_in(&mut host);
    reset_bus(&mut host);
    buffer_out(&mut host);
    refusals(&mut host);
}
