// The descriptors and the other data that a request reads, and how they are sent (document 01, "The firmware").
#![tactic(auto)]

ghost use Rattle.std.specs.Prelude.{◌≡◌, ◌≤◌, length};
ghost use Rattle.descriptor.specs.Table.{data_bytes};
ghost use Rattle.descriptor.specs.Send.{Sent};

// What a request reads: a status byte and a zero, one byte, or a descriptor; a string goes by its index.
#[derive(Clone, Copy)]
pub enum Data {
    Status(u8),
    Byte(u8),
    Device,
    Configuration,
    Hid,
    Report,
    String(u8),
}

const DEVICE: [u8; 18] =
    *b"\x12\x01\x00\x01\x00\x00\x00\x40\x6A\x0B\x46\x53\x34\x12\x01\x02\x03\x01";

// The configuration, its interface, the HID descriptor and endpoint 83.
const CONFIGURATION: [u8; 34] = *b"\x09\x02\x22\x00\x01\x01\x00\xE0\x01\
    \x09\x04\x00\x00\x01\x03\x00\x00\x00\
    \x09\x21\x10\x01\x00\x01\x22\x2B\x00\
    \x07\x05\x83\x03\x40\x00\x0A";

const REPORT: [u8; 43] =
    *b"\x05\x01\x09\x06\xA1\x01\x05\x07\x19\xE0\x29\xE7\x15\x00\x25\x01\x75\x01\x95\x08\x81\x02\
    \x95\x01\x75\x08\x81\x01\x19\x00\x29\x65\x15\x00\x25\x65\x75\x08\x95\x01\x81\x00\xC0";

// How many string descriptors there are, from index 0.
pub const STRINGS: u8 = 4;

const LANGUAGES: [u8; 4] = *b"\x04\x03\x09\x04";

const MANUFACTURER: [u8; 12] = *b"\x0C\x03M\0a\0x\0i\0m\0";

const PRODUCT: [u8; 38] = *b"\x26\x03M\0A\0X\03\04\02\00\0E\0 \0E\0n\0u\0m\0 \0C\0o\0d\0e\0";

const SERIAL_NUMBER: [u8; 20] = *b"\x14\x03S\0/\0N\0 \03\04\02\00\0E\0";

// The 64 bytes stand in each promise: the buffer is lent by the call's caller, C programs too, and a type round it would only say them again.
// Copies the first bytes of a table, at most wLength, to the start of the reply buffer, and tells how many.
fn copy(table: &[u8], wlength: u16, reply: &mut [u8]) -> u8
    requires { (length table.now ≤ 64) × (64 ≤ length reply.old) }
    ensures { Sent table.now wlength reply.old result reply.new }
{
    let n = (wlength as usize).min(table.len());
    octets::copy(&table[..n], reply);
    n as u8
}

// The same of a string descriptor; an index that does not exist has no bytes.
fn copy_string(index: u8, wlength: u16, reply: &mut [u8]) -> u8
    requires { 64 ≤ length reply.old }
    ensures { Sent (data_bytes (Data.String index)) wlength reply.old result reply.new }
{
    match index {
        0 => copy(&LANGUAGES, wlength, reply),
        1 => copy(&MANUFACTURER, wlength, reply),
        2 => copy(&PRODUCT, wlength, reply),
        3 => copy(&SERIAL_NUMBER, wlength, reply),
        4..=255 => 0,
    }
}

impl Data {
    // Writes what is read to the reply buffer, at most wLength bytes of it, and tells how many.
    pub fn send(self, wlength: u16, reply: &mut [u8]) -> u8
        requires { 64 ≤ length reply.old }
        ensures { Sent (data_bytes self) wlength reply.old result reply.new }
    {
        match self {
            Data::Status(b) => copy(&[b, 0], wlength, reply),
            Data::Byte(b) => copy(&[b], wlength, reply),
            Data::Device => copy(&DEVICE, wlength, reply),
            Data::Configuration => copy(&CONFIGURATION, wlength, reply),
            Data::Hid => copy(&CONFIGURATION[18..27], wlength, reply),
            Data::Report => copy(&REPORT, wlength, reply),
            Data::String(index) => copy_string(index, wlength, reply),
        }
    }
}
