// Numbers in a slice, the low byte first; and runs of bytes put into one.
#![tactic(auto)]

ghost use Rattle.std.specs.Prelude.{◌≡◌, ◌+◌, ◌≤◌, length, drop};
ghost use Rattle.std.proofs.lemmas.List.Edits.{sets};
ghost use Rattle.little_endian.specs.Number.{little_endian, from_little_endian};

// A function for each width: no trait of std has the from_le_bytes and to_le_bytes of both types.
pub fn read_u16(bytes: &[u8], at: usize) -> u16
    requires { at + 2 ≤ length bytes.now }
    ensures { result ≡ from_little_endian 2 (drop at bytes.now) }
{
    u16::from_le_bytes([bytes[at], bytes[at + 1]])
}

pub fn read_u32(bytes: &[u8], at: usize) -> u32
    requires { at + 4 ≤ length bytes.now }
    ensures { result ≡ from_little_endian 4 (drop at bytes.now) }
{
    u32::from_le_bytes([bytes[at], bytes[at + 1], bytes[at + 2], bytes[at + 3]])
}

pub fn put_u16(output: &mut [u8], at: usize, number: u16)
    requires { at + 2 ≤ length output.old }
    ensures { output.new ≡ sets output.old at (little_endian 2 number) }
{
    put_bytes(output, at, &u16::to_le_bytes(number));
}

pub fn put_u32(output: &mut [u8], at: usize, number: u32)
    requires { at + 4 ≤ length output.old }
    ensures { output.new ≡ sets output.old at (little_endian 4 number) }
{
    put_bytes(output, at, &u32::to_le_bytes(number));
}

// A run of bytes.
pub fn put_bytes(output: &mut [u8], at: usize, run: &[u8])
    requires { at + length run.now ≤ length output.old }
    ensures { output.new ≡ sets output.old at run.now }
{
    output[at..at + run.len()].copy_from_slice(run);
}
