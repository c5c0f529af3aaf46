// Runs of bytes: copied to where there is room, searched for a byte.
#![tactic(auto)]

ghost use Rattle.std.specs.Prelude.{◌≡◌, ◌+◌, ◌++◌, ◌≤◌, ◌==◌, length, drop, position, slice_range, MatchOption};

// Copies a run to the front of a lent buffer; how many bytes that is.
pub fn copy(from: &[u8], to: &mut [u8]) -> usize
    requires { length from.now ≤ length to.old }
    ensures count { result ≡ length from.now }
    ensures copied { to.new ≡ from.now ++ drop (length from.now) to.old }
{
    to[..from.len()].copy_from_slice(from);
    from.len()
}

// The first place of a byte in a run.
pub fn place_of(run: &[u8], byte: u8) -> Option<usize>
    ensures { result ≡ position (λ b. b == byte) run.now }
{
    run.iter().position(|b| *b == byte)
}

// The first place of a byte from one place on and before another, which is answered where there is none.
pub fn find(run: &[u8], start: usize, end: usize, byte: u8) -> usize
    requires { (start ≤ end) × (end ≤ length run.now) }
    ensures within { (start ≤ result) × (result ≤ end) }
    ensures first { MatchOption (position (λ b. b == byte) (slice_range run.now start end)) (result ≡ end)
        (λ i. result ≡ start + i) }
{
    match place_of(&run[start..end], byte) {
        Some(i) => start + i,
        None => end,
    }
}
