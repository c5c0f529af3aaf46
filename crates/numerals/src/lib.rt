// Numbers as text: hex bytes of one or two digits, decimal numbers, keys of one to eight hex digits.
#![tactic(auto)]

ghost use Rattle.std.specs.Prelude.{◌≡◌, ℕ, ◌<◌, ◌≤◌, Option};
ghost use Rattle.numerals.specs.Numerals.{digit_of, byte_of, grown, digits_of, number_of, hex_key_of};

// How a number takes in one more digit of a base. There is none where it does not fit.
pub trait Growth {
    ghost taken: { ℕ → ℕ → ℕ → Option ℕ };

    fn take(number: u32, digit: u32, base: u32) -> Option<u32>
        requires { (digit < base) × (base ≤ 16) }
        ensures { result ≡ taken base number digit };
}

// A number that is too large counts as some number over 2 to the 28: from there on it stays.
pub struct Capped;

impl Growth for Capped {
    ghost taken = { grown };

    fn take(number: u32, digit: u32, base: u32) -> Option<u32> {
        if number < 268435456 {
            Some(number * base + digit)
        } else {
            Some(number)
        }
    }
}

fn digit_of(glyph: u8, base: u32) -> Option<u32>
    requires { (2 ≤ base) × (base ≤ 16) }
    ensures { result ≡ digit_of base glyph }
{
    char::from(glyph).to_digit(base)
}

// One or two hex digits.
#[tactic(auto, unfolding(crate::specs::Numerals::byte_of))]
pub fn read_byte(word: &[u8]) -> Option<u8>
    ensures { result ≡ byte_of word.now }
{
    let (high, low) = match word {
        [low] => (0, digit_of(*low, 16)?),
        [high, low] => (digit_of(*high, 16)?, digit_of(*low, 16)?),
        _ => return None,
    };
    Some((high * 16 + low) as u8)
}

// Digits of a base, at least one.
#[tactic(auto, unfolding(crate::specs::Numerals::digits_of))]
pub fn read_digits<G: Growth>(word: &[u8], base: u32) -> Option<u32>
    requires { (2 ≤ base) × (base ≤ 16) }
    ensures { result ≡ digits_of G.taken base word.now }
{
    if word.is_empty() {
        return None;
    }
    let mut number = 0;
    for glyph in word {
        number = G::take(number, digit_of(*glyph, base)?, base)?;
    }
    Some(number)
}

pub fn read_decimal(word: &[u8]) -> Option<u32>
    ensures { result ≡ number_of 10 word.now }
{
    read_digits::<Capped>(word, 10)
}

// A key: one to eight hex digits.
#[tactic(auto, unfolding(crate::specs::Numerals::hex_key_of))]
pub fn read_key(word: &[u8]) -> Option<u32>
    ensures { result ≡ hex_key_of word.now }
{
    if 8 < word.len() {
        return None;
    }
    read_digits::<Capped>(word, 16)
}
