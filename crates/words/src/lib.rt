// The words of a line, which blanks and tabs set apart, and which part of a line counts.
#![tactic(auto)]

ghost use Rattle.std.specs.Prelude.{◌≡◌, ◌≤◌, length, take, position};
ghost use Rattle.std.specs.Iterator.{at_most};
ghost use Rattle.words.specs.Words.{is_blank, is_glyph, NextWord};

// The words from a place of a line on.
#[derive(Clone, Copy)]
pub struct Words<'a> {
    pub rest: &'a [u8],
}

fn is_blank(byte: u8) -> bool
    ensures { result ≡ is_blank byte }
{
    (byte == b' ') | (byte == b'\t')
}

fn find_word(line: &[u8]) -> Option<usize>
    ensures { result ≡ position is_glyph line.now }
{
    line.iter().position(|byte| !is_blank(*byte))
}

fn find_blank(line: &[u8]) -> Option<usize>
    ensures { result ≡ position is_blank line.now }
{
    line.iter().position(|byte| is_blank(*byte))
}

impl<'a> Iterator for Words<'a> {
    type Item = &'a [u8];

    ghost next_gives = { NextWord };

    ghost remaining = { λ s. at_most (length s.rest.now) };

    #[tactic(auto, using(crate::proofs::Blanks::word_starts))]
    fn next(&mut self) -> Option<&'a [u8]> {
        let start = find_word(self.rest)?;
        let from = &self.rest[start..];
        let (word, rest) = from.split_at(find_blank(from).unwrap_or(from.len()));
        self.rest = rest;
        Some(word)
    }
}

// A line without the CR at its end.
pub fn without_return(line: &[u8]) -> &[u8]
    ensures { (result.now ≡ take (length result.now) line.now) × (length result.now ≤ length line.now) }
{
    line.strip_suffix(b"\r").unwrap_or(line)
}

// The part of a line that counts: what stands before a comment, or before the CR at its end.
pub fn content(line: &[u8]) -> &[u8]
    ensures { (result.now ≡ take (length result.now) line.now) × (length result.now ≤ length line.now) }
{
    let text = without_return(line);
    match text.iter().position(|byte| *byte == b'#') {
        Some(at) => &text[..at],
        None => text,
    }
}
