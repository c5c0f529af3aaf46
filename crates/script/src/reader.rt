// What is left of a line, read word by word: each word is what is expected, or the fault.
ghost use Rattle.std.specs.Prelude.{◌≡◌, ◌≤◌, length, IfOk};
ghost use Rattle.script.specs.Reader.{left, NoLonger};

use words::Words;

// What was expected, and the word that is something else; none where the line ends.
#[derive(Clone, Copy)]
pub struct Fault<'a> {
    pub expected: Expected,
    pub word: Option<&'a [u8]>,
}

#[derive(Clone, Copy)]
pub enum Expected {
    Line,
    Byte,
    Switch,
    Edge,
    Pins,
    Code,
    Address,
    Endpoint,
    Toggle,
    Room,
    End,
    // In a classroom: the line's start, a desk's number, a key.
    Order,
    Desk,
    Key,
    // In the script of a lesson: the line's start, a tick.
    Entry,
    Tick,
}

#[derive(Clone, Copy)]
pub struct Reader<'a> {
    pub words: Words<'a>,
}

impl<'a> Reader<'a> {
    pub fn new(line: &'a [u8]) -> Self
        ensures { left result ≡ line.now }
    {
        Reader {
            words: Words { rest: line },
        }
    }

    pub fn word(&mut self) -> Option<&'a [u8]>
        ensures { NoLonger self.old self.new }
    {
        self.words.next()
    }

    // The next word, as what it is taken for.
    pub fn read<T, F: FnOnce(&[u8]) -> Option<T>>(
        &mut self,
        expected: Expected,
        take: F,
    ) -> Result<T, Fault<'a>>
        requires { F.IsAlwaysCallable take }
        ensures { NoLonger self.old self.new }
    {
        let word = self.words.next();
        match word.and_then(take) {
            Some(taken) => Ok(taken),
            None => Err(Fault { expected, word }),
        }
    }

    pub fn byte(&mut self, expected: Expected) -> Result<u8, Fault<'a>>
        ensures { NoLonger self.old self.new }
    {
        self.read(expected, numerals::read_byte)
    }

    pub fn number(&mut self, expected: Expected) -> Result<u32, Fault<'a>>
        ensures { NoLonger self.old self.new }
    {
        self.read(expected, numerals::read_decimal)
    }

    pub fn key(&mut self, expected: Expected) -> Result<u32, Fault<'a>>
        ensures { NoLonger self.old self.new }
    {
        self.read(expected, numerals::read_key)
    }

    // Passes over a word that may stand there, and says whether it does.
    pub fn accept(&mut self, name: &[u8]) -> bool
        ensures { NoLonger self.old self.new }
    {
        let mut ahead = self.words;
        match ahead.next() {
            Some(word) if word == name => {
                self.words = ahead;
                true
            }
            _ => false,
        }
    }

    // The bytes to the line's end; how many. Each takes a place of the line at least, so that they fit.
    pub fn bytes(&mut self, bytes: &mut [u8]) -> Result<usize, Fault<'a>>
        requires { length (left self.old) ≤ length bytes.old }
        ensures { IfOk result (λ count. count ≤ length bytes.old) }
    {
        let mut count = 0;
        while let Some(word) = self.words.next() {
            let Some(byte) = numerals::read_byte(word) else {
                return Err(Fault {
                    expected: Expected::Byte,
                    word: Some(word),
                });
            };
            bytes[count] = byte;
            count += 1;
        }
        Ok(count)
    }

    // Nothing more stands in the line.
    pub fn end(self) -> Result<(), Fault<'a>> {
        let mut words = self.words;
        match words.next() {
            None => Ok(()),
            word => Err(Fault {
                expected: Expected::End,
                word,
            }),
        }
    }
}
