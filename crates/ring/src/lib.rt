// The two buffers of a double-buffered endpoint, which serve in turn. A function has the name of the definition that its
// promise cites; what it requires, the rule that makes the operation has tested.
#![tactic(auto)]

ghost use Rattle.std.specs.Prelude.{◌≡◌, ◌++◌, ◌<◌, ◌≤◌, length, get_or, drop};
ghost use Rattle.ring.specs.Ring.{empty_ring, drained, sound_ring, next_buffer, oldest_count};
ghost use Rattle.ring.specs.Ring.{oldest_packet, store_byte, arm_next, fill_next, release_oldest};

#[repr(C)]
#[derive(Clone, Copy, PartialEq, Eq)]
pub struct Ring {
    // Buffer i stands at 64 * i.
    pub bytes: [u8; 128],
    // The bytes of each buffer's packet.
    pub counts: [u8; 2],
    // The buffer of the oldest waiting packet, or the next to be filled where none waits.
    pub oldest: u8,
    pub waiting: u8,
}

impl Ring {
    pub fn empty() -> Self
        ensures { result ≡ empty_ring }
    {
        Ring {
            bytes: [0u8; 128],
            counts: [0u8; 2],
            oldest: 0,
            waiting: 0,
        }
    }

    pub fn drained(mut self) -> Self
        ensures { result ≡ drained self }
    {
        self.counts = [0u8; 2];
        self.oldest = 0;
        self.waiting = 0;
        self
    }

    pub fn is_sound(self) -> bool
        ensures { result ≡ sound_ring 2 self }
    {
        (self.counts[0] <= 64) & (self.counts[1] <= 64) & (self.oldest < 2) & (self.waiting <= 2)
    }

    // The buffer to be filled next.
    pub fn next_buffer(self) -> usize
        ensures { (result ≡ next_buffer 2 self) × (result < 2) }
    {
        (self.oldest as usize + self.waiting as usize) % 2
    }

    // The byte at a position of the next buffer.
    pub fn store_byte(mut self, position: u8, byte: u8) -> Self
        requires { position < 64 }
        ensures { result ≡ store_byte 2 self position byte }
    {
        let at = self.next_buffer() * 64 + position as usize;
        self.bytes[at] = byte;
        self
    }

    // The next buffer's first bytes, as they stand, wait. Here and in `oldest_count`, two constant places instead of an index keep
    // the counts out of memory: a ring indexed by a variable is copied whole.
    pub fn arm_next(mut self, count: u8) -> Self
        requires { self.waiting < 2 }
        ensures { result ≡ arm_next 2 self count }
    {
        if self.next_buffer() == 0 {
            self.counts[0] = count;
        } else {
            self.counts[1] = count;
        }
        self.waiting = self.waiting + 1;
        self
    }

    // A payload at the next buffer's start waits.
    pub fn fill_next(mut self, payload: &[u8]) -> Self
        requires { (length payload.now ≤ 64) × (self.waiting < 2) }
        ensures { result ≡ fill_next 2 self payload.now }
    {
        let start = self.next_buffer() * 64;
        let mut buffers = self.bytes;
        let count = octets::copy(payload, &mut buffers[start..]);
        self.bytes = buffers;
        self.arm_next(count as u8)
    }

    pub fn release_oldest(mut self) -> Self
        ensures { result ≡ release_oldest 2 self }
    {
        if 0 < self.waiting {
            self.oldest = ((self.oldest as usize + 1) % 2) as u8;
            self.waiting = self.waiting - 1;
        }
        self
    }

    pub fn oldest_count(self) -> u8
        ensures { result ≡ oldest_count 2 self }
    {
        if self.waiting == 0 {
            return 0;
        }
        if self.oldest % 2 == 0 {
            return self.counts[0];
        }
        self.counts[1]
    }

    // The byte at a position of the oldest waiting packet, 0 past its end.
    pub fn oldest_byte(self, position: u8) -> u8
        ensures { result ≡ get_or (oldest_packet 2 self) position 0 }
    {
        if self.oldest_count() <= position {
            return 0;
        }
        let at = (self.oldest % 2) as usize * 64 + position as usize;
        if 128 <= at {
            return 0;
        }
        self.bytes[at]
    }

    // The oldest waiting packet goes to the front of a lent buffer; how many bytes that is.
    pub fn copy_oldest(self, reply: &mut [u8]) -> usize
        requires { (oldest_count 2 self ≤ 64) × (64 ≤ length reply.old) }
        ensures { (result ≡ oldest_count 2 self) × (reply.new ≡ oldest_packet 2 self ++ drop result reply.old) }
    {
        let start = (self.oldest % 2) as usize * 64;
        let end = start + self.oldest_count() as usize;
        let buffers = self.bytes;
        octets::copy(&buffers[start..end], reply)
    }
}
