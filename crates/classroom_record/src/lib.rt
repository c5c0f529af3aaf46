// The classroom's record (document 02, Ask 3): sixteen desks, each with the records of its board, a session key, and whether it is open.
#![tactic(auto)]

ghost use Rattle.std.specs.Prelude.{◌≡◌, true};
ghost use Rattle.classroom_record.specs.Record.{closed_desk, all_closed, is_desk, is_open, desk_at, set_desk, key_among, key_in_use};
ghost use Rattle.classroom_record.specs.Record.{same_board, sound_desk};

use board_record::Board;

// The number of a desk: a kind of number of its own, as an endpoint's is (`model::EndpointNumber`).
#[derive(Clone, Copy)]
pub struct DeskNumber(pub u8);

// The record is laid out as C programs hold it (include/max3420e.h).
#[repr(C)]
#[derive(Clone, Copy)]
pub struct Desk {
    pub board: Board,
    pub opened: u8, // a flag: 1 is on, 0 is off
    pub key: u32, // 0 is none
}

#[repr(C)]
#[derive(Clone, Copy)]
pub struct Classroom {
    pub desks: [Desk; 16],
}

impl DeskNumber {
    // Whether there is such a desk.
    pub fn exists(self) -> bool
        ensures { result ≡ is_desk self }
    {
        self.0 < 16
    }
}

// Part by part, as in crate same.
fn same_board(a: Board, b: Board) -> bool
    ensures { result ≡ same_board a b }
{
    let x = a.chip;
    let y = b.chip;
    let f = a.firmware;
    let g = b.firmware;
    same::same_chip(x, y) & same::same_firmware(f, g)
}

impl Desk {
    pub fn closed() -> Self
        ensures { result ≡ closed_desk }
    {
        Desk {
            board: Board::power_on(),
            opened: 0,
            key: 0,
        }
    }

    // An open desk has sound records; a closed one those of power-on, and no key.
    #[tactic(auto, unfolding(crate::specs::Record::sound_desk))]
    pub fn is_sound(self) -> bool
        ensures { result ≡ sound_desk self }
    {
        let board = self.board;
        if self.opened == 1 {
            return board.is_sound();
        }
        let fresh = Board::power_on();
        same_board(board, fresh) & (self.opened == 0) & (self.key == 0)
    }
}

// Whether some open desk of these has that key.
fn key_among(desks: &[Desk], key: u32) -> bool
    ensures { result ≡ key_among desks.now key }
{
    for desk in desks {
        if (desk.opened == 1) & (desk.key == key) {
            return true;
        }
    }
    false
}

impl Classroom {
    pub const DESKS: usize = 16;

    // All sixteen desks start closed.
    pub fn start() -> Self
        ensures { result ≡ all_closed }
    {
        let desk = Desk::closed();
        let desks = [desk; 16];
        Classroom { desks }
    }

    // The desk of that number.
    pub fn desk_at(self, number: DeskNumber) -> Desk
        requires { is_desk number ≡ true }
        ensures { result ≡ desk_at self number }
    {
        let i = number.0 as usize;
        self.desks[i]
    }

    pub fn with_desk(mut self, number: DeskNumber, desk: Desk) -> Self
        requires { is_desk number ≡ true }
        ensures { result ≡ set_desk number desk self }
    {
        let i = number.0 as usize;
        self.desks[i] = desk;
        self
    }

    // Whether some open desk has that key.
    pub fn key_in_use(self, key: u32) -> bool
        ensures { result ≡ key_in_use self key }
    {
        key_among(&self.desks, key)
    }
}
