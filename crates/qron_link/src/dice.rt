// Dice, and dice that give the words of a list.
ghost use Rattle.std.specs.Prelude.{◌≡◌, ℕ, ◌+◌, ◌<◌, ◌^◌, List};
ghost use Rattle.qron_link.specs.Dices.{Drawn};

use std::marker::Model;

/// What gives each connection its random words.
pub trait Dice {
    /// The k-th word of a connection, its seat and serial, under a key.
    ghost word: { List ℕ → ℕ → ℕ → ℕ → ℕ };

    /// The key, which no call changes.
    ghost key: { Self → List ℕ };

    /// The connection begun last, and how many of its words were taken.
    ghost begun_seat: { Self → ℕ };

    ghost begun_serial: { Self → ℕ };

    ghost taken: { Self → ℕ };

    /// From here on the words of this connection are given, from its first.
    fn begin(&mut self, seat: u16, serial: u16)
        ensures key { key self.new ≡ key self.old }
        ensures seat { begun_seat self.new ≡ seat }
        ensures serial { begun_serial self.new ≡ serial }
        ensures taken { taken self.new ≡ 0 };

    /// The next word of the connection.
    fn next(&mut self) -> u64
        requires { taken self.old < 2 ^ 63 }
        ensures word { result ≡ word (key self.old) (begun_seat self.old) (begun_serial self.old) (taken self.old) }
        ensures key { key self.new ≡ key self.old }
        ensures seat { begun_seat self.new ≡ begun_seat self.old }
        ensures serial { begun_serial self.new ≡ begun_serial self.old }
        ensures taken { taken self.new ≡ taken self.old + 1 };
}

/// The same words for every connection, in order, and then 0 for ever. The list of words is the key.
#[derive(Drop)]
pub struct ListDice {
    words: Vec<u64>,
    seat: u16,
    serial: u16,
    taken: u64,
}

impl Model for ListDice {
    ghost Value = { Drawn };

    ghost view = { λ d. record { key = d.words.items; seat = d.seat; serial = d.serial; taken = d.taken } };
}

impl ListDice {
    /// Dice that stand at the first word of connection (0, 0).
    pub fn new(words: Vec<u64>) -> ListDice
        ensures { result ≡ record { key = words.items; seat = 0; serial = 0; taken = 0 } }
    {
        ListDice {
            words,
            seat: 0,
            serial: 0,
            taken: 0,
        }
    }
}

impl Dice for ListDice {
    ghost use Rattle.qron_link.specs.Dices.{list_word};

    ghost word = { list_word };

    ghost key = { λ d. d.key };

    ghost begun_seat = { λ d. d.seat };

    ghost begun_serial = { λ d. d.serial };

    ghost taken = { λ d. d.taken };

    fn begin(&mut self, seat: u16, serial: u16) {
        self.seat = seat;
        self.serial = serial;
        self.taken = 0;
    }

    fn next(&mut self) -> u64 {
        let place = self.taken as usize;
        self.taken += 1;
        self.words.get(place).copied().unwrap_or(0)
    }
}
