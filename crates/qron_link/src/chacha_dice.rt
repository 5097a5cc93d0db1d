// Dice over the ChaCha20 generator.
ghost use Rattle.std.specs.Prelude.{◌≡◌, ◌*◌};
ghost use Rattle.rand_chacha.specs.ChaCha.{key_of};
ghost use Rattle.qron_link.specs.Dices.{Drawn, stream_number};

use crate::Dice;
use rand_chacha::ChaCha20Rng;
use rand_core::SeedableRng;
use rand_core::utils::next_u64_via_u32;
use std::marker::Model;

/// Dice over ChaCha20. The seed is the key.
///
/// A connection has the stream numbered `seat * 2^32 + serial`, and each of its words is made of two 32-bit words of the
/// stream, the low half first.
#[derive(Drop)]
pub struct ChaChaDice {
    seed: [u8; 32],
    generator: ChaCha20Rng,
    seat: u16,
    serial: u16,
    taken: u64,
}

impl Model for ChaChaDice {
    ghost Value = { Drawn };

    ghost view = { λ d. record { key = d.seed; seat = d.seat; serial = d.serial; taken = d.taken } };

    ghost invariant = { λ d. d.generator ≡ record { key = key_of d.seed; stream = stream_number d.seat d.serial; word_pos = 2 * d.taken } };
}

impl ChaChaDice {
    /// Dice that stand at the first word of connection (0, 0).
    pub fn new(seed: [u8; 32]) -> ChaChaDice
        ensures { result ≡ record { key = seed; seat = 0; serial = 0; taken = 0 } }
    {
        ChaChaDice {
            seed,
            generator: ChaCha20Rng::from_seed(seed),
            seat: 0,
            serial: 0,
            taken: 0,
        }
    }
}

impl Dice for ChaChaDice {
    ghost use Rattle.qron_link.specs.Dices.{chacha_word};

    ghost word = { chacha_word };

    ghost key = { λ d. d.key };

    ghost begun_seat = { λ d. d.seat };

    ghost begun_serial = { λ d. d.serial };

    ghost taken = { λ d. d.taken };

    // A stream is taken up at the place where the last one was left, so the place is set too.
    fn begin(&mut self, seat: u16, serial: u16) {
        self.generator
            .set_stream((u64::from(seat) << 32) + u64::from(serial));
        self.generator.set_word_pos(0);
        self.seat = seat;
        self.serial = serial;
        self.taken = 0;
    }

    fn next(&mut self) -> u64 {
        self.taken += 1;
        next_u64_via_u32(&mut self.generator)
    }
}
