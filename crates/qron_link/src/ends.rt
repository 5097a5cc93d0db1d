// Readers and writers that can be the ends of a pipe.
use std::io::{Cursor, Read, Stdin, Stdout, Write};

/// A reader that tells the bytes that it will give always, or never.
pub trait Reader: Read + Drop {
    ghost use Rattle.std.specs.Prelude.{◌≡◌, None};

    /// Where it doesn't tell them once, it never does.
    ghost untold: { (a b : Self) → Self.remaining a ≡ None → Self.remaining b ≡ None };
}

/// A writer that tells the bytes that it was given always, or never.
pub trait Writer: Write + Drop {
    ghost use Rattle.std.specs.Prelude.{◌≡◌, None};

    /// Where it doesn't tell them once, it never does.
    ghost untold: { (a b : Self) → Self.contents a ≡ None → Self.contents b ≡ None };
}

// Standard input and output tell nothing.
impl Reader for Stdin {
    ghost use Rattle.std.specs.Prelude.{refl};

    ghost untold = { λ _ _ _. refl };
}

impl Writer for Stdout {
    ghost use Rattle.std.specs.Prelude.{refl};

    ghost untold = { λ _ _ _. refl };
}

// Bytes in memory are told.
impl Reader for Cursor<Vec<u8>> {
    ghost use Rattle.std.proofs.Common.{rules};

    ghost untold = { λ a b e. Prim.search rules };
}

impl Writer for Vec<u8> {
    ghost use Rattle.std.proofs.Common.{rules};

    ghost untold = { λ a b e. Prim.search rules };
}
