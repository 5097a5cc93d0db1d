// Why a line isn't taken.
ghost use Rattle.std.specs.Prelude.{◌≡◌};

use std::alloc::{AllocError, AllocFailed};

/// Why a line isn't taken: memory was short, which says nothing of the line, or the line is refused.
#[derive(Clone, Copy, PartialEq, Eq, Debug, Drop)]
pub enum LineFault<Why> {
    OutOfMemory,
    Refused(Why),
}

impl<Why> From<AllocError> for LineFault<Why> {
    ghost use Rattle.text_lines.specs.declared.fault.LineFault.TheVariants.{OutOfMemory};

    ghost from_gives = { λ _ e. e ≡ OutOfMemory };

    fn from(_: AllocError) -> LineFault<Why> {
        LineFault::OutOfMemory
    }
}

impl<T: Drop, Why> From<AllocFailed<T>> for LineFault<Why> {
    ghost use Rattle.text_lines.specs.declared.fault.LineFault.TheVariants.{OutOfMemory};

    ghost from_gives = { λ _ e. e ≡ OutOfMemory };

    fn from(_: AllocFailed<T>) -> LineFault<Why> {
        LineFault::OutOfMemory
    }
}
