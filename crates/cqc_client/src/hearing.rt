// Hearing the replies to a message, each of which is printed.
ghost use Rattle.std.specs.Prelude.{◌≡◌, ℕ, List};
ghost use Rattle.qron_link.specs.Outside.{WasWritten};
ghost use Rattle.qron_link.specs.Transfers.{Took};
ghost use Rattle.cqc_client.specs.Stops.{HearsOne, Hears, ReadFaults, PrintFaults};

use crate::due::read_due;
use crate::lines::{is_last, line_of};
use crate::stops::Stop;
use qron_link::{Link, Sink, send};

// Reads a reply and prints its line, and says whether it is the last.
fn hear_one<L: Link, S: Sink>(
    link: &mut L,
    app: u16,
    out: &mut S,
    budget: &mut u64,
) -> Result<bool, Stop>
    ensures heard { (bytes : List ℕ) × (printed : List ℕ) × Took (L.left link.old) (L.left link.new) budget.old budget.new bytes
        × WasWritten (S.held out.old) printed (S.held out.new)
        × HearsOne result app bytes printed (L.left link.new) budget.new }
    ensures reads { ReadFaults result (L.read_faults link.old) (L.read_faults link.new) }
    ensures prints { PrintFaults result (S.write_faults out.old) (S.write_faults out.new) }
    ensures held { L.held link.new ≡ L.held link.old }
    ensures write_faults { L.write_faults link.new ≡ L.write_faults link.old }
    ensures led { L.was_led link.old link.new }
    ensures written { S.was_written out.old out.new }
{
    let reply = match read_due(link, app, budget) {
        Ok(reply) => reply,
        Err(stop) => return Err(stop),
    };
    match send(out, line_of(&reply).as_str().as_bytes()) {
        Ok(()) => Ok(is_last(&reply)),
        Err(_) => Err(Stop::NotPrinted),
    }
}

/// Reads the replies to a message up to its last one, and prints their lines.
pub(crate) fn hear<L: Link, S: Sink>(
    link: &mut L,
    app: u16,
    out: &mut S,
    budget: &mut u64,
) -> Result<(), Stop>
    ensures heard { (bytes : List ℕ) × (printed : List ℕ) × Took (L.left link.old) (L.left link.new) budget.old budget.new bytes
        × WasWritten (S.held out.old) printed (S.held out.new)
        × Hears result app bytes printed (L.left link.new) budget.new }
    ensures reads { ReadFaults result (L.read_faults link.old) (L.read_faults link.new) }
    ensures prints { PrintFaults result (S.write_faults out.old) (S.write_faults out.new) }
    ensures held { L.held link.new ≡ L.held link.old }
    ensures write_faults { L.write_faults link.new ≡ L.write_faults link.old }
    ensures led { L.was_led link.old link.new }
    ensures written { S.was_written out.old out.new }
{
    let mut last = false;
    while !last {
        match hear_one(link, app, out, budget) {
            Ok(is_last) => last = is_last,
            Err(stop) => return Err(stop),
        }
    }
    Ok(())
}
