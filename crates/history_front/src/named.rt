// Names of histories.
use std::marker::Brand;

/// Which table a value belongs to, so that a value behind a lock is known by its type alone. All values of one name
/// belong to one table; whoever opens a history picks it.
pub trait Named {
    ghost use Rattle.atomic_table.specs.Seated.{TableId};

    ghost table: { TableId };
}

impl Named for Brand {
    ghost use Rattle.std.specs.Prelude.{[]};

    ghost table = { record { words = 0; slots = 0; views_name = 0; atom = 0; block = 0; offset = 0; slot_names = [] } };
}
