// What contracts see of links.
use qron_link::Link;

/// What contracts see of a link.
pub trait Told {
    ghost use Rattle.cqc_server.specs.Watch.{LinkSeen};

    ghost seen: { Self → LinkSeen };
}

impl<L: Link> Told for L {
    ghost seen = { λ link. record { left = L.left link; held = L.held link; read_faults = L.read_faults link; write_faults = L.write_faults link } };
}
