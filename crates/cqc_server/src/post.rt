// Where a worker's connections come from.
use crate::told::Told;
use qron_link::{Dice, Door, Patience};

/// Where a worker's connections come from, and what it serves them with.
#[derive(Drop)]
pub struct Post<D, W, P> {
    /// The node of its connections, by its place in the settings, from 0.
    pub node: u8,
    /// What hands out the links of its connections.
    pub door: D,
    /// The random words of its connections.
    pub dice: W,
    /// How often a RECV or EPR_RECV of its connections looks again.
    pub patience: P,
}

/// What contracts see of a post, and of the links that its door hands out.
pub trait Posted {
    ghost use Rattle.cqc_server.specs.Watch.{Watch};

    type Link;

    ghost watch: { Watch Self Self.Link };
}

impl<D: Door, W: Dice, P: Patience> Posted for Post<D, W, P> {
    type Link = D::Link;

    ghost watch = { record {
      word = W.word;
      post = λ p. record { node = p.node; faults = D.faults p.door; closings = D.closings p.door; key = W.key p.dice; times = P.times p.patience; gave_up = P.gave_up p.patience };
      handed = λ p. D.handed p.door;
      was_led = λ a b. D.was_led a.door b.door;
      link = ⟦<D::Link as Told>⟧.seen;
      link_was_led = D.Link.was_led;
    } };
}
