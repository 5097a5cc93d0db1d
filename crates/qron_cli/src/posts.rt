// Posts of a network, one after the other in order of seat.
ghost use Rattle.std.specs.Prelude.{◌≡◌, ◌+◌, ◌*◌, ◌<◌, ℕ, List, length, IfOk};
ghost use Rattle.node_table.specs.Document.{IsInRange};
ghost use Rattle.qron_cli.specs.Posts.{AreFirst};

use cqc_server::{Post, Posted};
use node_table::Settings;
use qron_link::{Dice, Door, Patience};
use std::alloc::AllocError;

/// Adds the post of the next seat, at the node of that seat.
pub fn push_post<D: Door + Drop, W: Dice + Drop, P: Patience + Drop>(
    posts: &mut Vec<Post<D, W, P>>,
    settings: &Settings,
    door: D,
    dice: W,
    patience: P,
) -> Result<(), AllocError>
    requires range { IsInRange settings.now }
    requires few { length posts.old.items < length settings.now.shape.places * settings.now.workers }
    ensures first { IfOk result (λ _. (key : List ℕ) → W.key dice ≡ key → P.times patience ≡ settings.now.patience
        → AreFirst posts.old.items (⟦<Post<D, W, P> as Posted>⟧.watch.post) key settings.now → AreFirst posts.new.items (⟦<Post<D, W, P> as Posted>⟧.watch.post) key settings.now) }
    ensures more { IfOk result (λ _. length posts.new.items ≡ length posts.old.items + 1) }
{
    let _nodes = settings.shape.nodes();
    let node = (posts.len() / usize::from(settings.workers)) as u8;
    posts.push(Post {
        node,
        door,
        dice,
        patience,
    })?;
    Ok(())
}
