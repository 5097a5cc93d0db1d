// A worker: connections of one seat, one after the other.
ghost use Rattle.std.specs.Prelude.{◌≡◌, ◌<◌, ◌≤◌, ◌^◌, [], length, vec_len, vec_capacity};
ghost use Rattle.cqc_server.specs.Shared.{own};
ghost use Rattle.cqc_server.specs.Working.{HasServedOne, WorksOn, HasWorkedOut};

use crate::post::{Post, Posted};
use crate::record::{Served, WorkerEnd};
use crate::shared::serve_session;
use cqc_session::Session;
use history_front::Named;
use qron_link::{Dice, Door, Knock, Link, Patience};
use quantum_hub::{Framed, Hub, Pass};
use std::sync::Wait;

/// The most bytes that are read on a connection.
pub const READ_LIMIT: u64 = 4_294_967_296;

/// A worker, with the connections that it has served. All their room is taken.
#[derive(Drop)]
pub(crate) struct Worker<N: Named + Framed, D: Door, W: Dice, P: Patience> {
    pub pass: Pass<N>,
    pub session: Session,
    pub post: Post<D, W, P>,
    /// The connections that it has served, in order.
    pub served: Vec<Served<D::Link>>,
    /// How many connections it may serve.
    pub limit: u8,
    /// Why it has ended, once it has.
    pub end: WorkerEnd,
    ghost seat_is: { session.connection.seat ≡ pass.seat },
    ghost node_is: { session.connection.node ≡ post.node },
    ghost on_network: { post.node < length N.shape.places },
    ghost reads: { session.cap ≡ 2 ^ 32 },
    ghost few: { limit ≤ 64 },
    ghost room: { limit ≤ vec_capacity served },
}

impl<N: Named + Framed, D: Door, W: Dice, P: Patience> Worker<N, D, W, P> {
    // Serves a link as the next connection, and closes it.
    fn serve_link(&mut self, rt: &impl Wait, hub: &Hub<N>, mut link: D::Link) -> Served<D::Link>
        requires { vec_len self.old.served < self.old.limit }
        ensures served { HasServedOne (⟦<Post<D, W, P> as Posted>⟧.watch) N.capacity (vec_len self.old.served) self.old.post self.new.post self.old.pass self.new.pass link result }
        ensures door { self.new.post.door ≡ self.old.post.door }
        ensures others { (self.new.served ≡ self.old.served) × (self.new.limit ≡ self.old.limit) }
    {
        let serial = self.served.len() as u16;
        self.session.begin(serial);
        let ending = serve_session(
            rt,
            hub,
            &mut self.pass,
            &mut self.session,
            &mut link,
            &mut self.post.dice,
            &mut self.post.patience,
        );
        link.close();
        Served {
            seat: self.session.seat(),
            serial,
            node: self.post.node,
            link,
            ending,
        }
    }

    // Serves the next connection, unless its door hands none out.
    fn serve_next(&mut self, rt: &impl Wait, hub: &Hub<N>) -> Result<(), WorkerEnd>
        requires { vec_len self.old.served < self.old.limit }
        ensures works { WorksOn (⟦<Post<D, W, P> as Posted>⟧.watch) N.capacity
            (record { post = self.old.post; pass = self.old.pass; served = self.old.served.items }) (record { post = self.new.post; pass = self.new.pass; served = self.new.served.items }) result }
        ensures limit { self.new.limit ≡ self.old.limit }
    {
        let link = match self.post.door.next() {
            Knock::Link(link) => link,
            Knock::Closed => return Err(WorkerEnd::Closed),
            Knock::Failed => return Err(WorkerEnd::DoorFault),
        };
        let connection = self.serve_link(rt, hub, link);
        let Ok(()) = self.served.push(connection) else {
            unreachable!()
        };
        Ok(())
    }

    // Serves connections until it has served as many as it may, or its door hands none out.
    fn serve_all(&mut self, rt: &impl Wait, hub: &Hub<N>) -> WorkerEnd
        requires { (vec_len self.old.served ≡ 0) × (own self.old.pass ≡ []) }
        ensures worked { HasWorkedOut (⟦<Post<D, W, P> as Posted>⟧.watch) N.capacity self.old.limit self.old.post
            (record { post = self.new.post; pass = self.new.pass; served = self.new.served.items }) result }
        ensures seat { self.new.pass.seat ≡ self.old.pass.seat }
        ensures limit { self.new.limit ≡ self.old.limit }
    {
        for _ in 0..self.limit {
            if let Err(end) = self.serve_next(rt, hub) {
                return end;
            }
        }
        WorkerEnd::Limit
    }

    /// Serves connections until it ends.
    pub(crate) fn work(&mut self, rt: &impl Wait, hub: &Hub<N>)
        requires { (vec_len self.old.served ≡ 0) × (own self.old.pass ≡ []) }
        ensures worked { HasWorkedOut (⟦<Post<D, W, P> as Posted>⟧.watch) N.capacity self.old.limit self.old.post
            (record { post = self.new.post; pass = self.new.pass; served = self.new.served.items }) self.new.end }
        ensures seat { self.new.pass.seat ≡ self.old.pass.seat }
        ensures limit { self.new.limit ≡ self.old.limit }
    {
        self.end = self.serve_all(rt, hub);
    }
}
