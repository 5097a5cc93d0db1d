// Serving: workers beside each other over one core.
ghost use Rattle.std.specs.Prelude.{◌≡◌, ◌≤◌, ◌+◌, ◌*◌, ◌<◌, [], ◌∷◌, ◌++◌, ℕ, length, map, vec_len, vec_capacity, IfOk, All};
ghost use Rattle.std.specs.List.{AllZip, flat_map};
ghost use Rattle.commit_journal.specs.Keeping.{own_count};
ghost use Rattle.node_table.specs.Document.{IsInRange};
ghost use Rattle.quantum_hub.specs.Opening.{AreFreshPasses};
ghost use Rattle.cqc_server.specs.Leaving.{HasRoomFor};
ghost use Rattle.cqc_server.specs.Record.{ArePosts, IsRecord};
ghost use Rattle.cqc_server.specs.Shared.{own};
ghost use Rattle.cqc_server.specs.Working.{HasWorkedOut};

use crate::jobs::{Job, do_all};
use crate::post::{Post, Posted};
use crate::record::{Record, Served, WorkerEnd};
use crate::worker::{READ_LIMIT, Worker};
use cqc_session::Session;
use history_front::{Blank, Named};
use network_model::Entry;
use node_table::Settings;
use qron_link::{Dice, Door, Patience};
use quantum_hub::{Framed, Hub, Opened, Pass};
use std::alloc::{AllocError, Global};
use std::marker::Brand;
use std::sync::Wait;
use std::thread::Threads;

// A worker that has served nothing, with room for as many connections as it may serve.
fn worker_of<N: Named + Framed, D: Door + Drop, W: Dice + Drop, P: Patience + Drop>(
    alloc: Global,
    pass: Pass<N>,
    post: Post<D, W, P>,
    limit: u8,
) -> Result<Worker<N, D, W, P>, AllocError>
    requires node { post.node < length N.shape.places }
    requires limit { limit ≤ 64 }
    ensures pass { IfOk result (λ w. w.pass ≡ pass) }
    ensures post { IfOk result (λ w. w.post ≡ post) }
    ensures begun { IfOk result (λ w. (vec_len w.served ≡ 0) × (w.limit ≡ limit)) }
{
    let session = Session::new(alloc, pass.seat(), post.node, READ_LIMIT)?;
    let served = Vec::with_capacity(alloc, usize::from(limit))?;
    Ok(Worker {
        pass,
        session,
        post,
        served,
        limit,
        end: WorkerEnd::Limit,
    })
}

// A worker for each pass and post. All their room is taken here.
fn workers_of<N: Named + Framed, D: Door + Drop, W: Dice + Drop, P: Patience + Drop>(
    alloc: Global,
    passes: Vec<Pass<N>>,
    posts: Vec<Post<D, W, P>>,
    limit: u8,
) -> Result<Vec<Worker<N, D, W, P>>, AllocError>
    requires as_many { vec_len passes ≡ vec_len posts }
    requires nodes { All (λ p. p.node < length N.shape.places) posts.items }
    requires limit { limit ≤ 64 }
    ensures passes { IfOk result (λ v. map (λ w. w.pass) v.items ≡ passes.items) }
    ensures posts { IfOk result (λ v. map (λ w. w.post) v.items ≡ posts.items) }
    ensures begun { IfOk result (λ v. All (λ w. (vec_len w.served ≡ 0) × (w.limit ≡ limit)) v.items) }
{
    let mut workers = Vec::with_capacity(alloc, passes.len())?;
    for (pass, post) in passes.into_iter().zip(posts) {
        workers.push(worker_of(alloc, pass, post, limit)?)?;
    }
    Ok(workers)
}

// What workers share.
#[derive(Drop)]
struct Shared<'a, N: Named + Framed, R> {
    rt: &'a R,
    hub: Hub<N>,
}

impl<'a, N: Named + Framed, D: Door, W: Dice, P: Patience, R: Wait> Job<Shared<'a, N, R>>
    for Worker<N, D, W, P> {
    ghost use Rattle.std.specs.Prelude.{◌≡◌, [], vec_len};
    ghost use Rattle.cqc_server.specs.Shared.{own};
    ghost use Rattle.cqc_server.specs.Working.{HasWorkedOut};

    ghost is_ready = { λ worker. (vec_len worker.served ≡ 0) × (own worker.pass ≡ []) };

    ghost became = { λ old new. HasWorkedOut (⟦<Post<D, W, P> as Posted>⟧.watch) N.capacity old.limit old.post
        (record { post = new.post; pass = new.pass; served = new.served.items }) new.end × (new.pass.seat ≡ old.pass.seat) };

    fn run(&mut self, shared: &Shared<'a, N, R>) {
        self.work(shared.rt, &shared.hub);
    }
}

// What workers leave, in order of seat.
#[derive(Drop)]
struct Left<N: Named + Framed, D: Door, W, P> {
    passes: Vec<Pass<N>>,
    served: Vec<Served<D::Link>>,
    ends: Vec<WorkerEnd>,
    posts: Vec<Post<D, W, P>>,
}

impl<N: Named + Framed, D: Door + Drop, W: Dice + Drop, P: Patience + Drop> Left<N, D, W, P> {
    // Nothing yet, with room for so many workers, of so many connections each.
    fn new(
        alloc: Global,
        workers: usize,
        connections: usize,
    ) -> Result<Left<N, D, W, P>, AllocError>
        requires few { (workers ≤ 64) × (connections ≤ 64) }
        ensures passes { IfOk result (λ l. l.passes.items ≡ []) }
        ensures served { IfOk result (λ l. l.served.items ≡ []) }
        ensures ends { IfOk result (λ l. l.ends.items ≡ []) }
        ensures posts { IfOk result (λ l. l.posts.items ≡ []) }
        ensures room { IfOk result (λ l. HasRoomFor workers l.passes × HasRoomFor (workers * connections) l.served × HasRoomFor workers l.ends × HasRoomFor workers l.posts) }
    {
        Ok(Left {
            passes: Vec::with_capacity(alloc, workers)?,
            served: Vec::with_capacity(alloc, workers * connections)?,
            ends: Vec::with_capacity(alloc, workers)?,
            posts: Vec::with_capacity(alloc, workers)?,
        })
    }

    // Adds what a worker leaves.
    fn add(&mut self, worker: Worker<N, D, W, P>)
        requires room { HasRoomFor 1 self.old.passes × HasRoomFor (vec_len worker.served) self.old.served × HasRoomFor 1 self.old.ends × HasRoomFor 1 self.old.posts }
        ensures passes { self.new.passes.items ≡ self.old.passes.items ++ worker.pass ∷ [] }
        ensures served { self.new.served.items ≡ self.old.served.items ++ worker.served.items }
        ensures ends { self.new.ends.items ≡ self.old.ends.items ++ worker.end ∷ [] }
        ensures posts { self.new.posts.items ≡ self.old.posts.items ++ worker.post ∷ [] }
        ensures counted { worker.pass.made ≡ own_count worker.pass.seat worker.pass.seen }
        ensures room { (vec_capacity self.old.passes ≤ vec_capacity self.new.passes) × (vec_capacity self.old.served ≤ vec_capacity self.new.served)
            × (vec_capacity self.old.ends ≤ vec_capacity self.new.ends) × (vec_capacity self.old.posts ≤ vec_capacity self.new.posts) }
    {
        let Worker {
            pass,
            session: _,
            post,
            mut served,
            limit: _,
            end,
        } = worker;
        // A contract asks for it: of its seat it has seen as many entries as it made.
        let _made = pass.made();
        self.passes.push_reserved(pass);
        self.posts.push_reserved(post);
        self.ends.push_reserved(end);
        let Ok(()) = self.served.append(&mut served) else {
            unreachable!()
        };
    }

    // Adds what all workers leave.
    fn add_all(&mut self, workers: Vec<Worker<N, D, W, P>>, connections: u8)
        requires few { All (λ w. vec_len w.served ≤ connections) workers.items }
        requires room { HasRoomFor (vec_len workers) self.old.passes × HasRoomFor (vec_len workers * connections) self.old.served
            × HasRoomFor (vec_len workers) self.old.ends × HasRoomFor (vec_len workers) self.old.posts }
        ensures passes { self.new.passes.items ≡ self.old.passes.items ++ map (λ w. w.pass) workers.items }
        ensures served { self.new.served.items ≡ self.old.served.items ++ flat_map (λ w. w.served.items) workers.items }
        ensures ends { self.new.ends.items ≡ self.old.ends.items ++ map (λ w. w.end) workers.items }
        ensures posts { self.new.posts.items ≡ self.old.posts.items ++ map (λ w. w.post) workers.items }
        ensures counted { All (λ w. w.pass.made ≡ own_count w.pass.seat w.pass.seen) workers.items }
    {
        for worker in workers {
            self.add(worker);
        }
    }
}

// Serves over a hub of this name.
fn serve_over<
    N: Named + Framed + Send + Sync,
    D: Door + Drop + Send,
    W: Dice + Drop + Send,
    P: Patience + Drop + Send,
    R: Threads + Wait + Sync,
>(
    rt: &R,
    alloc: Global,
    blank: Blank<Entry>,
    settings: Settings,
    posts: Vec<Post<D, W, P>>,
) -> Result<Record<D, W, P>, AllocError>
where
    D::Link: Send,
    requires name { blank ≡ N.table }
    requires range { IsInRange settings }
    requires shape { settings.shape ≡ N.shape }
    requires cells { N.cells ≡ length settings.shape.places + 1 + length settings.shape.places * settings.shape.room }
    requires frame { (N.capacity ≡ settings.journal) × (N.seats ≡ vec_len posts) }
    requires posts { ArePosts (⟦<Post<D, W, P> as Posted>⟧.watch) settings posts.items }
    ensures { IfOk result (λ r. IsRecord (⟦<Post<D, W, P> as Posted>⟧.watch) settings posts.items r.entries.items r.served.items r.ends.items r.posts.items) }
{
    // A contract asks for it: there are 1 to 8 nodes.
    let _nodes = settings.shape.nodes();
    let count = posts.len();
    let connections = settings.connections;
    let mut left = Left::new(alloc, count, usize::from(connections))?;
    let Opened { hub, passes } = Hub::<N>::open(
        alloc,
        blank,
        settings.shape,
        settings.journal,
        count as u16,
    )?;
    let mut workers = workers_of(alloc, passes, posts, connections)?;
    let shared = Shared { rt, hub };
    do_all(rt, &shared, workers.as_mut_slice());
    left.add_all(workers, connections);
    let Left {
        passes,
        served,
        ends,
        posts,
    } = left;
    let Shared { rt: _, hub } = shared;
    let entries = hub.close(rt, passes).entries;
    Ok(Record {
        entries,
        served,
        ends,
        posts,
    })
}

/// Serves the connections of a network, each worker one after the other and the workers beside each other, until every
/// worker has ended. There is a post for each worker, in order of seat: those of node 0 come first. All room is taken
/// before a door is asked.
pub fn serve<
    D: Door + Drop + Send,
    W: Dice + Drop + Send,
    P: Patience + Drop + Send,
    R: Threads + Wait + Sync,
>(
    rt: &R,
    alloc: Global,
    settings: Settings,
    posts: Vec<Post<D, W, P>>,
) -> Result<Record<D, W, P>, AllocError>
where
    D::Link: Send,
    requires range { IsInRange settings }
    requires posts { ArePosts (⟦<Post<D, W, P> as Posted>⟧.watch) settings posts.items }
    ensures { IfOk result (λ r. IsRecord (⟦<Post<D, W, P> as Posted>⟧.watch) settings posts.items r.entries.items r.served.items r.ends.items r.posts.items) }
{
    let blank = Blank::new(alloc)?;
    serve_over::<Brand, D, W, P, R>(rt, alloc, blank, settings, posts)
}
