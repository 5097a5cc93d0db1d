// What the program is handed of the outside.
ghost use Rattle.std.specs.Prelude.{◌≡◌, ℕ, List, [], ◌∷◌, Option, IfOk};
ghost use Rattle.std.specs.Borrow.{sem, Lends};
ghost use Rattle.cqc_server.specs.declared.post.Post.{Post};
ghost use Rattle.node_table.specs.Document.{IsInRange};
ghost use Rattle.qron_cli.specs.House.{Facts, Allows, ask_file, ask_posts, ask_link, TellsFiles, WasAsked, FileGave, LinkGave};
ghost use Rattle.qron_cli.specs.Posts.{PostsGave};

use crate::complaint::Complaint;
use cqc_server::{Post, Posted};
use network_model::Place;
use node_table::Settings;
use qron_link::{Dice, Door, Link, Patience};
use std::alloc::AllocError;

/// What came of asking for a file.
#[derive(Drop)]
pub enum FileRead {
    /// Its bytes, of which there are at most 16,777,216.
    Bytes(Vec<u8>),
    /// It has more bytes than that.
    TooLong,
    /// It could not be read.
    Failed,
    /// Memory was short.
    OutOfMemory,
}

/// What came of asking for the posts of a network.
#[derive(Drop)]
pub enum Posts<D, W, P> {
    /// The posts of all workers, in order of seat.
    Ready(Vec<Post<D, W, P>>),
    /// There are none.
    Failed,
    /// Memory was short.
    OutOfMemory,
}

/// What the program is handed of the outside.
pub trait House {
    type Pipe: Link;

    type Dice: Dice + Send + Drop;

    type Link: Link + Send + Drop;

    type Door: Door<Link = Self::Link> + Send + Drop;

    type Patience: Patience + Send + Drop;

    /// The pipe.
    ghost pipe_of: { Self → Self.Pipe };

    /// The house with another pipe.
    ghost with_pipe: { Self → Self.Pipe → Self };

    /// What it tells beside its pipe.
    ghost facts: { Self → Facts };

    /// The links to places that it has handed out so far, where it tells them.
    ghost handed: { Self → Option (List Self.Link) };

    /// The posts that it has handed out so far, where it tells them.
    ghost posted: { Self → Option (List (Post Self.Door Self.Dice Self.Patience)) };

    /// Lends the pipe, which is afterwards as the borrower left it. Nothing else changes.
    fn pipe(&mut self) -> &mut Self::Pipe
        ensures* lends { sem 𝓛 (Lends Self.row Self.Pipe.row self.entry result (with_pipe self.old)) }
        ensures value { result.now ≡ pipe_of self.old };

    /// Dice with the key of a seed.
    fn dice(&mut self, seed: &[u8; 32]) -> Result<Self::Dice, AllocError>
        ensures key { IfOk result (λ dice. Self.Dice.key dice ≡ (facts self.old).keys seed.now) }
        ensures facts { facts self.new ≡ facts self.old }
        ensures handed { handed self.new ≡ handed self.old }
        ensures posted { posted self.new ≡ posted self.old }
        ensures pipe { pipe_of self.new ≡ pipe_of self.old };

    /// The bytes of a file, which must be the next ask that is allowed.
    fn file(&mut self, name: &str) -> FileRead
        requires { Allows (ask_file name.now ∷ []) (facts self.old) }
        ensures read { FileGave result name.now (facts self.old) (facts self.new) }
        ensures asked { WasAsked (facts self.old) (facts self.new) }
        ensures handed { handed self.new ≡ handed self.old }
        ensures posted { posted self.new ≡ posted self.old }
        ensures pipe { pipe_of self.new ≡ pipe_of self.old };

    /// Posts for the workers of a network with these settings, which must be the next ask that is allowed. Their dice
    /// have the key of the seed. There are none where the house has a fault, or memory is short.
    fn posts(&mut self, settings: &Settings) -> Posts<Self::Door, Self::Dice, Self::Patience>
        requires range { IsInRange settings.now }
        requires asked { Allows (ask_posts settings.now ∷ []) (facts self.old) }
        ensures gave { PostsGave (⟦<Post<Self::Door, Self::Dice, Self::Patience> as Posted>⟧.watch) settings.now result (facts self.old) (facts self.new) (posted self.old) (posted self.new) }
        ensures asked { WasAsked (facts self.old) (facts self.new) }
        ensures handed { handed self.new ≡ handed self.old }
        ensures pipe { pipe_of self.new ≡ pipe_of self.old };

    /// A link to a place, which must be the next ask that is allowed. There is none where the house has a fault.
    fn connect(&mut self, place: Place) -> Option<Self::Link>
        requires { Allows (ask_link place ∷ []) (facts self.old) }
        ensures link { LinkGave result (facts self.old) (facts self.new) (handed self.old) (handed self.new) }
        ensures asked { WasAsked (facts self.old) (facts self.new) }
        ensures posted { posted self.new ≡ posted self.old }
        ensures pipe { pipe_of self.new ≡ pipe_of self.old };

    /// Writes a complaint to standard error. Nothing is promised of what it says.
    fn complain(&mut self, complaint: &Complaint)
        ensures facts { facts self.new ≡ facts self.old }
        ensures handed { handed self.new ≡ handed self.old }
        ensures posted { posted self.new ≡ posted self.old }
        ensures pipe { pipe_of self.new ≡ pipe_of self.old };

    ghost pipe_is_put: { (house : Self) (pipe : Self.Pipe) → pipe_of (with_pipe house pipe) ≡ pipe };

    ghost facts_stay: { (house : Self) (pipe : Self.Pipe) → facts (with_pipe house pipe) ≡ facts house };

    ghost handed_stay: { (house : Self) (pipe : Self.Pipe) → handed (with_pipe house pipe) ≡ handed house };

    ghost posted_stay: { (house : Self) (pipe : Self.Pipe) → posted (with_pipe house pipe) ≡ posted house };

    ghost tells_files: { (house : Self) → TellsFiles (facts house) };
}
