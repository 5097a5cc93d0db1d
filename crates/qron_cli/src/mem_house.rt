// The program over a link in memory, with given bytes, words and faults.
ghost use Rattle.std.specs.Prelude.{◌≡◌, ◌*◌, [], None, Some, length, option_map, unwrap_or, string_bytes, refl, IfOk};
ghost use Rattle.std.specs.List.{find};
ghost use Rattle.std.specs.Str.{bytes_eq};
ghost use Rattle.node_table.specs.Document.{IsInRange};
ghost use Rattle.qron_cli.specs.Posts.{AreGiven};

use crate::complaint::Complaint;
use crate::house::{FileRead, House, Posts};
use crate::posts::push_post;
use crate::program::run;
use crate::status::Status;
use cqc_server::{Post, Posted};
use hex::{decode, encode};
use network_model::Place;
use node_table::Settings;
use qron_link::{ChaChaDice, CountPatience, Dice, Door, Knock, ListDice, MemDoor, MemLink};
use std::alloc::{AllocError, Global};
use std::marker::PhantomData;
use std::mem;
use std::snapshot::Snapshot;
use std::sync::Wait;
use std::test::Fail;
use std::thread::Threads;

/// The largest word.
pub const MOST: u64 = 18_446_744_073_709_551_615;

// The most bytes that are written.
const ROOM: u32 = 256;

// The most bytes of a file.
const FILE_LIMIT: usize = 16_777_216;

/// A file in memory.
#[derive(Drop)]
pub struct MemFile {
    pub name: String,
    pub bytes: Vec<u8>,
}

// The file of a name, if there is one.
fn found<'a>(files: &'a [MemFile], name: &str) -> Option<&'a MemFile>
    ensures { option_map (λ file. file.now) result ≡ find (λ file. bytes_eq (string_bytes file.name) name.now) files.now }
{
    files.iter().find(|file| file.name.as_str() == name)
}

/// Dice that a house in memory hands out.
pub trait Rolled: Dice + Drop {
    ghost use Rattle.std.specs.Prelude.{ℕ, List, IfOk, ◌≡◌};

    /// The key, by the words of the house and a seed.
    ghost key_by: { List ℕ → List ℕ → List ℕ };

    /// New dice with that key.
    fn roll(words: &Vec<u64>, seed: &[u8; 32]) -> Result<Self, AllocError>
        ensures { IfOk result (λ dice. Self.key dice ≡ key_by words.now.items seed.now) };
}

impl Rolled for ListDice {
    ghost key_by = { λ words _. words };

    fn roll(words: &Vec<u64>, _seed: &[u8; 32]) -> Result<ListDice, AllocError> {
        Ok(ListDice::new(words.clone()?))
    }
}

impl Rolled for ChaChaDice {
    ghost key_by = { λ _ seed. seed };

    fn roll(_words: &Vec<u64>, seed: &[u8; 32]) -> Result<ChaChaDice, AllocError> {
        Ok(ChaChaDice::new(*seed))
    }
}

// Posts in memory for all workers of a network, each at the next of these doors.
fn mem_posts<D: Rolled>(
    alloc: Global,
    settings: &Settings,
    words: &Vec<u64>,
    doors: Vec<MemDoor>,
) -> Result<Vec<Post<MemDoor, D, CountPatience>>, AllocError>
    requires range { IsInRange settings.now }
    requires doors { length doors.items ≡ length settings.now.shape.places * settings.now.workers }
    ensures { IfOk result (λ posts. AreGiven (⟦<Post<MemDoor, D, CountPatience> as Posted>⟧.watch) (D.key_by words.now.items settings.now.seed) settings.now posts.items) }
{
    let mut posts = Vec::new(alloc);
    for door in doors {
        let Ok(dice) = D::roll(words, &settings.seed) else {
            return Err(AllocError);
        };
        let Ok(patience) = CountPatience::new(alloc, settings.patience) else {
            return Err(AllocError);
        };
        if push_post(&mut posts, settings, door, dice, patience).is_err() {
            return Err(AllocError);
        }
    }
    Ok(posts)
}

/// A house in memory. It tells its files, the posts at its doors, which it hands out once, and the links that it connects.
#[derive(Drop)]
struct MemHouse<D: Rolled> {
    alloc: Global,
    pipe: MemLink,
    words: Vec<u64>,
    files: Vec<MemFile>,
    doors: Vec<MemDoor>,
    posted: Option<Snapshot<Vec<Post<MemDoor, D, CountPatience>>>>,
    places: MemDoor,
    faults: u64,
    said: Option<Complaint>,
    dice: PhantomData<D>,
}

impl<D: Rolled + Send> House for MemHouse<D> {
    type Pipe = MemLink;

    type Dice = D;

    type Link = MemLink;

    type Door = MemDoor;

    type Patience = CountPatience;

    ghost pipe_of = { λ h. h.pipe };

    ghost with_pipe = { λ h p. record h { pipe = p } };

    ghost facts = { λ h. record {
      keys = λ seed. D.key_by h.words.items seed;
      files = Some (λ name. option_map (λ file. file.bytes.items) (find (λ file. bytes_eq (string_bytes file.name) name) h.files.items));
      asks = None;
      faults = h.faults;
    } };

    ghost handed = { λ h. Some h.places.handed };

    ghost posted = { λ h. Some (unwrap_or (option_map (λ posts. posts.value.items) h.posted) []) };

    ghost pipe_is_put = { λ _ _. refl };

    ghost facts_stay = { λ _ _. refl };

    ghost handed_stay = { λ _ _. refl };

    ghost posted_stay = { λ _ _. refl };

    ghost tells_files = { λ _. tt };

    fn pipe(&mut self) -> &mut MemLink {
        &mut self.pipe
    }

    fn dice(&mut self, seed: &[u8; 32]) -> Result<D, AllocError> {
        D::roll(&self.words, seed)
    }

    fn file(&mut self, name: &str) -> FileRead {
        let Some(file) = found(&self.files, name) else {
            self.faults = self.faults.saturating_add(1);
            return FileRead::Failed;
        };
        if file.bytes.len() > FILE_LIMIT {
            return FileRead::TooLong;
        }
        match file.bytes.clone() {
            Ok(bytes) => FileRead::Bytes(bytes),
            Err(_) => FileRead::OutOfMemory,
        }
    }

    fn posts(&mut self, settings: &Settings) -> Posts<MemDoor, D, CountPatience> {
        let posts = usize::from(settings.shape.nodes()) * usize::from(settings.workers);
        if self.posted.is_some() || self.doors.len() != posts {
            self.faults = self.faults.saturating_add(1);
            return Posts::Failed;
        }
        let doors = mem::replace(&mut self.doors, Vec::new(self.alloc));
        match mem_posts(self.alloc, settings, &self.words, doors) {
            Ok(posts) => {
                self.posted = Some(Snapshot::of(&posts));
                Posts::Ready(posts)
            }
            Err(AllocError) => Posts::OutOfMemory,
        }
    }

    fn connect(&mut self, _place: Place) -> Option<MemLink> {
        let Knock::Link(link) = self.places.next() else {
            self.faults = self.faults.saturating_add(1);
            return None;
        };
        Some(link)
    }

    fn complain(&mut self, complaint: &Complaint) {
        self.said = Some(*complaint);
    }
}

/// What the program is given: its arguments, the names and texts of files, the bytes that links to places hold, those that
/// the links of each door hold, its dice's words, the most bytes of a read, and the numbers of a read and of a write that
/// fail.
#[derive(Clone, Copy)]
pub struct Given<'a> {
    pub args: &'a [&'a str],
    pub files: &'a [(&'a str, &'a str)],
    pub links: &'a [&'a [u8]],
    pub doors: &'a [&'a [&'a [u8]]],
    pub words: [u64; 2],
    pub piece: u32,
    pub bad_read: Option<u32>,
    pub bad_write: Option<u32>,
}

/// `pipe` with these words, in reads of at most a piece, and no fault.
pub fn faultless(words: [u64; 2], piece: u32) -> Given<'static> {
    Given {
        args: &["pipe"],
        files: &[],
        links: &[],
        doors: &[],
        words,
        piece,
        bad_read: None,
        bad_write: None,
    }
}

/// How the program ended, what it complained of, and what it wrote, in hexadecimal.
#[derive(PartialEq, Debug, Drop)]
pub struct Answer {
    pub status: Status,
    pub said: Option<Complaint>,
    pub output: String,
}

// What is said where the program ends with a status, for which no file was refused.
fn said_of(status: Status) -> Option<Complaint> {
    match status {
        Status::Words => Some(Complaint::Words),
        Status::Memory => Some(Complaint::Memory),
        Status::Fault => Some(Complaint::Fault),
        Status::Done | Status::Refused | Status::Unfinished => None,
    }
}

/// It ended with this status, for which it complained, and wrote this.
pub fn ended(alloc: Global, status: Status, output: &str) -> Result<Answer, Fail> {
    Ok(Answer {
        status,
        said: said_of(status),
        output: String::from_str(alloc, output)?,
    })
}

/// It ended between two messages, and wrote the bytes of these texts, each so many times.
pub fn done(alloc: Global, pieces: &[(&str, u32)]) -> Result<Answer, Fail> {
    let output = encode(alloc, &spelled(alloc, pieces)?)?;
    ended(alloc, Status::Done, output.as_str())
}

// Files with these names and texts.
fn mem_files(alloc: Global, texts: &[(&str, &str)]) -> Result<Vec<MemFile>, Fail> {
    let mut files = Vec::new(alloc);
    for &(name, text) in texts {
        let name = String::from_str(alloc, name)?;
        let bytes = text.as_bytes().to_vec(alloc)?;
        files.push(MemFile { name, bytes })?;
    }
    Ok(files)
}

// Links that hold these bytes.
fn mem_links(alloc: Global, inputs: &[&[u8]]) -> Result<Vec<MemLink>, Fail> {
    let mut links = Vec::new(alloc);
    for input in inputs {
        let bytes = input.to_vec(alloc)?;
        let link = MemLink::new(alloc, bytes, 64, ROOM, Vec::new(alloc), Vec::new(alloc))?;
        links.push(link)?;
    }
    Ok(links)
}

// Doors whose links hold these bytes.
fn mem_doors(alloc: Global, doors: &[&[&[u8]]]) -> Result<Vec<MemDoor>, Fail> {
    let mut all = Vec::new(alloc);
    for inputs in doors {
        all.push(MemDoor::new(mem_links(alloc, inputs)?, Vec::new(alloc)))?;
    }
    Ok(all)
}

// How the program ended, and the house that it was run in.
#[derive(Drop)]
struct Run<D: Rolled> {
    status: Status,
    house: MemHouse<D>,
}

// Runs the program with this input.
fn run_with<D: Rolled + Send, R: Threads + Wait + Sync>(
    rt: &R,
    alloc: Global,
    input: Vec<u8>,
    given: Given<'_>,
) -> Result<Run<D>, Fail> {
    let mut bad_reads = Vec::new(alloc);
    if let Some(number) = given.bad_read {
        bad_reads.push(number)?;
    }
    let mut bad_writes = Vec::new(alloc);
    if let Some(number) = given.bad_write {
        bad_writes.push(number)?;
    }
    let pipe = MemLink::new(
        alloc,
        input,
        given.piece.max(1),
        ROOM,
        bad_reads,
        bad_writes,
    )?;
    let mut house = MemHouse {
        alloc,
        pipe,
        words: Vec::from_array(alloc, given.words)?,
        files: mem_files(alloc, given.files)?,
        doors: mem_doors(alloc, given.doors)?,
        posted: None,
        places: MemDoor::new(mem_links(alloc, given.links)?, Vec::new(alloc)),
        faults: 0,
        said: None,
        dice: PhantomData,
    };
    let mut words = Vec::new(alloc);
    for word in given.args {
        words.push(String::from_str(alloc, word)?)?;
    }
    let status = run(rt, alloc, &words, &mut house);
    Ok(Run { status, house })
}

/// What the program does with this input.
pub fn answer_with<R: Threads + Wait + Sync>(
    rt: &R,
    alloc: Global,
    input: Vec<u8>,
    given: Given<'_>,
) -> Result<Answer, Fail> {
    let Run { status, house } = run_with::<ListDice, R>(rt, alloc, input, given)?;
    Ok(Answer {
        status,
        said: house.said,
        output: encode(alloc, house.pipe.written())?,
    })
}

/// How the program ended, what it complained of, and the text that it printed.
#[derive(Drop)]
pub struct Printed {
    pub status: Status,
    pub said: Option<Complaint>,
    pub text: String,
}

/// What the program prints without input, with dice by ChaCha20.
pub fn printed_with<R: Threads + Wait + Sync>(
    rt: &R,
    alloc: Global,
    given: Given<'_>,
) -> Result<Printed, Fail> {
    let Run { status, house } = run_with::<ChaChaDice, R>(rt, alloc, Vec::new(alloc), given)?;
    let text = str::from_utf8(house.pipe.written())?;
    Ok(Printed {
        status,
        said: house.said,
        text: String::from_str(alloc, text)?,
    })
}

/// The bytes of hexadecimal texts, each so many times.
pub fn spelled(alloc: Global, pieces: &[(&str, u32)]) -> Result<Vec<u8>, Fail> {
    let mut bytes = Vec::new(alloc);
    for &(text, times) in pieces {
        for _ in 0..times {
            bytes.extend_from_slice(&decode(alloc, text)?)?;
        }
    }
    Ok(bytes)
}

/// Messages in hexadecimal, the two words of the dice, and the replies.
pub type Case<'a> = (&'a str, [u64; 2], &'a str);

/// The first of these cases that isn't answered as it says, in reads of at most these pieces.
pub fn first_wrong<R: Threads + Wait + Sync>(
    rt: &R,
    alloc: Global,
    cases: &[Case<'_>],
    pieces: &[u32],
) -> Result<Option<usize>, Fail> {
    for (place, &(input, words, output)) in cases.iter().enumerate() {
        for piece in pieces {
            let got = answer_with(rt, alloc, decode(alloc, input)?, faultless(words, *piece))?;
            if got != done(alloc, &[(output, 1)])? {
                return Ok(Some(place));
            }
        }
    }
    Ok(None)
}
