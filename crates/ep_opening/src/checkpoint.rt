//! Giving a file in pieces.

ghost use Rattle.std.specs.Prelude.{◌≡◌, ◌++◌, ◌+◌, ◌<◌, ◌≤◌, ◌↔◌, ℕ, suc, max, [], length, IsTrue, IfOk, IfSome, OnErr};
ghost use Rattle.std.specs.FinMap.{entries};
ghost use Rattle.std.specs.List.{flat_map};
ghost use Rattle.ep_base.specs.Devices.{Puts};
ghost use Rattle.ep_exec.specs.Bytes.{pair_bytes};
ghost use Rattle.ep_opening.specs.Bytes.{executed_bytes, opening_bytes};
ghost use Rattle.ep_opening.specs.Pieces.{bytes_between, head_bytes, longest_field, IsAlone, IsPiece, IsShort};
ghost use Rattle.ep_opening.specs.declared.stage.Stage.TheVariants.{Front, Entries};

use crate::laws::learn_seal;
use crate::opening_file::OpeningFile;
use crate::stage::Stage;
use crate::writing::{put_executed, put_front, put_lead};
use ep_base::{Deps, Key, Noted, Sink, Value, WriteFailed};
use ep_bundle::{put_pairs, put_u32};
use ep_exec::Listing;
use sha2::{Digest, Sha256};
use std::alloc::{AllocError, Global};
use std::marker::Model;
use std::mem;

/// An opening file whose bytes are given in pieces, one after the other, as somebody has time to write them. It
/// shares its map's entries with whoever began with them, and needs neither them nor anything that they do. Where the
/// map has layers, the first piece takes a copy of it, which is one listing.
pub struct Checkpoint {
    file: OpeningFile,
    hasher: Sha256,
    stage: Stage,
}

// (by hand, so that no crate above proves again how the parts are dropped)
impl Drop for Checkpoint {
    fn drop(self) {
        let Checkpoint {
            file,
            hasher: _,
            stage: _,
        } = self;
        drop(file);
    }
}

impl Model for Checkpoint {
    ghost use Rattle.ep_opening.specs.Pieces.{left_of, pieces_code, IsGiven, Pieces};

    ghost Value = { Pieces };

    ghost coded = { pieces_code };

    ghost view = { λ c. record { file = c.file; left = left_of c.file c.stage } };

    ghost invariant = { λ c. IsGiven c.file c.stage c.hasher };
}

/// What stands before the map's entries.
fn put_head<K: Sink>(sink: &mut K, file: &OpeningFile, map: &Listing) -> Result<(), WriteFailed>
    requires { map.now ≡ file.now.opening.contents }
    ensures { Puts (K.held sink.old) (K.held sink.new) (K.has_failed sink.old) (K.has_failed sink.new) result (head_bytes file.now) }
{
    put_lead(sink)?;
    put_front(sink, file)?;
    let _contents = file.opening().contents();
    put_u32(sink, map.entries().len() as u32)
}

/// The bytes of what stands before the map's entries.
fn head_of(alloc: Global, file: &OpeningFile) -> Result<Vec<u8>, AllocError>
    ensures { IfOk result (λ bytes. bytes.items ≡ head_bytes file.now) }
{
    let map = file.opening().contents().listing()?;
    let mut sink = Noted::new(Vec::new(alloc));
    match put_head(&mut sink, file, &map) {
        Ok(()) => Ok(sink.into_inner()),
        Err(_) => Err(AllocError),
    }
}

/// Those of the executed instances, with their number before them.
fn tail_of(alloc: Global, executed: &Deps) -> Result<Vec<u8>, AllocError>
    ensures { IfOk result (λ bytes. bytes.items ≡ executed_bytes executed.now) }
{
    let mut sink = Noted::new(Vec::new(alloc));
    match put_executed(&mut sink, executed) {
        Ok(()) => Ok(sink.into_inner()),
        Err(_) => Err(AllocError),
    }
}

/// Those of entries.
fn bytes_of(alloc: Global, pairs: &[(Key, Value)], room: usize) -> Result<Vec<u8>, AllocError>
    ensures { IfOk result (λ bytes. bytes.items ≡ flat_map pair_bytes pairs.now) }
{
    let mut sink = Noted::new(Vec::with_capacity(alloc, room)?);
    match put_pairs(&mut sink, pairs) {
        Ok(()) => Ok(sink.into_inner()),
        Err(_) => Err(AllocError),
    }
}

/// How many bytes the entry has.
#[tactic(auto, using(crate::proofs::Short::pair_len))]
fn len_of(pair: &(Key, Value)) -> usize
    ensures value { result ≡ length (pair_bytes pair.now) }
    ensures some { 1 ≤ result }
    ensures bound { result ≤ longest_field }
{
    let (key, value) = pair;
    5 + key.as_slice().len() + value.len()
}

/// How much room is left behind the entry at this place; none where it has no room, or there is none.
#[tactic(auto, using(crate::proofs::Short::room_is))]
fn room_after(pairs: &[(Key, Value)], place: usize, room: usize) -> Option<usize>
    ensures within { IfSome result (λ _. place < length pairs.now) }
    ensures left { IfSome result (λ rest. length (bytes_between place (suc place) pairs.now) + rest ≡ room) }
{
    let pair = pairs.get(place)?;
    let len = len_of(pair);
    if room < len {
        return None;
    }
    Some(room - len)
}

/// How much room is left behind the entry at this place, which is given even where it has no room.
#[tactic(auto, using(crate::proofs::Short::read_len))]
fn room_behind(pairs: &[(Key, Value)], place: usize, room: usize) -> usize
    requires { place < length pairs.now }
    ensures some { 1 ≤ length (bytes_between place (suc place) pairs.now) }
    ensures left { length (bytes_between place (suc place) pairs.now) + result ≤ max room longest_field }
{
    let len = len_of(&pairs[place]);
    room.saturating_sub(len)
}

/// The place behind the entries from this one on that have room; at least one.
fn end_of(pairs: &[(Key, Value)], start: usize, room: usize) -> usize
    requires { start < length pairs.now }
    ensures more { start < result }
    ensures within { result ≤ length pairs.now }
    ensures some { 1 ≤ length (bytes_between start result pairs.now) }
    ensures short { length (bytes_between start result pairs.now) ≤ max room longest_field }
{
    let mut end = start + 1;
    let mut left = room_behind(pairs, start, room);
    while let Some(rest) = room_after(pairs, end, left) {
        left = rest;
        end += 1;
    }
    end
}

/// What stands before the map's entries.
#[tactic(auto, using(crate::proofs::Giving::first_is))]
fn first_piece(
    alloc: Global,
    file: &OpeningFile,
    most: usize,
) -> Result<(Vec<u8>, Stage), AllocError>
    ensures value { IfOk result (λ p. IsPiece file.now Front p.0.items p.1) }
    ensures short { IfOk result (λ p. IsShort most p.0.items) }
{
    learn_seal(file);
    let bytes = head_of(alloc, file)?;
    Ok((bytes, Stage::Entries(0)))
}

/// What stands behind all entries, where none is at this place.
#[tactic(auto, using(crate::proofs::Giving::last_is))]
fn last_piece(
    alloc: Global,
    file: &OpeningFile,
    start: usize,
    most: usize,
) -> Result<(Vec<u8>, Stage), AllocError>
    requires { length (entries file.now.opening.contents) ≤ start }
    ensures value { IfOk result (λ p. IsPiece file.now (Entries start) p.0.items p.1) }
    ensures short { IfOk result (λ p. IsShort most p.0.items) }
{
    let executed = file.executed();
    let _many = executed.len();
    let bytes = tail_of(alloc, executed)?;
    Ok((bytes, Stage::Digest))
}

/// The entries from this place on, as far as there is room, or what stands behind all of them.
#[tactic(auto, using(crate::proofs::Giving::next_is, crate::proofs::Short::entries_short))]
fn piece_from(
    alloc: Global,
    file: &OpeningFile,
    start: usize,
    most: usize,
) -> Result<(Vec<u8>, Stage), AllocError>
    ensures value { IfOk result (λ p. IsPiece file.now (Entries start) p.0.items p.1) }
    ensures short { IfOk result (λ p. IsShort most p.0.items) }
{
    let map = file.opening().contents().listing()?;
    let pairs = map.entries();
    if start >= pairs.len() {
        return last_piece(alloc, file, start, most);
    }
    let end = end_of(pairs, start, most);
    let bytes = bytes_of(alloc, &pairs[start..end], most)?;
    Ok((bytes, Stage::Entries(end)))
}

impl Checkpoint {
    /// Nothing of the file is given yet.
    #[tactic(auto, using(crate::proofs::Giving::none_given))]
    pub fn new(file: OpeningFile) -> Checkpoint
        ensures { result ≡ record { file = file; left = opening_bytes file } }
    {
        Checkpoint {
            file,
            hasher: Sha256::new(),
            stage: Stage::Front,
        }
    }

    /// The file.
    pub fn file(&self) -> &OpeningFile
        ensures { result.now ≡ self.now.file }
    {
        &self.file
    }

    /// Lets go what is left of the journal that the file closes (see `OpeningFile::let_go`).
    pub fn let_go(&mut self)
        ensures { self.new ≡ self.old }
    {
        self.file.let_go();
    }

    /// Whether all was given.
    pub fn is_over(&self) -> bool
        ensures { IsTrue result ↔ (self.now.left ≡ []) }
    {
        match self.stage {
            Stage::Front => false,
            Stage::Entries(_) => false,
            Stage::Digest => false,
            Stage::Over => true,
        }
    }

    /// The next bytes: at most `most` of them, or 189,004 where that is more; none where all was given, and else some. The last 32 are given alone: they
    /// are the digest. A field isn't cut: an entry has up to 65,795 bytes, and the executed instances up to 189,004.
    #[tactic(auto, using(crate::proofs::Giving::piece_left, crate::proofs::Giving::given_more, crate::proofs::Giving::digest_is, crate::proofs::Giving::digest_left, crate::proofs::Short::is_something, crate::proofs::Short::sum_short))]
    pub fn give(&mut self, alloc: Global, most: usize) -> Result<Vec<u8>, AllocError>
        ensures ok { IfOk result (λ bytes. self.old.left ≡ bytes.items ++ self.new.left) }
        ensures more { IfOk result (λ bytes. bytes.items ≡ [] → self.old.left ≡ []) }
        ensures short { IfOk result (λ bytes. length bytes.items ≤ max most longest_field) }
        ensures alone { IfOk result (λ bytes. IsAlone self.old.file bytes.items self.new.left) }
        ensures file { self.new.file ≡ self.old.file }
        ensures err { OnErr result (self.new ≡ self.old) }
    {
        match self.stage {
            Stage::Front => {
                // (so what follows takes no copy)
                self.file.settle()?;
                let (bytes, stage) = first_piece(alloc, &self.file, most)?;
                self.hasher.update(&bytes);
                self.stage = stage;
                Ok(bytes)
            }
            Stage::Entries(start) => {
                let (bytes, stage) = piece_from(alloc, &self.file, start, most)?;
                self.hasher.update(&bytes);
                self.stage = stage;
                Ok(bytes)
            }
            Stage::Digest => {
                let mut bytes = vec![in alloc; 0; 32]?;
                let hasher = mem::replace(&mut self.hasher, Sha256::new());
                bytes.copy_from_slice(&hasher.finalize());
                self.stage = Stage::Over;
                Ok(bytes)
            }
            Stage::Over => Ok(Vec::new(alloc)),
        }
    }

    /// The file, and no longer how much of it was given.
    pub fn into_file(self) -> OpeningFile
        ensures { result ≡ self.file }
    {
        let Checkpoint {
            file,
            hasher: _,
            stage: _,
        } = self;
        file
    }
}
