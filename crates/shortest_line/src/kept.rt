//! The kept boards: their keys, each once, and how each was reached.
ghost use Rattle.std.specs.Prelude.{◌≡◌, ◌≢◌, ◌+◌, ◌<◌, ◌≤◌, ℕ, false, [], ◌∷◌, length, slice_index, slice_index_or};
ghost use Rattle.std.specs.Prelude.{IfOk, OnOk, OnErr, IsTrue, ◌↔◌, Contains, reverse};
ghost use Rattle.shortest_line.specs.Tree.{line_at, lines_of, with_board};
ghost use Rattle.shortest_line.specs.Table.{hash_of, reached_at};

use byte_rows::ByteRows;
use card_piles::NoMemory;
use game_rules::Move;
use hash_chains::HashChains;
use pile_symmetry::Key;
use std::alloc::Global;
use std::hash::{BuildHasher, BuildHasherDefault, FoldHasher, Hash, Hasher};
use std::marker::Model;

/// By which move a board was reached, and the place of the board before it.
#[derive(Clone, Copy, Debug)]
pub struct Reached {
    pub by: Move,
    pub from: u32,
}

/// The kept boards. The start is at place 0.
#[derive(Drop)]
pub struct Kept {
    keys: ByteRows,
    /// How the boards from place 1 on were reached.
    reached: Vec<Reached>,
    /// The places by the hash of their keys.
    index: HashChains,
    hasher: BuildHasherDefault<FoldHasher>,
}

impl Model for Kept {
    ghost use Rattle.shortest_line.specs.Tree.{Tree, lines_of};
    ghost use Rattle.shortest_line.specs.Table.{IsTable, hash_of};

    ghost Value = { Tree };

    ghost view = { λ k. record { keys = k.keys; lines = lines_of k.reached.items } };

    ghost invariant = { λ k. IsTable (hash_of k.hasher) k.keys k.reached.items k.index.hashes };
}

/// The hash of a key.
fn hash_of(hasher: &BuildHasherDefault<FoldHasher>, key: &Key) -> u32
    ensures { result ≡ hash_of hasher.now key.now }
{
    let mut state = hasher.build_hasher();
    key.hash(&mut state);
    (state.finish() % 0x1_0000_0000) as u32
}

/// Whether one of the rows with this hash is the row.
fn is_there(keys: &ByteRows, index: &HashChains, row: &[u8], hash: u32) -> bool
    requires same { length index.now.hashes ≡ length keys.now }
    ensures found { IsTrue result → Contains keys.now row.now }
    ensures none { result ≡ false → (j : ℕ) → j < length keys.now
        → slice_index index.now.hashes j ≡ hash → slice_index_or keys.now j [] ≢ row.now }
{
    let mut node = index.last_with(hash);
    while node != 0 {
        if keys.is_equal(node as usize - 1, row) {
            return true;
        }
        node = index.next_with(node);
    }
    false
}

/// The moves to the board at a place, last first.
fn moves_back(alloc: Global, reached: &Vec<Reached>, place: usize) -> Result<Vec<Move>, NoMemory>
    requires there { place ≤ length reached.now.items }
    requires earlier { (i : ℕ) → i < length reached.now.items
        → (reached_at reached.now.items i).from ≤ i }
    ensures { IfOk result (λ moves. line_at (lines_of reached.now.items) place
        ≡ reverse moves.items) }
{
    let mut moves = Vec::new(alloc);
    let mut at = place;
    while at != 0 {
        let step = reached[at - 1];
        moves.push(step.by)?;
        at = step.from as usize;
    }
    Ok(moves)
}

impl Kept {
    /// The start alone, with this key.
    pub fn new(alloc: Global, key: &Key) -> Result<Kept, NoMemory>
        requires { length key.now ≤ 320 }
        ensures { IfOk result
            (λ kept. kept ≡ record { keys = key.now ∷ []; lines = [] ∷ [] }) }
    {
        let hasher = BuildHasherDefault::new();
        let mut keys = ByteRows::new(alloc);
        let mut index = HashChains::new(alloc)?;
        index.make_room()?;
        keys.push(key.bytes())?;
        index.push(hash_of(&hasher, key));
        Ok(Kept {
            keys,
            reached: Vec::new(alloc),
            index,
            hasher,
        })
    }

    /// How many boards are kept.
    pub fn len(&self) -> usize
        ensures keys { result ≡ length self.now.keys }
        ensures lines { result ≡ length self.now.lines }
        ensures some { 0 < result }
    {
        self.keys.len()
    }

    /// Whether a kept board has the key.
    pub fn contains(&self, key: &Key) -> bool
        ensures { IsTrue result ↔ Contains self.now.keys key.now }
    {
        is_there(
            &self.keys,
            &self.index,
            key.bytes(),
            hash_of(&self.hasher, key),
        )
    }

    /// Keeps a board that was reached by a move from that at a place.
    pub fn keep(&mut self, key: &Key, from: usize, by: Move) -> Result<(), NoMemory>
        requires short { length key.now ≤ 320 }
        requires there { from < length self.old.lines }
        requires few { length self.old.lines < 4000000 }
        ensures kept { OnOk result (self.new ≡ with_board self.old key.now from by) }
        ensures unchanged { OnErr result (self.new ≡ self.old) }
    {
        // Room first: after a refusal all is as before.
        self.index.make_room()?;
        self.reached.reserve(1)?;
        self.keys.push(key.bytes())?;
        self.index.push(hash_of(&self.hasher, key));
        match self.reached.push(Reached {
            by,
            from: from as u32,
        }) {
            Ok(()) => {}
            Err(_) => unreachable!(),
        }
        Ok(())
    }

    /// The line of the board at a place.
    pub fn line(&self, alloc: Global, place: usize) -> Result<Vec<Move>, NoMemory>
        requires { place < length self.now.lines }
        ensures { IfOk result (λ moves. moves.items ≡ line_at self.now.lines place) }
    {
        let mut moves = moves_back(alloc, &self.reached, place)?;
        moves.reverse();
        Ok(moves)
    }
}
