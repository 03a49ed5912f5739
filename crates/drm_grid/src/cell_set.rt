//! Sets of cells.

ghost use Rattle.std.specs.Prelude.{◌≡◌, ◌+◌, ◌*◌, ◌/◌, ◌%◌, ◌^◌, ◌<◌, ◌≤◌, ◌↔◌, ℕ, min, IsTrue, IfOk, Bool, List, true, false, length, replicate, slice_set, slice_index};
ghost use Rattle.std.specs.Int.{bit_at};
ghost use Rattle.drm_grid.specs.CellSet.{Has, HasBetween, IsCommon, IsMissing, IsLeast, AreCells};
ghost use Rattle.drm_grid.specs.Words.{IsBitCell};

use drm_outside::{List, Memory};
use std::alloc::Global;
use std::marker::Model;

/// How many cells a word holds.
const BITS: u32 = 64;

/// A set of the cells below a size, which contracts see as the list of its flags, one for each cell.
///
/// It takes one bit a cell.
#[derive(Drop, Debug)]
pub struct CellSet {
    words: Vec<u64>,
    cells: u32,
}

impl Model for CellSet {
    ghost use Rattle.std.specs.Prelude.{List, Bool};

    ghost Value = { List Bool };

    ghost use Rattle.drm_grid.specs.Words.{flags_of, IsPacked};

    ghost view = { λ set. flags_of set.words.items set.cells };

    ghost invariant = { λ set. IsPacked set.words.items set.cells };
}

impl CellSet {
    /// The empty set of the cells below `cells`.
    pub fn new(alloc: Global, cells: u32) -> Result<CellSet, Memory>
        requires { cells ≤ 65536 }
        ensures { IfOk result (λ set. set ≡ replicate cells false) }
    {
        Ok(CellSet {
            words: vec![in alloc; 0; cells.div_ceil(BITS) as usize]?,
            cells,
        })
    }

    /// The set of all cells below `cells`.
    pub fn full(alloc: Global, cells: u32) -> Result<CellSet, Memory>
        requires { cells ≤ 65536 }
        ensures { IfOk result (λ set. set ≡ replicate cells true) }
    {
        let mut words = vec![in alloc; u64::MAX; cells.div_ceil(BITS) as usize]?;
        let rest = cells % BITS;
        if rest != 0 {
            words[(cells / BITS) as usize] = u64::MAX >> (BITS - rest);
        }
        Ok(CellSet { words, cells })
    }

    /// The number of cells below which the set's cells are.
    pub fn size(&self) -> u32
        ensures exact { result ≡ length self.now }
        ensures limit { length self.now ≤ 65536 }
    {
        self.cells
    }

    /// Adds a cell. A set that has it already stays as it is.
    pub fn insert(&mut self, cell: u32)
        requires { cell < length self.old }
        ensures { self.new ≡ slice_set self.old cell true }
    {
        self.words[(cell / BITS) as usize] |= 1 << (cell % BITS);
    }

    /// Takes a cell out. A set that lacks it stays as it is.
    pub fn remove(&mut self, cell: u32)
        requires { cell < length self.old }
        ensures { self.new ≡ slice_set self.old cell false }
    {
        self.words[(cell / BITS) as usize] &= !(1 << (cell % BITS));
    }

    /// Takes out all cells of the other set.
    pub fn remove_all(&mut self, other: &CellSet)
        requires { length self.old ≡ length other.now }
        ensures size { length self.new ≡ length self.old }
        ensures exact { (cell : ℕ) → Has self.new cell ↔ IsMissing self.old other.now cell }
    {
        for place in 0..self.words.len() {
            self.words[place] &= !other.words[place];
        }
    }

    /// A set with the same cells.
    pub fn copy(&self, alloc: Global) -> Result<CellSet, Memory>
        ensures { IfOk result (λ set. set ≡ self.now) }
    {
        let mut words = Vec::with_capacity(alloc, self.words.len())?;
        words.extend_from_slice(&self.words)?;
        Ok(CellSet {
            words,
            cells: self.cells,
        })
    }

    /// Makes the set equal to another of its size. It takes no memory.
    pub fn copy_from(&mut self, other: &CellSet)
        requires { length self.old ≡ length other.now }
        ensures { self.new ≡ other.now }
    {
        self.words.copy_from_slice(&other.words);
    }

    /// Says whether the set has the cell.
    pub fn has(&self, cell: u32) -> bool
        requires { cell < length self.now }
        ensures { IsTrue result ↔ Has self.now cell }
    {
        (self.words[(cell / BITS) as usize] >> (cell % BITS)) & 1 == 1
    }

    /// The least cell that both sets have, or none where they have no cell in common.
    pub fn meets_first(&self, other: &CellSet) -> Option<u32>
        requires { length self.now ≡ length other.now }
        ensures { IsLeast (IsCommon self.now other.now) result }
    {
        for place in 0..self.words.len() {
            let both = self.words[place] & other.words[place];
            if both != 0 {
                return Some(lowest_cell(place, both));
            }
        }
        None
    }

    /// The least cell of this set that the other lacks, or none where this set is contained in the other.
    pub fn first_outside(&self, other: &CellSet) -> Option<u32>
        requires { length self.now ≡ length other.now }
        ensures { IsLeast (IsMissing self.now other.now) result }
    {
        for place in 0..self.words.len() {
            let missing = self.words[place] & !other.words[place];
            if missing != 0 {
                return Some(lowest_cell(place, missing));
            }
        }
        None
    }

    /// The least cell of the set from `first` on and below `end`, or none where it has none there.
    pub fn next_in(&self, first: u32, end: u32) -> Option<u32>
        requires { end ≤ length self.now }
        ensures { IsLeast (HasBetween self.now first end) result }
    {
        for place in first / BITS..end.div_ceil(BITS) {
            let word = cells_from(self.words[place as usize], place, first);
            if word != 0 {
                let cell = lowest_cell(place as usize, word);
                return if cell < end { Some(cell) } else { None };
            }
        }
        None
    }

    /// The cells of the set, in increasing order.
    pub fn to_list(&self, alloc: Global) -> Result<List<u16>, Memory>
        ensures { IfOk result (λ cells. AreCells self.now cells) }
    {
        let mut cells = Vec::new(alloc);
        let mut first = 0;
        while let Some(cell) = self.next_in(first, self.cells) {
            cells.push(cell as u16)?;
            first = cell + 1;
        }
        Ok(List::from_vec(cells))
    }
}

/// The least cell of the word at this place, which has one.
fn lowest_cell(place: usize, word: u64) -> u32
    requires some { 0 < word }
    requires place { place < 1024 }
    ensures is { IsBitCell place word result }
    ensures least { (cell : ℕ) → cell < result → IsBitCell place word cell → ⊥ }
{
    place as u32 * BITS + word.trailing_zeros()
}

/// The cells from `first` on that the word at this place has.
fn cells_from(word: u64, place: u32, first: u32) -> u64
    requires start { first / 64 ≤ place }
    requires place { place < 1024 }
    ensures { (bit : ℕ) → bit < 64 → (bit_at result bit ≡ 1) ↔ ((first ≤ place * 64 + bit) × (bit_at word bit ≡ 1)) }
{
    let skipped = first.saturating_sub(place * BITS);
    word >> skipped << skipped
}
