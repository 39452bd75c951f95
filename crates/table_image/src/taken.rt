//! Which cells are taken, and where a row fits: 64 bases are tested at once.
ghost use Rattle.std.specs.Prelude.{◌≡◌, ℕ, ◌+◌, ◌*◌, ◌<◌, ◌≤◌, ◌/◌, ◌⊎◌, ◌||◌, ◌==◌, ◌^◌, OnOk, length, true, false};
ghost use Rattle.table_image.specs.inner.TakenCells.{is_bit, is_taken, is_blocked, IsLeastFree};

use std::alloc::{AllocError, Global};

// The number of cells in a word.
const WORD: usize = 64;

/// A bit for each cell. Cells past the end aren't taken.
#[derive(Drop)]
pub(crate) struct Taken {
    words: Vec<u64>,
}

impl Taken {
    /// No cell is taken.
    pub(crate) fn new(alloc: Global) -> Taken
        ensures free { (c : ℕ) → is_taken result c ≡ false }
        ensures none { length result.words.items ≡ 0 }
    {
        Taken {
            words: Vec::new(alloc),
        }
    }

    /// Makes room for this number of cells.
    pub(crate) fn make_room(&mut self, cells: usize) -> Result<(), AllocError>
        requires { cells < 2 ^ 32 }
        ensures room { OnOk result (cells ≤ 64 * length self.new.words.items) }
        ensures few { OnOk result ((length self.new.words.items ≤ length self.old.words.items)
            ⊎ (length self.new.words.items ≤ cells / 64 + 1)) }
        ensures same { OnOk result ((c : ℕ) → is_taken self.new c ≡ is_taken self.old c) }
    {
        let words = cells / WORD + 1;
        if words > self.words.len() {
            self.words.resize(words, 0)?;
        }
        Ok(())
    }

    /// Takes a cell.
    pub(crate) fn take(&mut self, cell: usize)
        requires { cell < 64 * length self.old.words.items }
        ensures taken { (c : ℕ) → is_taken self.new c ≡ (is_taken self.old c || (c == cell)) }
        ensures long { length self.new.words.items ≡ length self.old.words.items }
    {
        let word = cell / WORD;
        self.words[word] = self.words[word] | (1 << (cell % WORD));
    }

    // The word with an index, or 0 past the end.
    #[inline(always)]
    fn word(&self, index: usize) -> u64
        ensures { (i : ℕ) → i < 64 → is_bit result i ≡ is_taken self.now (64 * index + i) }
    {
        match self.words.get(index) {
            Some(word) => *word,
            None => 0,
        }
    }

    // Which of the 64 cells from one on are taken.
    #[inline(always)]
    fn window(&self, at: usize) -> u64
        ensures { (i : ℕ) → i < 64 → is_bit result i ≡ is_taken self.now (at + i) }
    {
        let index = at / WORD;
        let over = at % WORD;
        let low = self.word(index);
        if over == 0 {
            return low;
        }
        (low >> over) | (self.word(index + 1) << (WORD - over))
    }

    // For which of the 64 bases from one on the cell of some byte is taken.
    fn blocked(&self, bytes: &[u8], base: usize) -> u64
        requires { base < 2 ^ 33 }
        ensures { (i : ℕ) → i < 64 → is_bit result i ≡ is_blocked self.now bytes.now (base + i) }
    {
        let mut blocked = 0;
        for byte in bytes {
            blocked = blocked | self.window(base + usize::from(*byte));
        }
        blocked
    }

    /// The least base at which no cell of these bytes is taken. If no cell from a limit on is taken, it isn't above the limit. The
    /// search begins at a base below which they fit nowhere.
    pub(crate) fn place(&self, bytes: &[u8], limit: usize, start: usize) -> usize
        requires few { length self.now.words.items < 2 ^ 26 }
        requires free { (c : ℕ) → limit ≤ c → is_taken self.now c ≡ false }
        requires small { limit < 2 ^ 32 }
        requires start { (x : ℕ) → x < start → is_blocked self.now bytes.now x ≡ true }
        ensures low { result ≤ limit }
        ensures free { is_blocked self.now bytes.now result ≡ false }
        ensures least { (x : ℕ) → x < result → is_blocked self.now bytes.now x ≡ true }
    {
        let _ = limit;
        self.least_base(bytes, start)
    }

    // The least base from one on at which no cell of these bytes is taken.
    fn least_base(&self, bytes: &[u8], from: usize) -> usize
        requires from { from < 2 ^ 32 }
        requires few { length self.now.words.items < 2 ^ 26 }
        ensures { IsLeastFree self.now bytes.now from result }
    {
        let end = WORD * self.words.len();
        let mut base = from;
        while base < end {
            let blocked = self.blocked(bytes, base);
            if blocked != u64::MAX {
                return base + blocked.trailing_ones() as usize;
            }
            base += WORD;
        }
        base
    }
}
