//! Laws of indexes. The functions do nothing: each is there for its contract.
ghost use Rattle.std.specs.Prelude.{◌≡◌, ◌≢◌, ◌<◌, ◌≤◌, ◌+◌, ◌*◌, ◌^◌, ℕ, List, length, slice_index};
ghost use Rattle.row_index.specs.Places.{around, index_length};
ghost use Rattle.row_index.specs.Index.{Indexes, HaveHomes, IsOneMore, IsOneFewer, Ends};
ghost use Rattle.row_index.specs.Edits.{index_at, Inserts, Removes};

/// The slots that are used, and the place at which the search for each begins.
pub trait Slots {
    ghost used: { ℕ → Type 0 };

    ghost home: { ℕ → ℕ };
}

/// The length of an index is the least power of two that is twice the capacity or more.
pub fn index_lengths_are_least_powers()
    ensures power { (capacity : ℕ) → (k : ℕ) × (index_length capacity ≡ 2 ^ k) }
    ensures enough { (capacity : ℕ) → 2 * capacity ≤ index_length capacity }
    ensures some { (capacity : ℕ) → 0 < index_length capacity }
    ensures least { (capacity j : ℕ) → 2 * capacity ≤ 2 ^ j → index_length capacity ≤ 2 ^ j }
{}

/// Where no slot is used, words that are all 0 are an index.
pub fn zeros_name_nobody<S: Slots>()
    ensures { (size : ℕ) (word : ℕ → ℕ) → ((p : ℕ) → p < size → word p ≡ 0) → ((x : ℕ) → ¬ (S.used x))
        → Indexes size word S.used S.home }
{}

/// A search that ends without a slot's number shows that the slot isn't used.
pub fn searches_miss_nobody<S: Slots>()
    ensures { (size s steps : ℕ) (word : ℕ → ℕ) → Indexes size word S.used S.home → Ends size word (S.home s) steps
        → ((i : ℕ) → i < steps → word (around size (S.home s + i)) ≢ s + 1) → ¬ (S.used s) }
{}

/// Where fewer slots may be used than there are words, a word is 0 or 1.
pub fn vacancies_are_there<S: Slots>()
    ensures { (size most start : ℕ) (word : ℕ → ℕ) → Indexes size word S.used S.home
        → ((x : ℕ) → S.used x → (0 < x) × (x ≤ most)) → most < size → start < size
        → ¬ ((i : ℕ) → i < size → 2 ≤ word (around size (start + i))) }
{}

/// An insertion keeps the index.
pub fn insertions_keep_index<S: Slots, T: Slots>()
    ensures { (base size s : ℕ) (row after : List ℕ) → base + size ≤ length row → HaveHomes size S.used S.home
        → S.home s < size → IsOneMore S.used T.used s → Indexes size (index_at row base) S.used S.home
        → Inserts base size (S.home s) s row after → Indexes size (index_at after base) T.used S.home }
{}

/// A removal keeps the index.
pub fn removals_keep_index<S: Slots, T: Slots>()
    ensures { (base size s : ℕ) (row after : List ℕ) → base + size ≤ length row → HaveHomes size S.used S.home
        → IsOneFewer S.used T.used s → Indexes size (index_at row base) S.used S.home
        → Removes base size S.home s row after → Indexes size (index_at after base) T.used S.home }
{}

/// Only the homes of used slots count.
pub fn homes_of_used_slots_count<S: Slots, T: Slots>()
    ensures { (size : ℕ) (word : ℕ → ℕ) → ((s : ℕ) → S.used s → T.home s ≡ S.home s)
        → Indexes size word S.used S.home → Indexes size word S.used T.home }
{}

/// What is left by an insertion, and by a removal from an index, is one row.
pub fn edits_have_one_result<S: Slots>()
    ensures inserted { (base size home s : ℕ) (row one other : List ℕ) → Inserts base size home s row one
        → Inserts base size home s row other → one ≡ other }
    ensures removed { (base size s : ℕ) (row one other : List ℕ) → Indexes size (index_at row base) S.used S.home
        → S.used s → Removes base size S.home s row one → Removes base size S.home s row other → one ≡ other }
{}

/// Insertions and removals keep the cells before the index and after it, and the number of all cells.
pub fn edits_stay_in_index<S: Slots>()
    ensures inserted_before { (base size home s k : ℕ) (row after : List ℕ) → Inserts base size home s row after
        → k < base → slice_index after k ≡ slice_index row k }
    ensures inserted_after { (base size home s k : ℕ) (row after : List ℕ) → home < size
        → Inserts base size home s row after → base + size ≤ k → slice_index after k ≡ slice_index row k }
    ensures inserted_long { (base size home s : ℕ) (row after : List ℕ) → Inserts base size home s row after
        → length after ≡ length row }
    ensures removed_before { (base size s k : ℕ) (row after : List ℕ) → Removes base size S.home s row after
        → k < base → slice_index after k ≡ slice_index row k }
    ensures removed_after { (base size s k : ℕ) (row after : List ℕ) → Removes base size S.home s row after
        → base + size ≤ k → slice_index after k ≡ slice_index row k }
    ensures removed_long { (base size s : ℕ) (row after : List ℕ) → Removes base size S.home s row after
        → length after ≡ length row }
{}

/// Where no word of an index is deleted and one is free, none is deleted after an insertion or a removal.
pub fn edits_leave_no_deleted_word<S: Slots>()
    ensures inserted { (base size home s : ℕ) (row after : List ℕ) → base + size ≤ length row → 0 < s
        → ((p : ℕ) → p < size → index_at row base p ≢ 1) → Inserts base size home s row after
        → (p : ℕ) → p < size → index_at after base p ≢ 1 }
    ensures removed { (base size s free : ℕ) (row after : List ℕ) → base + size ≤ length row
        → ((p : ℕ) → p < size → index_at row base p ≢ 1) → free < size → index_at row base free ≡ 0
        → Removes base size S.home s row after → (p : ℕ) → p < size → index_at after base p ≢ 1 }
{}
