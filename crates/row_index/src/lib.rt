//! The hashed index of a row of words: at which place the search for an entry begins, what the words of the index say, and
//! what keeps it so. The index is a table with open addressing and linear probing, whose removals move words back.
//!
//! To be believed are about 70 lines of definitions in `specs/`.
#![tactic(auto)]

mod hash;
mod laws;
mod places;

pub use hash::home;
pub use laws::{
    Slots, edits_have_one_result, edits_leave_no_deleted_word, edits_stay_in_index,
    homes_of_used_slots_count, index_lengths_are_least_powers, insertions_keep_index,
    removals_keep_index, searches_miss_nobody, vacancies_are_there, zeros_name_nobody,
};
pub use places::{
    DELETED_WORD, FREE_WORD, index_length, next_place, passes, place_before, word_of,
};
