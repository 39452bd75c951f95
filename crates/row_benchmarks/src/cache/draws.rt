//! Changes that are drawn: files with numbered names are unlinked and created.
use crate::changes::path;
use crate::numbers::name_of_number;
use dentry_cache::Keeper;
use directory_tree::Change;
use names::Errno;
use rand_core::utils::NextWord;
use rand_pcg::Pcg32;

/// Draws a number, from 1 on, and unlinks its file if there is one, and otherwise creates it; and so `drawn` times. For each number,
/// `are_there` says whether its file is there. Returns how many changes were made: a file for which the tree has no room isn't
/// created. None if a change is refused otherwise.
pub(crate) fn draw_changes(keeper: &mut Keeper, are_there: &mut [bool], drawn: u64) -> Option<u64> {
    let mut random = Pcg32::new(42, 54);
    let mut made: u64 = 0;
    for _ in 0..drawn {
        let place = (random.next_word() as usize).checked_rem(are_there.len())?;
        if change_file(keeper, place + 1, &mut are_there[place])? {
            made = made.saturating_add(1);
        }
    }
    Some(made)
}

// Whether the file of this number was unlinked or created.
fn change_file(keeper: &mut Keeper, number: usize, is_there: &mut bool) -> Option<bool> {
    let name = name_of_number(number);
    let file = path(&name)?;
    let change = if *is_there {
        Change::Unlink(file)
    } else {
        Change::Create(file)
    };
    match keeper.apply(&change) {
        Ok(_) => {
            *is_there = !*is_there;
            Some(true)
        }
        Err(Errno::ENOSPC) if !*is_there => Some(false),
        Err(_) => None,
    }
}
