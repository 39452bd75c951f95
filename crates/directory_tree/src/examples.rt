//! Worked examples: what the definitions of `specs/` answer for short scripts of changes. The functions do nothing: each exists
//! only for its contract.
ghost use Rattle.std.specs.Prelude.{◌≡◌, List, [], ◌∷◌, ◌++◌, codes, Ok, Err};
ghost use Rattle.names.specs.declared.errors.Errno.TheVariants.{EPERM, ENOENT, EBUSY, EEXIST, ENOTDIR, EISDIR, EINVAL, ENOSPC, ELOOP};
ghost use Rattle.names.specs.declared.errors.Errno.TheVariants.{ENOTEMPTY, ENAMETOOLONG};
ghost use Rattle.directory_tree.specs.Components.{slash};
ghost use Rattle.directory_tree.specs.Script.{answers, opened, moved_directory, refusals, renames, full, chain, numbered, through_link};
ghost use Rattle.directory_tree.specs.Script.{long_name, run_of, deep_path};

/// Answers to changes, in their order.
pub fn changes_are_answered()
    ensures moved { answers 9 moved_directory ≡ Ok 1 ∷ Ok 2 ∷ Ok 3 ∷ [] }
    ensures refused { answers 9 refusals
        ≡ Ok 1 ∷ Ok 2 ∷ Ok 3 ∷ Err ENOTEMPTY ∷ Err ENOTDIR ∷ Err EISDIR ∷ Err ENOTEMPTY ∷ Ok 4 ∷ Ok 5
        ∷ Err ENOENT ∷ Err EISDIR ∷ Ok 6 ∷ Err EPERM ∷ Err EPERM ∷ Ok 7 ∷ Err EINVAL
        ∷ Err EBUSY ∷ Err EINVAL ∷ Ok 8 ∷ [] }
    ensures renamed { answers 9 renames
        ≡ Ok 1 ∷ Ok 2 ∷ Err EINVAL ∷ Ok 3 ∷ Ok 4 ∷ Ok 5 ∷ Err ENOTDIR ∷ Err ENOTDIR ∷ [] }
    ensures room { answers 2 full ≡ Ok 1 ∷ Ok 2 ∷ Err ENOSPC ∷ Ok 3 ∷ Ok 4 ∷ Ok 5 ∷ [] }
{}

/// Where paths lead, and the names of what they lead to.
pub fn paths_are_walked()
    ensures moved_file { opened 9 moved_directory (codes "/b/f") ≡ Ok (codes "/b/f") }
    ensures moved_directory { opened 9 moved_directory (codes "/b") ≡ Ok (codes "/b/") }
    ensures no_directory { opened 9 moved_directory (codes "/b/f/") ≡ Err ENOTDIR }
    ensures missing { opened 9 moved_directory (codes "/a/f") ≡ Err ENOENT }
    ensures above_root { opened 9 moved_directory (codes "/..") ≡ Ok (codes "/") }
    ensures up { opened 9 moved_directory (codes "/b/../../b/f//") ≡ Err ENOTDIR }
    ensures through { opened 9 through_link (codes "/l/f") ≡ Ok (codes "/a/f") }
    ensures most_links { opened 99 (chain 39) (numbered 39) ≡ Ok (codes "/f") }
    ensures one_link_more { opened 99 (chain 40) (numbered 40) ≡ Err ELOOP }
{}

/// A name of 4,095 bytes, and one that is a byte longer.
pub fn long_names_are_told()
    ensures longest { opened 99 (long_name 254) (codes "/d5/" ++ run_of 98 254) ≡ Ok (deep_path 15 ++ slash ∷ run_of 98 254) }
    ensures too_long { opened 99 (long_name 255) (codes "/d5/" ++ run_of 98 255) ≡ Err ENAMETOOLONG }
{}
