//! How many links a walk follows.
ghost use Rattle.std.specs.Prelude.{◌≡◌, ◌↔◌, List, ℕ, Err};
ghost use Rattle.names.specs.declared.errors.Errno.TheVariants.{ELOOP};
ghost use Rattle.directory_tree.specs.declared.node.Last.{Last};
ghost use Rattle.directory_tree.specs.Components.{steps_of};
ghost use Rattle.directory_tree.specs.Tree.{Tree, root};
ghost use Rattle.directory_tree.specs.Walk.{walk};
ghost use Rattle.directory_tree.specs.Followed.{links_followed};

/// Whatever the tree, a walk follows at most 40 links: it is refused for links exactly if there is a forty-first.
pub fn at_most_forty_links()
    ensures { (t : Tree) (last : Last) (text : List ℕ) →
        (walk t last text ≡ Err ELOOP) ↔ (links_followed t last 41 root (steps_of text) ≡ 41) }
{}
