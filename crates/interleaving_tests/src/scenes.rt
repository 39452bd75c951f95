//! The scenes.
use crate::failure::Failure;
use crate::scene::{Grain, Scene, path, published, rename};
use directory_tree::Change;
use matcher::PolicyChange;
use std::alloc::Global;

/// One rename and two opens, each by another of its two paths.
pub(crate) fn two_opens(alloc: Global, cells: usize) -> Result<Scene, Failure> {
    let mut changes = Vec::new(alloc);
    changes.push(Change::Create(path("/f")?))?;
    changes.push(rename("/f", "/g")?)?;
    let mut policy = Vec::new(alloc);
    policy.push(published(alloc, "profile p {\n  /f r,\n}\n")?)?;
    Ok(Scene {
        opens: vec![in alloc; "/f", "/g"]?,
        changes,
        changes_before: 1,
        policy,
        policy_before: 1,
        grain: Grain::Cells(cells),
    })
}

/// A directory above the file that is opened gets another name, and the old one again. As the searches for both begin at the same
/// word of the index, each rename sets one cell.
pub(crate) fn renamed_directory(alloc: Global) -> Result<Scene, Failure> {
    let mut changes = Vec::new(alloc);
    changes.push(Change::Mkdir(path("/d")?))?;
    changes.push(Change::Create(path("/d/f")?))?;
    changes.push(rename("/d", "/h")?)?;
    changes.push(rename("/h", "/d")?)?;
    let mut policy = Vec::new(alloc);
    policy.push(published(alloc, "profile p {\n  /d/f r,\n}\n")?)?;
    Ok(Scene {
        opens: vec![in alloc; "/d/f"]?,
        changes,
        changes_before: 2,
        policy,
        policy_before: 1,
        grain: Grain::Event,
    })
}

/// A file moves to another directory under another name, by two cells, and back.
pub(crate) fn moved_file(alloc: Global) -> Result<Scene, Failure> {
    let mut changes = Vec::new(alloc);
    changes.push(Change::Mkdir(path("/d")?))?;
    changes.push(Change::Create(path("/f")?))?;
    changes.push(rename("/f", "/d/g")?)?;
    changes.push(rename("/d/g", "/f")?)?;
    let mut policy = Vec::new(alloc);
    policy.push(published(alloc, "profile p {\n  /d/g r,\n}\n")?)?;
    Ok(Scene {
        opens: vec![in alloc; "/d/g"]?,
        changes,
        changes_before: 2,
        policy,
        policy_before: 1,
        grain: Grain::Event,
    })
}

/// A file goes away and comes back while its profile is replaced. As the searches for both names begin at the same word of the index,
/// each rename sets one cell.
pub(crate) fn two_renames(alloc: Global) -> Result<Scene, Failure> {
    let mut changes = Vec::new(alloc);
    changes.push(Change::Create(path("/f")?))?;
    changes.push(rename("/f", "/j")?)?;
    changes.push(rename("/j", "/f")?)?;
    let mut policy = Vec::new(alloc);
    policy.push(published(alloc, "profile p {\n  /f r,\n}\n")?)?;
    policy.push(published(alloc, "profile p {\n  deny /f r,\n}\n")?)?;
    Ok(Scene {
        opens: vec![in alloc; "/f"]?,
        changes,
        changes_before: 1,
        policy,
        policy_before: 1,
        grain: Grain::Event,
    })
}

/// The searches for two files begin at the same word of the index. As the first file goes, the word of the second, which is opened,
/// moves back.
pub(crate) fn word_moved_back(alloc: Global) -> Result<Scene, Failure> {
    let mut changes = Vec::new(alloc);
    changes.push(Change::Create(path("/Aa")?))?;
    changes.push(Change::Create(path("/BB")?))?;
    changes.push(Change::Unlink(path("/Aa")?))?;
    let mut policy = Vec::new(alloc);
    policy.push(published(alloc, "profile p {\n  /BB r,\n}\n")?)?;
    Ok(Scene {
        opens: vec![in alloc; "/BB"]?,
        changes,
        changes_before: 2,
        policy,
        policy_before: 1,
        grain: Grain::Event,
    })
}

/// A path loses its file, and gets another one, while the profile goes.
pub(crate) fn another_file(alloc: Global) -> Result<Scene, Failure> {
    let mut changes = Vec::new(alloc);
    changes.push(Change::Create(path("/f")?))?;
    changes.push(Change::Unlink(path("/f")?))?;
    changes.push(Change::Create(path("/f")?))?;
    let mut policy = Vec::new(alloc);
    policy.push(published(alloc, "profile p {\n  /f r,\n}\n")?)?;
    policy.push(PolicyChange::Remove(Vec::from_slice(alloc, b"p")?))?;
    Ok(Scene {
        opens: vec![in alloc; "/f"]?,
        changes,
        changes_before: 1,
        policy,
        policy_before: 1,
        grain: Grain::Event,
    })
}
