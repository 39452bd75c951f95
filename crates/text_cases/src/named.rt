//! Paths of the tree, and names of profiles.
use names::Path;
use rule_making::profile_of;
use std::alloc::Global;
use std::io;
use std::io::Write;

/// Shows whether the bytes are a path, or why they aren't.
pub(crate) fn tell_path<W: Write>(bytes: &[u8], output: &mut W) -> io::Result<()> {
    match Path::check(bytes) {
        Ok(_) => writeln!(output, "a path"),
        Err(errno) => writeln!(output, "{errno}"),
    }
}

/// Shows a path's components, with a bar between each two.
pub(crate) fn tell_components<W: Write>(bytes: &[u8], output: &mut W) -> io::Result<()> {
    match Path::check(bytes) {
        Ok(path) => tell_components_of(&path, output),
        Err(errno) => writeln!(output, "{errno}"),
    }
}

fn tell_components_of<W: Write>(path: &Path<'_>, output: &mut W) -> io::Result<()> {
    let mut is_first = true;
    for component in path.components() {
        if !is_first {
            write!(output, "|")?;
        }
        is_first = false;
        output.write_all(component)?;
    }
    writeln!(output)
}

/// Shows whether there is a profile of the name.
pub(crate) fn tell_profile_name<W: Write>(
    alloc: Global,
    name: &[u8],
    output: &mut W,
) -> io::Result<()> {
    match profile_of(Vec::from_slice(alloc, name)?, Vec::new(alloc)) {
        Some(_) => writeln!(output, "a name"),
        None => writeln!(output, "no name"),
    }
}
