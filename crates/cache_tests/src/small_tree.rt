//! Walks and names in the small tree, by looks that end.
use names::{Errno, Path};
use path_walk::{Last, Scratch, WalkFault, name_of, resolve};
use std::process::Abort;
use std::test::Fail;
use test_parts::{EndsAfter, Place, SmallTree, path};

// A path, whether a link at its end is followed, the total number of reads, and where it leads.
type Walk<'a> = (&'a [u8], Last, u64, Result<Place, WalkFault>);

fn expect_walks(rt: &impl Abort, rows: &[Walk]) -> Result<(), Fail> {
    for row in rows {
        assert!(rt; leads_there(row)?, "{row:?}");
    }
    Ok(())
}

// Whether this many reads are enough and fewer are not, and the answer is this.
fn leads_there((at, last, reads, want): &Walk<'_>) -> Result<bool, Fail> {
    let path = path(at)?;
    for reads_left in 0..*reads {
        if walk(&path, *last, reads_left) != Err(WalkFault::Torn) {
            return Ok(false);
        }
    }
    Ok(walk(&path, *last, *reads) == *want)
}

// Where a walk of `reads_left` reads leads.
fn walk(path: &Path<'_>, last: Last, reads_left: u64) -> Result<Place, WalkFault> {
    let mut look = EndsAfter {
        look: SmallTree::new(),
        reads_left,
    };
    resolve(&mut look, path, last, &mut Scratch::new())
}

#[test]
fn walks(rt: HostRuntime) -> Result<(), Fail> {
    let none = Err(WalkFault::Refused(Errno::ENOENT));
    let no_directory = Err(WalkFault::Refused(Errno::ENOTDIR));
    let ring = Err(WalkFault::Refused(Errno::ELOOP));
    expect_walks(
        &rt,
        &[
            (b"/", Last::Follow, 0, Ok(Place::Root)),
            (b"/..", Last::Follow, 1, Ok(Place::Root)),
            (b"/../.././a/", Last::Follow, 4, Ok(Place::A)),
            (b"/a/..", Last::Follow, 3, Ok(Place::Root)),
            (b"/a//f", Last::Follow, 4, Ok(Place::F)),
            (b"/a/f/", Last::Follow, 4, no_directory),
            (b"/a/f/..", Last::Follow, 4, no_directory),
            (b"/b", Last::Follow, 1, none),
            (b"/a/l", Last::Follow, 9, Ok(Place::F)),
            (b"/a/l", Last::Stay, 4, Ok(Place::L)),
            (b"/a/l/", Last::Stay, 9, no_directory),
            (b"/d", Last::Follow, 5, Ok(Place::A)),
            (b"/d", Last::Stay, 2, Ok(Place::D)),
            (b"/d/", Last::Stay, 5, Ok(Place::A)),
            (b"/d/f", Last::Follow, 7, Ok(Place::F)),
            // Each of the 41 times that the ring is met it is looked up, and 40 of these times its text is read.
            (b"/a/r", Last::Follow, 124, ring),
        ],
    )
}

// The name of a place by a look of `reads_left` reads, put into the room.
fn name_by(place: Place, reads_left: u64, room: &mut [u8; 4096]) -> Result<usize, WalkFault> {
    let mut look = EndsAfter {
        look: SmallTree::new(),
        reads_left,
    };
    name_of(&mut look, place, room)
}

// Whether this many reads are enough and fewer are not, and this is the name.
fn is_named(place: Place, name: &[u8], reads: u64) -> bool {
    for reads_left in 0..reads {
        if name_by(place, reads_left, &mut [0; 4096]) != Err(WalkFault::Torn) {
            return false;
        }
    }
    let mut room = [0; 4096];
    name_by(place, reads, &mut room) == Ok(name.len()) && room.starts_with(name)
}

#[test]
fn names_of_entries(rt: HostRuntime) {
    assert!(rt; is_named(Place::Root, b"/", 2));
    assert!(rt; is_named(Place::A, b"/a/", 4));
    assert!(rt; is_named(Place::F, b"/a/f", 6));
    assert!(rt; is_named(Place::D, b"/d", 4));
}
