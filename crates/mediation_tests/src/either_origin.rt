//! Opens and links judged by a compiled profile, and by ones that were loaded from images of the same rules.
use matcher::{AnyProfile, CompiledProfile, LoadedProfile, chained_table_of, table_of};
use mediation::{judge_file, judge_names, told_is_the_one_verdict};
use names::{Errno, Perms};
use path_walk::{Change, LinkBytes, PlainTree, Scratch, WalkFault};
use rule_text::{LinkVerdict, Profile, Verdict, read};
use std::alloc::Global;
use std::process::Abort;
use std::test::Fail;
use table_image::{to_bytes, to_bytes_v1};
use test_parts::path;

fn rules(alloc: Global) -> Result<Profile, Fail> {
    Ok(read(
        alloc,
        b"profile p {\n  /d/* r,\n  deny /d/k w,\n  /m rl,\n  /n rwl,\n}\n",
    )?)
}

fn compiled(alloc: Global) -> Result<AnyProfile, Fail> {
    Ok(AnyProfile::Compiled(CompiledProfile::make(alloc, rules(alloc)?)?))
}

fn loaded(alloc: Global, image: &[u8]) -> Result<AnyProfile, Fail> {
    Ok(AnyProfile::Loaded(LoadedProfile::make(alloc, image)?))
}

// The image of the rules in version 1.
fn first_image(alloc: Global) -> Result<Vec<u8>, Fail> {
    let table = table_of(alloc, &rules(alloc)?)?;
    if !table.fits_version_1() {
        return Err(Fail::from("append isn't write"));
    }
    Ok(to_bytes_v1(alloc, &table)?)
}

// Their image in version 2, with chains of defaults up to a depth.
fn second_image(alloc: Global, most_depth: u16) -> Result<Vec<u8>, Fail> {
    Ok(to_bytes(alloc, &chained_table_of(alloc, &rules(alloc)?, most_depth)?)?)
}

// `/d` with the files `/d/f` and `/d/k`, and a link `/l` to it.
fn tree(alloc: Global) -> Result<PlainTree, Fail> {
    let mut tree = PlainTree::new(alloc, 9).ok().ok_or("memory")?;
    tree.apply(&Change::Mkdir(path(b"/d")?))
        .ok()
        .ok_or("mkdir")?;
    tree.apply(&Change::Create(path(b"/d/f")?))
        .ok()
        .ok_or("create")?;
    tree.apply(&Change::Create(path(b"/d/k")?))
        .ok()
        .ok_or("create")?;
    tree.apply(&Change::Symlink(LinkBytes::new(b"d"), path(b"/l")?))
        .ok()
        .ok_or("symlink")?;
    Ok(tree)
}

// The verdict on what a path leads to, and its name.
type Opened<'a> = Result<(Verdict, &'a [u8]), WalkFault>;

fn opens(rt: &impl Abort, alloc: Global, profile: &AnyProfile) -> Result<(), Fail> {
    let mut tree = tree(alloc)?;
    let mut scratch = Scratch::new();
    let mut room = [0; 4096];
    let write = Perms::from_letters(b"w").ok_or("letters")?;
    let cases: [(&[u8], &[u8], Opened<'_>); 5] = [
        (b"/l/f", b"r", Ok((Verdict::Allowed, b"/d/f"))),
        (
            b"/d/f",
            b"rw",
            Ok((Verdict::NoRule { missing: write }, b"/d/f")),
        ),
        (b"/d/k", b"rw", Ok((Verdict::Denied { rule: 2 }, b"/d/k"))),
        (b"/d/x", b"r", Err(WalkFault::Refused(Errno::ENOENT))),
        (b"/d/f", b"rl", Err(WalkFault::Refused(Errno::EINVAL))),
    ];
    for (text, letters, wanted) in cases {
        let ask = Perms::from_letters(letters).ok_or("letters")?;
        let judged = judge_file(&mut tree, profile, text, ask, &mut scratch, &mut room);
        match (judged, wanted) {
            (Ok(judged), Ok((verdict, name))) => {
                assert_eq!(rt; judged.verdict, verdict);
                assert!(rt; &room[..judged.name_length] == name);
            }
            (Err(fault), Err(other)) => assert_eq!(rt; fault, other),
            _ => return Err(Fail::from("another answer")),
        }
    }
    Ok(())
}

fn links(rt: &impl Abort, alloc: Global, profile: &AnyProfile) -> Result<(), Fail> {
    let mut tree = tree(alloc)?;
    let mut scratch = Scratch::new();
    let mut room = [0; 4096];
    let link = Perms::from_letters(b"l").ok_or("letters")?;
    // Who may write may append.
    let write = Perms::from_letters(b"wa").ok_or("letters")?;
    let cases: [(&[u8], LinkVerdict); 3] = [
        (b"/m", LinkVerdict::Fine),
        (b"/n", LinkVerdict::Wider { extra: write }),
        (
            b"/o",
            LinkVerdict::Refused(Verdict::NoRule { missing: link }),
        ),
    ];
    for (new, wanted) in cases {
        let (old, new) = (path(b"/l/f")?, path(new)?);
        let judged = judge_names(&mut tree, profile, &old, &new, &mut scratch, &mut room);
        let judged = judged.ok().ok_or("no verdict")?;
        assert_eq!(rt; judged.verdict, wanted);
        assert_eq!(rt; judged.node, 3);
        assert!(rt; &room[..judged.name_length] == new.as_bytes());
    }
    Ok(())
}

#[test]
fn by_rules(rt: HostRuntime) -> Result<(), Fail> {
    let profile = compiled(rt.alloc())?;
    opens(&rt, rt.alloc(), &profile)?;
    links(&rt, rt.alloc(), &profile)
}

fn by_image(rt: &impl Abort, alloc: Global, image: &[u8]) -> Result<(), Fail> {
    told_is_the_one_verdict();
    let profile = loaded(alloc, image)?;
    opens(rt, alloc, &profile)?;
    links(rt, alloc, &profile)
}

#[test]
fn by_images_of_both_versions(rt: HostRuntime) -> Result<(), Fail> {
    let alloc = rt.alloc();
    by_image(&rt, alloc, &first_image(alloc)?)?;
    by_image(&rt, alloc, &second_image(alloc, 0)?)
}

#[test]
fn by_an_image_with_chains(rt: HostRuntime) -> Result<(), Fail> {
    let alloc = rt.alloc();
    let image = second_image(alloc, 4)?;
    // The bound of depths, which is no more than the depth asked for.
    assert!(rt; image.get(6).copied().unwrap_or(0) > 0);
    by_image(&rt, alloc, &image)
}
