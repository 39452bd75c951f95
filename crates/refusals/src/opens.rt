//! Files opened and links made by a session, concurrently with the keeper and with it held exclusively, before and after a change.
ghost use Rattle.std.specs.Prelude.{◌≡◌};
ghost use mathlib.Core.List.{IsPrefix};

mod scene;
mod still;

use self::scene::{RULES, keeper_of_files, new_session, select};
use self::still::is_still_at;
use crate::answers::{Named, name_text};
use crate::policy::{new_publisher, publish_profile};
use dentry_cache::Keeper;
use directory_tree::Change;
use justification::Answer;
use mediation::{Answer as AnswerAtHand, LinkAnswer};
use names::{Errno, Perms};
use path_session::{Session, Unanswered};
use profile_registry::Publisher;
use std::alloc::Global;
use std::io::Print;
use std::sync::Wait;
use storm_parts::{Call, Difference, Hash, How, Stop, expect, expect_ok, path, shared_of};

/// What is opened: a path, and the letters of the permissions.
const OPENED: [(&str, &[u8]); 9] = [
    ("/d/f", b"r"),
    ("/l/f", b"rw"),
    ("/d/k", b"w"),
    ("/c/f", b"rw"),
    ("/d/none", b"r"),
    ("/d", b"r"),
    ("/r", b"r"),
    ("d/f", b"r"),
    ("/d/f", b"r"),
];

/// Links that are made: the first is, the second would allow more than the old name, the third is denied, and the others can't be.
const LINKED: [(&str, &str); 5] = [
    ("/d/f", "/e/x"),
    ("/e/x", "/d/y"),
    ("/d/f", "/d/no"),
    ("/d/f", "/d/k"),
    ("/d/none", "/d/y"),
];

/// Prints how opens and links are answered.
pub(crate) fn show_opens<R: Print + Wait>(rt: &R, alloc: Global) -> Result<(), Stop> {
    let mut publisher = new_publisher(alloc)?;
    let shown = show_session(rt, alloc, &mut publisher);
    publisher.close(rt);
    shown
}

fn show_session<R: Print + Wait>(
    rt: &R,
    alloc: Global,
    publisher: &mut Publisher,
) -> Result<(), Stop> {
    publish_profile(rt, publisher, &shared_of(alloc, RULES)?)?;
    let mut keeper = keeper_of_files(alloc)?;
    let mut session = new_session(alloc, &mut keeper, publisher, b"p")?;
    show_opened(rt, &mut session, &mut keeper, publisher)?;
    show_linked(rt, &mut session, &mut keeper, publisher)?;
    let rename = Change::Rename(path(b"/d")?, path(b"/c")?);
    let version = apply(&mut session, &mut keeper, &rename)?;
    println!(rt; "rename /d /c: version {version}")?;
    show_opened(rt, &mut session, &mut keeper, publisher)?;
    select(&mut session, b"q")?;
    show_opened(rt, &mut session, &mut keeper, publisher)
}

// Each open has one answer, whether keeper and publisher are held or not.
fn show_opened<R: Print>(
    rt: &R,
    session: &mut Session,
    keeper: &mut Keeper,
    publisher: &mut Publisher,
) -> Result<(), Stop>
    requires row { session.old.walk.table ≡ keeper.old.table }
    requires policy { IsPrefix session.old.reading.learned publisher.old.published }
    ensures row { (session.new.walk.table ≡ session.old.walk.table) × (keeper.new ≡ keeper.old) × (publisher.new ≡ publisher.old) }
    ensures policy { IsPrefix session.new.reading.learned publisher.old.published }
{
    for (text, letters) in OPENED {
        let ask = Perms::from_letters(letters).unwrap_or(Perms::NONE);
        let answer = open(session, keeper, publisher, text.as_bytes(), ask)?;
        let name = session.name();
        println!(rt; "open {text}: {}", Named { answer, name })?;
    }
    Ok(())
}

fn open(
    session: &mut Session,
    keeper: &mut Keeper,
    publisher: &mut Publisher,
    path: &[u8],
    ask: Perms,
) -> Result<Answer, Difference>
    requires row { session.old.walk.table ≡ keeper.old.table }
    requires policy { IsPrefix session.old.reading.learned publisher.old.published }
    ensures row { (session.new.walk.table ≡ session.old.walk.table) × (keeper.new ≡ keeper.old) × (publisher.new ≡ publisher.old) }
    ensures policy { IsPrefix session.new.reading.learned publisher.old.published }
{
    let answer = session.try_open(path, ask);
    let name = Hash::of(session.name());
    expect(answer != Answer::NoEntry, Call::TryOpen, How::Fails)?;
    let with_keeper = session.open_with(keeper, path, ask);
    let is_same = with_keeper == answer && Hash::of(session.name()) == name;
    expect(is_same, Call::OpenWith, How::Answers)?;
    let with_both = session.open_with_both(keeper, publisher, path, ask);
    let is_same = with_both.map(answer_of) == Ok(answer) && Hash::of(session.name()) == name;
    expect(is_same, Call::OpenWithBoth, How::Answers)?;
    Ok(answer)
}

// An answer when keeper and publisher are held exclusively, as one of any open.
fn answer_of(answer: AnswerAtHand) -> Answer {
    match answer {
        AnswerAtHand::Judged {
            verdict,
            node,
            tree_version,
            policy_version,
        } => Answer::Judged {
            verdict,
            node,
            tree_version,
            policy_version,
        },
        AnswerAtHand::Failed {
            errno,
            tree_version,
        } => Answer::Failed {
            errno,
            tree_version,
        },
        AnswerAtHand::NoProfile { policy_version } => Answer::NoProfile { policy_version },
    }
}

// The links are made in turn with the keeper alone, and with the publisher, too.
fn show_linked<R: Print>(
    rt: &R,
    session: &mut Session,
    keeper: &mut Keeper,
    publisher: &mut Publisher,
) -> Result<(), Stop>
    requires row { session.old.walk.table ≡ keeper.old.table }
    requires policy { IsPrefix session.old.reading.learned publisher.old.published }
    ensures row { (session.new.walk.table ≡ keeper.new.table) × (publisher.new ≡ publisher.old) }
    ensures policy { IsPrefix session.new.reading.learned publisher.old.published }
{
    for (old, new) in LINKED {
        let answer = link(session, keeper, old.as_bytes(), new.as_bytes())?;
        println!(rt;
            "link {old} {new}: {answer:?} {}",
            name_text(session.name())
        )?;
        let answer = link_with_both(session, keeper, publisher, new.as_bytes(), b"/e/z")?;
        println!(rt; "link {new} /e/z: {answer:?} {}", name_text(session.name()))?;
    }
    Ok(())
}

// Makes a link. Where memory is refused, tree and count are as they were.
fn link(
    session: &mut Session,
    keeper: &mut Keeper,
    old: &[u8],
    new: &[u8],
) -> Result<LinkAnswer, Difference>
    ensures row { (session.new.walk.table ≡ session.old.walk.table) × (keeper.new.table ≡ keeper.old.table) }
    ensures policy { session.new.reading.learned ≡ session.old.reading.learned }
{
    let before = keeper.version();
    match session.link_with(keeper, old, new) {
        Err(Unanswered::NoMemory) => {
            let is_same = is_still_at(session, keeper, before)?;
            expect(is_same, Call::LinkWith, How::Changes)?;
            expect_ok(Call::LinkWith, session.link_with(keeper, old, new))
        }
        answer => expect_ok(Call::LinkWith, answer),
    }
}

// The same with the publisher, too.
fn link_with_both(
    session: &mut Session,
    keeper: &mut Keeper,
    publisher: &mut Publisher,
    old: &[u8],
    new: &[u8],
) -> Result<LinkAnswer, Difference>
    requires policy { IsPrefix session.old.reading.learned publisher.old.published }
    ensures row { (session.new.walk.table ≡ session.old.walk.table) × (keeper.new.table ≡ keeper.old.table) }
    ensures policy { IsPrefix session.new.reading.learned publisher.old.published × (publisher.new ≡ publisher.old) }
{
    let before = keeper.version();
    match session.link_with_both(keeper, publisher, old, new) {
        Err(Unanswered::NoMemory) => {
            let is_same = is_still_at(session, keeper, before)?;
            expect(is_same, Call::LinkWithBoth, How::Changes)?;
            let answer = session.link_with_both(keeper, publisher, old, new);
            expect_ok(Call::LinkWithBoth, answer)
        }
        answer => expect_ok(Call::LinkWithBoth, answer),
    }
}

// Makes a change. Where memory is refused, the count is even, and the next open answers at the old version.
fn apply(session: &mut Session, keeper: &mut Keeper, change: &Change<'_>) -> Result<u64, Difference>
    ensures row { (session.new.walk.table ≡ session.old.walk.table) × (keeper.new.table ≡ keeper.old.table) }
    ensures policy { session.new.reading.learned ≡ session.old.reading.learned }
{
    let before = keeper.version();
    match keeper.apply(change) {
        Err(Errno::ENOMEM) => {
            let is_same = is_still_at(session, keeper, before)?;
            expect(is_same, Call::ApplyByKeeper, How::Changes)?;
            expect_ok(Call::ApplyByKeeper, keeper.apply(change))
        }
        version => expect_ok(Call::ApplyByKeeper, version),
    }
}
