//! Publications of a bench, which take along what a refused one left staged.
ghost use Rattle.std.specs.Prelude.{◌≡◌, []};

use rule_text::read;
use script_bench::SessionBench;
use std::alloc::Global;
use std::process::Abort;
use std::sync::Wait;
use std::test::Fail;

fn publish_and_remove<R: Abort + Wait>(
    rt: &R,
    alloc: Global,
    bench: &mut SessionBench<'_, R>,
) -> Result<(), Fail>
    requires { bench.old.publisher ≡ record { published = []; staged = [] } }
{
    let profile = read(alloc, b"profile p {\n  /f r,\n}\n")
        .ok()
        .ok_or("a profile")?;
    let Ok(version) = bench.publish_with_staged(profile) else {
        return Err(Fail::from("a publication"));
    };
    assert_eq!(rt; version, 1);
    assert!(rt; !bench.has_staged());
    let Ok(version) = bench.remove_with_staged(b"p") else {
        return Err(Fail::from("a removal"));
    };
    assert_eq!(rt; version, 2);
    Ok(())
}

#[test]
fn a_bench_publishes_with_what_is_staged(rt: HostRuntime) -> Result<(), Fail> {
    let Ok(mut bench) = SessionBench::new(&rt, rt.alloc(), 4) else {
        return Err(Fail::from("a bench"));
    };
    let outcome = if bench.has_staged() {
        Err(Fail::from("something is staged"))
    } else {
        publish_and_remove(&rt, rt.alloc(), &mut bench)
    };
    bench.close();
    outcome
}
