//! Names run through an image in place: one, or many side by side.
ghost use Rattle.std.specs.Prelude.{◌≡◌, ◌+◌, Some, get_or, length};
ghost use Rattle.table_batches.specs.Batches.{AreAfter, AreOffsets};
ghost use Rattle.table_verifier.specs.AcceptedImages.{IsLoaded};
ghost use Rattle.tables.specs.Tables.{Table, state_after};

use table_batches::run_names_by_image;
use table_verifier::{LookUps, State, Steps, VerifiedImage, run_image};

/// The state that a name leads to by an image that was accepted: what the interface for C does before it reads the record.
#[unsafe(no_mangle)]
pub extern "C" fn loop_bench_image(image: &[u8], name: &[u8]) -> State
    requires { (t : Table) × IsLoaded image.now t }
    ensures { (t : Table) × IsLoaded image.now t × (state_after t name.now ≡ Some result) }
{
    let image = VerifiedImage::accepted(image);
    // A bound of depths has few bits, so the look-ups of a name can be counted.
    let _bound = image.depth_bound();
    run_image(&image, name, &mut Steps::new(), &mut LookUps::new())
}

/// The states that many names lead to by an image that was accepted: each name goes from an offset to the next. Returns the number
/// of steps: one for each byte.
#[unsafe(no_mangle)]
pub extern "C" fn loop_bench_names(
    image: &[u8],
    text: &[u8],
    offsets: &[usize],
    states: &mut [State],
) -> u64
    requires image { (t : Table) × IsLoaded image.now t }
    requires offsets { AreOffsets text.now offsets.now (length states.old) }
    ensures long { length states.new ≡ length states.old }
    ensures states { (t : Table) × IsLoaded image.now t × AreAfter t text.now offsets.now states.new }
    ensures steps { result + get_or offsets.now 0 0 ≡ get_or offsets.now (length states.old) 0 }
{
    let mut steps = Steps::new();
    let mut lookups = LookUps::new();
    let image = VerifiedImage::accepted(image);
    let _bound = image.depth_bound();
    run_names_by_image(&image, text, offsets, states, &mut steps, &mut lookups);
    steps.count()
}
