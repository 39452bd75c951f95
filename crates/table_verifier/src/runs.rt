//! Names run through tables, and through images in place.
ghost use Rattle.std.specs.Prelude.{◌≡◌, ◌+◌, ◌*◌, ◌^◌, ◌<◌, ◌≤◌, Some, length};
ghost use Rattle.tables.specs.Tables.{look_ups_after, record_after, state_after, state_count};
ghost use Rattle.table_verifier.specs.Runs.{Runs};

use crate::byte_loop::run_from;
use crate::image::VerifiedImage;
use crate::laws::look_ups_are_bounded;
use crate::look_ups::LookUps;
use crate::steps::Steps;
use crate::verified::{State, VerifiedTable};
use names::Record;

/// The state that a list of bytes leads to. Whatever the table's source and the bytes are, no index leaves it, and each byte
/// takes exactly one step, and one look-up at least and at most one more than the bound of depths. Allocates nothing, and can't be
/// refused.
#[inline(never)]
pub fn run(table: &VerifiedTable, bytes: &[u8], steps: &mut Steps, lookups: &mut LookUps) -> State
    requires steps { steps.old + length bytes.now < 2 ^ 64 }
    requires look_ups { lookups.old + (table.now.depth_bound + 1) * length bytes.now < 2 ^ 128 }
    ensures runs { Runs table.now }
    ensures last { state_after table.now bytes.now ≡ Some result }
    ensures there { result < state_count table.now }
    ensures steps { steps.new ≡ steps.old + length bytes.now }
    ensures look_ups { lookups.new ≡ lookups.old + look_ups_after table.now bytes.now }
    ensures least { length bytes.now ≤ look_ups_after table.now bytes.now }
    ensures most { look_ups_after table.now bytes.now ≤ (table.now.depth_bound + 1) * length bytes.now }
{
    look_ups_are_bounded();
    let start = table.start();
    let mut again = LookUps::new();
    let last = run_from(&table.entries(), start, bytes, steps, &mut again);
    lookups.of_bytes(bytes, &again);
    last
}

/// The same through an image.
#[inline(always)]
pub fn run_image(
    image: &VerifiedImage<'_>,
    bytes: &[u8],
    steps: &mut Steps,
    lookups: &mut LookUps,
) -> State
    requires steps { steps.old + length bytes.now < 2 ^ 64 }
    requires look_ups { lookups.old + (image.now.depth_bound + 1) * length bytes.now < 2 ^ 128 }
    ensures runs { Runs image.now }
    ensures last { state_after image.now bytes.now ≡ Some result }
    ensures there { result < state_count image.now }
    ensures steps { steps.new ≡ steps.old + length bytes.now }
    ensures look_ups { lookups.new ≡ lookups.old + look_ups_after image.now bytes.now }
    ensures least { length bytes.now ≤ look_ups_after image.now bytes.now }
    ensures most { look_ups_after image.now bytes.now ≤ (image.now.depth_bound + 1) * length bytes.now }
{
    look_ups_are_bounded();
    let start = image.start();
    let mut again = LookUps::new();
    let last = run_from(&image.entries(), start, bytes, steps, &mut again);
    lookups.of_bytes(bytes, &again);
    last
}

/// The record of the state that a name leads to. It takes as many steps as the name has bytes, and allocates nothing.
pub fn record_of_name(
    table: &VerifiedTable,
    name: &[u8],
    steps: &mut Steps,
    lookups: &mut LookUps,
) -> Record
    requires steps { steps.old + length name.now < 2 ^ 64 }
    requires look_ups { lookups.old + (table.now.depth_bound + 1) * length name.now < 2 ^ 128 }
    ensures record { record_after table.now name.now ≡ Some result }
    ensures steps { steps.new ≡ steps.old + length name.now }
    ensures look_ups { lookups.new ≡ lookups.old + look_ups_after table.now name.now }
{
    let state = run(table, name, steps, lookups);
    table.record_of(state)
}

/// The same through an image.
#[inline(always)]
pub fn record_by_image(
    image: &VerifiedImage<'_>,
    name: &[u8],
    steps: &mut Steps,
    lookups: &mut LookUps,
) -> Record
    requires steps { steps.old + length name.now < 2 ^ 64 }
    requires look_ups { lookups.old + (image.now.depth_bound + 1) * length name.now < 2 ^ 128 }
    ensures record { record_after image.now name.now ≡ Some result }
    ensures steps { steps.new ≡ steps.old + length name.now }
    ensures look_ups { lookups.new ≡ lookups.old + look_ups_after image.now name.now }
{
    let state = run_image(image, name, steps, lookups);
    image.record_of(state)
}
