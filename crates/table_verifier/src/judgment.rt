//! Verdicts by tables and by images.
ghost use Rattle.std.specs.Prelude.{◌≡◌, ◌+◌, ◌^◌, ◌<◌, Some, length};
ghost use Rattle.names.specs.Records.{IsTold};
ghost use Rattle.names.specs.declared.record.Record.{Record};
ghost use Rattle.tables.specs.Tables.{record_after};

use crate::image::VerifiedImage;
use crate::look_ups::LookUps;
use crate::runs::{record_by_image, record_of_name};
use crate::steps::Steps;
use crate::verified::VerifiedTable;
use names::{Perms, Verdict, told};

/// The verdict that the record of a name's last state gives. Allocates nothing, and can't be refused.
pub fn judge(table: &VerifiedTable, name: &[u8], ask: Perms) -> Verdict
    ensures { (r : Record) × (record_after table.now name.now ≡ Some r) × IsTold r ask result }
{
    // A bound of depths has few bits, so the look-ups of a name can be counted.
    let _bound = table.depth_bound();
    let record = record_of_name(table, name, &mut Steps::new(), &mut LookUps::new());
    told(&record, ask)
}

/// The same by an image, with the steps counted: one for each byte of the name.
pub fn judge_image(image: &VerifiedImage<'_>, name: &[u8], ask: Perms, steps: &mut Steps) -> Verdict
    requires { steps.old + length name.now < 2 ^ 64 }
    ensures verdict { (r : Record) × (record_after image.now name.now ≡ Some r) × IsTold r ask result }
    ensures steps { steps.new ≡ steps.old + length name.now }
{
    let _bound = image.depth_bound();
    let record = record_by_image(image, name, steps, &mut LookUps::new());
    told(&record, ask)
}
