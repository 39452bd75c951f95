//! The functions that C calls. None allocates memory.
ghost use Rattle.image_judge.specs.Answers.{IsAnswerOf, IsCountsOf, IsNoneOrLoaded, IsVerified};
ghost use Rattle.image_judge.specs.Batches.{AreAnswersOf};
ghost use Rattle.image_judge.specs.Sets.{set_of_number};

use image_judge::{Answer, Counts, Fault, count, judge, judge_all, verify};

/// Accepts an image from any source whose tables no index leaves; else its first fault.
#[unsafe(no_mangle)]
pub extern "C" fn coqetwal_image_verify(image: &[u8]) -> Fault
    ensures { IsVerified image.now result }
{
    verify(image)
}

/// How many states, cells and records an image has that was accepted; of no bytes none.
#[unsafe(no_mangle)]
pub extern "C" fn coqetwal_image_counts(image: &[u8]) -> Counts
    requires { IsNoneOrLoaded image.now }
    ensures { IsCountsOf image.now result }
{
    count(image)
}

/// What an image that was accepted says of a name for which permissions are asked by the sum of their numbers.
#[unsafe(no_mangle)]
pub extern "C" fn coqetwal_image_judge(image: &[u8], name: &[u8], asked: u32, answer: &mut Answer)
    requires { IsNoneOrLoaded image.now }
    ensures { IsAnswerOf image.now (set_of_number asked) name.now answer.new }
{
    judge(image, name, asked, answer)
}

/// What an image that was accepted says of a name for each answer. The names are in one text, each from an offset to the next
/// one. Where there are no two such offsets, or they descend or leave the text, nothing is judged.
#[unsafe(no_mangle)]
pub extern "C" fn coqetwal_image_judge_all(
    image: &[u8],
    names: &[u8],
    offsets: &[usize],
    asked: u32,
    answers: &mut [Answer],
)
    requires { IsNoneOrLoaded image.now }
    ensures { AreAnswersOf image.now asked names.now offsets.now answers.old answers.new }
{
    judge_all(image, names, offsets, asked, answers)
}
