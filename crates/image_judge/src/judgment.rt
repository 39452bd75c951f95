//! Judging of names.
ghost use Rattle.image_judge.specs.Answers.{IsAnswerOf, IsNoneOrLoaded, IsToldByTable};
ghost use Rattle.image_judge.specs.Sets.{set_of_number};

use crate::answer::{Answer, answer_on, no_answer};
use crate::permissions::set_of_number;
use names::{Perms, grounds_of};
use table_verifier::{LookUps, Steps, VerifiedImage, record_by_image};

/// What an image that was accepted says about a name, for permissions that are asked by the sum of their numbers.
// The answer is returned through a pointer: a result would be put together on the stack, and read again in larger parts than it was
// written in, which makes the processor wait.
pub fn judge(image: &[u8], name: &[u8], asked: u32, answer: &mut Answer)
    requires { IsNoneOrLoaded image.now }
    ensures { IsAnswerOf image.now (set_of_number asked) name.now answer.new }
{
    match set_of_number(asked) {
        Some(ask) if !image.is_empty() => judge_by(
            &VerifiedImage::accepted(image),
            name,
            ask,
            answer,
        ),
        _ => *answer = no_answer(),
    }
}

#[inline(always)]
pub(crate) fn judge_by(image: &VerifiedImage<'_>, name: &[u8], ask: Perms, answer: &mut Answer)
    ensures { IsToldByTable image.now ask name.now answer.new }
{
    // A bound of depths has few bits, so the look-ups of a name can be counted.
    let _bound = image.depth_bound();
    let mut steps = Steps::new();
    let record = record_by_image(image, name, &mut steps, &mut LookUps::new());
    *answer = answer_on(grounds_of(&record, ask), steps.count());
}
