//! How a script is followed: line by line, each before the next is read.
ghost use Rattle.std.specs.Prelude.{◌+◌, ◌≡◌, ◌<◌, ◌≤◌, ℕ, List, OnOk};
ghost use Rattle.glob_automaton.specs.Automata.{StateLimit};
ghost use Rattle.trace_report.specs.Streams.{IsTextOf};
ghost use Rattle.trace_script.specs.Engine.{most_lines, section_value};
ghost use Rattle.trace_script.specs.FollowedScripts.{Engine, IsFollowed, IsLineFollowed, IsPrinted};
ghost use Rattle.trace_script.specs.Script.{outside};

use crate::reader::{LineRead, read_line};
use crate::section::{Section, with_line};
use crate::stop::Stop;
use names::MOST_CHANGES;
use std::alloc::Global;
use std::io::{BufRead, Write};

/// The most lines that are read. No script is that long: reading it would take centuries. The bound keeps every version that is
/// counted far below 2^64.
const MOST_LINES: u64 = MOST_CHANGES;

/// Does on a `T` what the lines of a script say.
pub trait LineFollower<T> {
    // Its commands, and what it knows between two lines.
    ghost Command: { Type 0 };

    ghost State: { Type 0 };

    ghost state: { Self → T → State };

    // What its lines say, and what its commands print and do. A test decides which profiles have too many states.
    ghost engine: { StateLimit → Engine Command State };

    // What its commands count, by one a line at most.
    ghost counted: { Self → T → ℕ };

    /// Does what the line of this number says, outside a policy, and returns the state of reading after it.
    fn do_line<A: Write>(
        &mut self,
        alloc: Global,
        on: &mut T,
        number: u64,
        line: &[u8],
        answers: &mut A,
    ) -> Result<Section, Stop>
        requires { counted self.old on.old < most_lines }
        ensures line { (limit : StateLimit) → IsLineFollowed (engine limit) (state self.old on.old) outside number line.now
            (state self.new on.new) (A.contents answers.old) (A.contents answers.new) result }
        ensures few { OnOk result (counted self.new on.new ≤ counted self.old on.old + 1) };

    /// Does what the text of a policy says that the line `start` opened.
    fn do_policy<A: Write>(
        &mut self,
        alloc: Global,
        on: &mut T,
        start: u64,
        text: &[u8],
        answers: &mut A,
    ) -> Result<(), Stop>
        requires { counted self.old on.old < most_lines }
        ensures line { (limit : StateLimit) →
            IsPrinted ((engine limit).Does (state self.old on.old) ((engine limit).grammar.policy start text.now))
            (state self.new on.new) (A.contents answers.old) (A.contents answers.new) result }
        ensures few { OnOk result (counted self.new on.new ≤ counted self.old on.old + 1) };
}

/// Follows the lines of a script, up to its end or to a line that is no command.
pub fn follow_script<T, L: LineFollower<T>, R: BufRead, A: Write>(
    alloc: Global,
    follower: &mut L,
    on: &mut T,
    input: &mut R,
    answers: &mut A,
) -> Result<(), Stop>
    requires { L.counted follower.old on.old ≡ 0 }
    ensures { (limit : StateLimit) → (text : List ℕ) × IsTextOf (R.remaining input.old) text
        × IsFollowed (L.engine limit) (L.state follower.old on.old) (R.remaining input.old) (R.remaining input.new) text
        (L.state follower.new on.new) (A.contents answers.old) (A.contents answers.new) result }
{
    let mut section = Section::Outside;
    let mut line = Vec::new(alloc);
    for before in 0..MOST_LINES {
        match read_line(input, &mut line)? {
            LineRead::Whole => {
                section = follow_line(alloc, follower, on, section, before + 1, &line, answers)?;
            }
            LineRead::Last => {
                return follow_line(
                    alloc,
                    follower,
                    on,
                    section,
                    before + 1,
                    &line,
                    answers,
                )?.close();
            }
            LineRead::End => return section.close(),
        }
    }
    // Only after MOST_LINES, so never in practice.
    Err(Stop::TooLong)
}

/// Does what a line says, and returns the state of reading after it.
fn follow_line<T, L: LineFollower<T>, A: Write>(
    alloc: Global,
    follower: &mut L,
    on: &mut T,
    section: Section,
    number: u64,
    line: &[u8],
    answers: &mut A,
) -> Result<Section, Stop>
    requires { L.counted follower.old on.old < most_lines }
    ensures line { (limit : StateLimit) → IsLineFollowed (L.engine limit) (L.state follower.old on.old) (section_value section) number
        line.now (L.state follower.new on.new) (A.contents answers.old) (A.contents answers.new) result }
    ensures few { OnOk result (L.counted follower.new on.new ≤ L.counted follower.old on.old + 1) }
{
    match section {
        Section::Outside => follower.do_line(alloc, on, number, line, answers),
        Section::Within { start, text } => {
            if line == b".".as_slice() {
                follower.do_policy(alloc, on, start, &text, answers)?;
                return Ok(Section::Outside);
            }
            let text = with_line(text, line)?;
            Ok(Section::Within { start, text })
        }
    }
}
