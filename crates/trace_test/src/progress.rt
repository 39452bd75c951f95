//! How far a test has come: the last answer, the profiles that were published, and what became of the expectations.
ghost use Rattle.std.specs.Prelude.{◌≤◌, ◌^◌};

use crate::compose::{answer_line, count_line, failure_line};
use crate::matching::is_answer;
use crate::options::TestOptions;
use crate::published::Published;
use std::alloc::Global;
use trace_report::Status;
use trace_script::Stop;

/// How far a test has come.
#[derive(Drop)]
pub(crate) struct Progress {
    /// The answer of the last command, without its line feed.
    last: Option<Vec<u8>>,
    /// The number of a `policy` line, if that answer refuses this policy, and nothing is expected of it so far.
    refused: Option<u64>,
    /// The profiles that are published.
    pub(crate) published: Published,
    /// How many expectations hold.
    held: u64,
    /// How many expectations there are.
    total: u64,
    /// What is shown.
    options: TestOptions,
    ghost counted: { held ≤ total },
    ghost few: { total ≤ 2 ^ 60 },
}

impl Progress {
    ghost use Rattle.std.specs.Prelude.{◌≡◌, ◌<◌, ◌+◌, ◌^◌, ◌==◌, ℕ, None, Some, option_map, length, if◌then◌else◌};
    ghost use Rattle.mediation.specs.History.{History};
    ghost use Rattle.trace_report.specs.declared.status.Status.TheVariants.{Done, Unmet};
    ghost use Rattle.trace_script.specs.Engine.{IsText};
    ghost use Rattle.trace_test.specs.Expectations.{holds_by, text_of, unexpected};
    ghost use Rattle.trace_test.specs.TestOutput.{failure_text};
    ghost use Rattle.trace_test.specs.inner.Tests.{IsEnding, IsLinesOf, asked_events, first_testing, last_in, once_answered};
    ghost use Rattle.trace_test.specs.inner.Tests.{status_by, testing, with_one};

    /// The progress before the first line.
    pub(crate) fn new(alloc: Global, options: TestOptions) -> Progress
        ensures { (history : History) → testing history result ≡ first_testing options history }
    {
        Progress {
            last: None,
            refused: None,
            published: Published::new(alloc),
            held: 0,
            total: 0,
            options,
        }
    }

    /// The lines that the answer of a command adds: about a policy that was refused directly before, and the answer itself, where
    /// answers are shown.
    pub(crate) fn answer_lines(
        &self,
        alloc: Global,
        number: u64,
        answer: &[u8],
    ) -> Result<Vec<u8>, Stop>
        ensures { IsLinesOf self.now.options (asked_events (last_in self.now) number answer.now) result }
    {
        let mut lines = self.refusal_lines(alloc)?;
        if self.options.answers {
            let line = answer_line(alloc, self.options.format, number, answer)?;
            lines.extend_from_slice(&line)?;
        }
        Ok(lines)
    }

    /// The line about a policy that was refused directly before, where nothing is expected of it.
    fn refusal_lines(&self, alloc: Global) -> Result<Vec<u8>, Stop>
        ensures { IsLinesOf self.now.options (unexpected (last_in self.now)) result }
    {
        match (self.last(), self.refused) {
            (Some(answer), Some(number)) => {
                failure_line(alloc, self.options.format, number, None, Some(answer))
            }
            _ => Ok(Vec::new(alloc)),
        }
    }

    /// Keeps the answer of a command. A policy that was refused directly before is counted as an expectation that doesn't hold.
    /// `refused` is the number of a `policy` line, if this answer refuses that policy.
    pub(crate) fn keep(&mut self, answer: Vec<u8>, refused: Option<u64>)
        requires { self.old.total < 2 ^ 60 }
        ensures { (history : History) →
            testing history self.new ≡ once_answered (testing history self.old) answer.items refused }
    {
        self.total = self.count();
        self.last = Some(answer);
        self.refused = refused;
    }

    /// How many expectations there are, if the test ends here: a policy that was refused directly before is one.
    pub(crate) fn count(&self) -> u64
        ensures { result ≡ self.now.total + length (unexpected (last_in self.now)) }
    {
        match (self.last(), self.refused) {
            (Some(_), Some(_)) => self.total + 1,
            _ => self.total,
        }
    }

    /// Counts one more expectation, and returns whether it holds. A refusal directly before it was expected.
    pub(crate) fn compare(&mut self, expected: &[u8]) -> bool
        requires { self.old.total < 2 ^ 60 }
        ensures holds { result ≡ holds_by (Some expected.now) (text_of (last_in self.old)) }
        ensures state { (history : History) → testing history self.new ≡ with_one (testing history self.old) result }
    {
        let holds = match self.last() {
            Some(answer) => is_answer(expected, answer),
            None => false,
        };
        self.total += 1;
        if holds {
            self.held += 1;
        }
        self.refused = None;
        holds
    }

    /// The line that reports that the last answer isn't the one that the line of this number expects.
    pub(crate) fn failure_line(
        &self,
        alloc: Global,
        number: u64,
        expected: &[u8],
    ) -> Result<Vec<u8>, Stop>
        ensures { IsText (failure_text self.now.options.format (record {
          number = number;
          expected = Some expected.now;
          got = text_of (last_in self.now);
        })) result }
    {
        failure_line(
            alloc,
            self.options.format,
            number,
            Some(expected),
            self.last(),
        )
    }

    /// The last answer.
    fn last(&self) -> Option<&[u8]>
        ensures { option_map (λ answer. answer.now) result ≡ text_of (last_in self.now) }
    {
        match &self.last {
            Some(answer) => Some(answer.as_slice()),
            None => None,
        }
    }

    /// The lines at the end of a test: about a policy that was refused directly before, and how many expectations hold.
    pub(crate) fn ending(&self, alloc: Global) -> Result<Vec<u8>, Stop>
        ensures { IsEnding self.now result }
    {
        let mut lines = self.refusal_lines(alloc)?;
        let count = count_line(alloc, self.options.format, self.held, self.count())?;
        lines.extend_from_slice(&count)?;
        Ok(lines)
    }

    /// The status of a test that has reached its end.
    pub(crate) fn status(&self) -> Status
        ensures { result ≡ status_by self.now.held (self.now.total + length (unexpected (last_in self.now))) }
    {
        let total = self.count();
        if total == 0 {
            return Status::Unmet;
        }
        if self.held == total {
            Status::Done
        } else {
            Status::Unmet
        }
    }
}
