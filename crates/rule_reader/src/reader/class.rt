//! Classes.
ghost use Rattle.std.specs.Prelude.{◌≡◌, ◌+◌, ◌++◌, length, Some, None, option_map, IfOk, if◌then◌else◌, false, List};
ghost use Rattle.rule_reader.specs.declared.reader.class.Pending.TheVariants.{Start};
ghost use Rattle.rule_reader.specs.inner.Gives.{Gives};
ghost use Rattle.rule_reader.specs.ReadSteps.{goes_on};
ghost use Rattle.rule_reader.specs.inner.PartialPaths.{Adds, AddsLast};
ghost use Rattle.rule_reader.specs.ReadClasses.{class_byte, alone, with_member, is_reversed, at_end, members_at, class_at};

use super::bytes::is_white;
use super::local_fault::{Failure, FaultKind, fault_here, fault_with_left};
use rule_globs::{ByteRange, Class};
use std::alloc::{AllocFailed, Global};

/// What a byte is in a class.
#[derive(Clone, Copy)]
pub(crate) enum ClassByte {
    Member,
    /// The closing bracket.
    End,
    /// The path ends here, and the class doesn't.
    PathEnd,
    Backslash,
    /// A letter or digit after a backslash.
    Code,
    /// Not allowed in a class.
    Wrong,
}

/// What the byte is in a class, in a quoted path or a bare one, and directly after a backslash or not.
fn class_byte(quoted: bool, escaped: bool, byte: u8) -> ClassByte
    ensures { result ≡ class_byte quoted escaped byte }
{
    match byte {
        0 => ClassByte::Wrong,
        b'\n' if quoted || escaped => ClassByte::Wrong,
        _ if escaped && byte.is_ascii_alphanumeric() => ClassByte::Code,
        _ if escaped => ClassByte::Member,
        b']' => ClassByte::End,
        b'"' => ClassByte::PathEnd,
        _ if !quoted && is_white(byte) => ClassByte::PathEnd,
        b'\\' => ClassByte::Backslash,
        _ => ClassByte::Member,
    }
}

/// What the bytes of a class that were read last may still be part of.
#[derive(Clone, Copy)]
pub(crate) enum Pending {
    /// Nothing was read.
    Start,
    /// A range is complete.
    AfterRange,
    /// A dash that stands for itself.
    AfterDash,
    /// A member, which a dash may make the first byte of a range.
    Single(u8),
    /// Such a member and a dash.
    Dash(u8),
    /// Such a member and two dashes, the second of which ends a range only where the class goes on.
    Dashes(u8),
}

impl Pending {
    /// The class goes on, and a range from what is pending to a dash is reversed.
    fn is_reversed(self) -> bool
        ensures { result ≡ is_reversed self }
    {
        matches!(self, Pending::Dashes(first) if first > b'-')
    }
}

/// A member where a dash can only stand for itself.
fn alone(
    dash: bool,
    byte: u8,
    ranges: &mut Vec<ByteRange>,
) -> Result<Pending, AllocFailed<ByteRange>>
    ensures { IfOk result (λ p. (ranges.new.items ≡ ranges.old.items ++ (alone dash byte).0) × (p ≡ (alone dash byte).1)) }
{
    if !dash {
        return Ok(Pending::Single(byte));
    }
    ranges.push(ByteRange::single(b'-'))?;
    Ok(Pending::AfterDash)
}

/// One more member: adds the ranges that it completes, and returns what is pending then. None where a range is reversed.
fn with_member(
    pending: Pending,
    dash: bool,
    byte: u8,
    ranges: &mut Vec<ByteRange>,
) -> Result<Option<Pending>, AllocFailed<ByteRange>>
    ensures { IfOk result (λ p. Adds ranges.old.items ranges.new.items p (with_member pending dash byte)) }
{
    match pending {
        Pending::Start | Pending::AfterRange => Ok(Some(alone(dash, byte, ranges)?)),
        Pending::AfterDash => Ok(Some(Pending::Single(byte))),
        Pending::Single(first) if dash => Ok(Some(Pending::Dash(first))),
        Pending::Single(first) => {
            ranges.push(ByteRange::single(first))?;
            Ok(Some(Pending::Single(byte)))
        }
        Pending::Dash(first) if dash => Ok(Some(Pending::Dashes(first))),
        Pending::Dash(first) if byte < first => Ok(None),
        Pending::Dash(first) => {
            ranges.push(ByteRange { first, last: byte })?;
            Ok(Some(Pending::AfterRange))
        }
        Pending::Dashes(first) if first > b'-' => Ok(None),
        Pending::Dashes(first) => {
            ranges.push(ByteRange { first, last: b'-' })?;
            Ok(Some(alone(dash, byte, ranges)?))
        }
    }
}

/// Ends the class: adds the ranges that are left. Returns whether it has a member at all.
fn add_last(pending: Pending, ranges: &mut Vec<ByteRange>) -> Result<bool, AllocFailed<ByteRange>>
    ensures { IfOk result (λ some. AddsLast ranges.old.items ranges.new.items some (at_end pending)) }
{
    match pending {
        Pending::Start => return Ok(false),
        Pending::AfterRange | Pending::AfterDash => {}
        Pending::Single(first) => ranges.push(ByteRange::single(first))?,
        Pending::Dash(first) => {
            ranges.push(ByteRange::single(first))?;
            ranges.push(ByteRange::single(b'-'))?;
        }
        Pending::Dashes(first) => {
            ranges.push(ByteRange::single(first))?;
            ranges.push(ByteRange::single(b'-'))?;
            ranges.push(ByteRange::single(b'-'))?;
        }
    }
    Ok(true)
}

/// The fault of a character code, which is not supported. Its backslash is before `rest`.
fn code_left_out(rest: &[u8]) -> Failure
    ensures { result ≡ Failure.At (record { kind = FaultKind.LeftOut 2; left = length rest.now + 1; settled = goes_on rest.now }) }
{
    fault_with_left(FaultKind::LeftOut(2), rest.len() + 1, rest)
}

/// The members' ranges up to the closing bracket, and what is left after it. From the opening bracket on, `bracket` bytes are left.
#[tactic(auto, unfolding(crate::specs::ReadClasses::members_at))]
fn members_of(
    alloc: Global,
    quoted: bool,
    bracket: usize,
    bytes: &[u8],
) -> Result<(Vec<ByteRange>, &[u8]), Failure>
    ensures { Gives (λ x. (x.0.items, x.1.now)) result (members_at quoted bracket Start false bytes.now) }
{
    let mut ranges = Vec::new(alloc);
    let mut pending = Pending::Start;
    let mut escaped = false;
    let mut rest = bytes;
    while let [byte, more @ ..] = rest {
        let mut backslash = false;
        match class_byte(quoted, escaped, *byte) {
            ClassByte::Member => {
                let dash = !escaped && *byte == b'-';
                match with_member(pending, dash, *byte, &mut ranges)? {
                    Some(next) => pending = next,
                    None => return Err(fault_with_left(FaultKind::Class, bracket, rest)),
                }
            }
            ClassByte::End if add_last(pending, &mut ranges)? => return Ok((ranges, more)),
            ClassByte::Backslash if !pending.is_reversed() => backslash = true,
            ClassByte::Code => return Err(code_left_out(rest)),
            ClassByte::Wrong => return Err(fault_here(FaultKind::Syntax, rest)),
            ClassByte::End | ClassByte::PathEnd | ClassByte::Backslash => {
                return Err(fault_with_left(FaultKind::Class, bracket, rest));
            }
        }
        escaped = backslash;
        rest = more;
    }
    if quoted || escaped {
        return Err(fault_here(FaultKind::Syntax, rest));
    }
    Err(fault_with_left(FaultKind::Class, bracket, rest))
}

/// The class whose opening bracket is before `bytes`, and what is left after it. From the bracket on, `bracket` bytes are left.
#[tactic(auto, unfolding(crate::specs::ReadClasses::class_at))]
pub(crate) fn class_of(
    alloc: Global,
    quoted: bool,
    bracket: usize,
    bytes: &[u8],
) -> Result<(Class, &[u8]), Failure>
    ensures { Gives (λ x. ((x.0.negated, x.0.ranges), x.1.now)) result (class_at quoted bracket bytes.now) }
{
    let (negated, members) = match bytes {
        [b'^', members @ ..] => (true, members),
        _ => (false, bytes),
    };
    let (ranges, rest) = members_of(alloc, quoted, bracket, members)?;
    Ok((Class::new(negated, ranges), rest))
}
