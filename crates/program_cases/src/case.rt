//! Cases: a title, a text, and the commands that read it.
use crate::command::run_command;
use crate::ends::Ending;
use crate::expand::expanded;
use crate::show::show_ending;
use std::alloc::Global;
use std::io;
use std::io::Write;
use std::sync::Wait;
use std::thread::Threads;

/// Shows each case of a file; what comes before the first one is about the file.
pub(crate) fn show_cases<H: Threads + Wait + Sync, W: Write>(
    rt: &H,
    alloc: Global,
    cases: &str,
    output: &mut W,
) -> io::Result<()> {
    for case in cases.split("\n=== ").skip(1) {
        show_case(rt, alloc, case, output)?;
    }
    Ok(())
}

fn show_case<H: Threads + Wait + Sync, W: Write>(
    rt: &H,
    alloc: Global,
    case: &str,
    output: &mut W,
) -> io::Result<()> {
    let (head, commands) = case.split_once("\n$ ").unwrap_or((case, ""));
    write!(output, "=== {head}\n")?;
    let (_, text) = head.split_once('\n').unwrap_or((head, ""));
    let text = expanded(alloc, text)?;
    show_commands(rt, alloc, commands, &text, output)
}

/// Shows how each command ends on this text.
fn show_commands<H: Threads + Wait + Sync, W: Write>(
    rt: &H,
    alloc: Global,
    commands: &str,
    text: &[u8],
    output: &mut W,
) -> io::Result<()> {
    let mut last = Ending::nothing(alloc);
    for command in commands.split("\n$ ") {
        let command = command.trim_end();
        write!(output, "$ {command}\n")?;
        let ending = run_command(rt, alloc, command, text)?;
        if !command.starts_with("aa-trace ") && ending == last {
            write!(output, "--- as above\n")?;
        } else {
            show_ending(alloc, &ending, output)?;
        }
        last = ending;
    }
    write!(output, "\n")
}
