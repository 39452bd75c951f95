//! Makes each call of the libraries that allocates, and makes it again where memory is refused. `make refusals` refuses each
//! allocation of this program in turn. Whichever it is, the program prints the same lines: the call that is made again returns
//! what it would have returned, and until then all is as it was, whether rules, trees, policies, kept verdicts or machines. Where it
//! isn't, a line says which call that was, and how it differed.
//!
//! Each part prints what its calls return: long results by their length and a hash of all their bytes.
#![tactic(auto)]

mod answers;
mod events;
mod kept;
mod opens;
mod policy;
mod row;
mod texts;
mod trees;

use crate::events::show_events;
use crate::kept::show_kept;
use crate::opens::show_opens;
use crate::policy::show_policy;
use crate::texts::show_texts;
use crate::trees::show_trees;
use std::io;
use std::io::Print;
use storm_parts::Stop;

fn main(rt: HostRuntime) -> io::Result<()> {
    let alloc = rt.alloc();
    finish(&rt, show_texts(&rt, alloc))?;
    finish(&rt, show_policy(&rt, alloc))?;
    finish(&rt, show_trees(&rt, alloc))?;
    finish(&rt, show_kept(&rt, alloc))?;
    finish(&rt, show_opens(&rt, alloc))?;
    finish(&rt, show_events(&rt, alloc))
}

// Prints the difference that ended a part, if there was one.
fn finish<R: Print>(rt: &R, part: Result<(), Stop>) -> io::Result<()> {
    match part {
        Ok(()) => Ok(()),
        Err(Stop::Difference(difference)) => println!(rt; "{difference}"),
        Err(Stop::Output(error)) => Err(error),
    }
}
