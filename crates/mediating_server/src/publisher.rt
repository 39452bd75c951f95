//! The work of the publisher.
use crate::fault::ServerFault;
use matcher::{AnyProfile, CompiledProfile};
use path_guard::{Guard, Row};
use rule_reader::read;
use std::alloc::Global;
use std::rt::Runtime;
use std::sync::atomic::{AtomicU64, Ordering};
use std::sync::{Arc, Wait};
use std::time::Duration;
use std::{fs, thread};
use trace_report::Fault;

/// The name that the profile is published under, whatever its text calls it.
pub(crate) const PROFILE: &[u8] = b"served";

/// The number of milliseconds between two looks at the file.
const PAUSE: u64 = 100;

/// The profile's file, and the text that was last read from it.
#[derive(Drop)]
pub(crate) struct ProfileFile<'a> {
    path: &'a str,
    text: Option<Vec<u8>>,
}

impl<'a> ProfileFile<'a> {
    pub(crate) fn at(path: &'a str) -> ProfileFile<'a> {
        ProfileFile { path, text: None }
    }

    /// Publishes the contents of the file if they differ from the last text, and returns the policy's version. If the text is
    /// refused, what was published stays.
    pub(crate) fn publish<M: Row, R: Runtime + AllocGlobal + Wait>(
        &mut self,
        rt: &R,
        guard: &Guard<M>,
    ) -> Result<Option<u64>, ServerFault> {
        let text = fs::read(rt, self.path).map_err(Fault::from)?;
        if self.text.as_ref() == Some(&text) {
            return Ok(None);
        }
        let profile = compiled(rt.alloc(), &text);
        // A refused text is reported once. Memory may be available the next time.
        if profile.as_ref().err() != Some(&Fault::Memory) {
            self.text = Some(text);
        }
        match guard.replace(rt, PROFILE, profile?) {
            Ok(version) => Ok(Some(version)),
            Err(errno) => {
                self.text = None;
                Err(ServerFault::Publication(errno))
            }
        }
    }

    /// Publishes each new text, and reports what became of it, for as long as some worker is at work.
    pub(crate) fn watch<M: Row, R: Runtime + AllocGlobal + Wait>(
        self,
        rt: &R,
        guard: &Guard<M>,
        at_work: &AtomicU64,
    ) {
        let mut file = self;
        for _ in rt.forever() {
            if at_work.load(Ordering::SeqCst) == 0 {
                return;
            }
            let _ = match file.publish(rt, guard) {
                Ok(None) => Ok(()),
                Ok(Some(version)) => eprintln!(rt; "policy {version}"),
                // Nobody has put the new file in the old one's place yet.
                Err(ServerFault::Profile(Fault::Input)) => Ok(()),
                Err(fault) => eprintln!(rt; "{fault}"),
            };
            thread::sleep(rt, Duration::from_millis(PAUSE));
        }
    }
}

/// The profile that a text describes.
fn compiled(alloc: Global, text: &[u8]) -> Result<Arc<AnyProfile>, Fault> {
    let profile = read(alloc, text)?;
    let profile = CompiledProfile::make(alloc, profile)?;
    Arc::new(alloc, AnyProfile::Compiled(profile)).map_err(|_| Fault::Memory)
}
