//! A session, and what it keeps from call to call.
ghost use Rattle.std.specs.Prelude.{◌≡◌, ◌≤◌, [], IfOk, OnOk, OnErr, IfErr};

use crate::knowledge::Knowledge;
use dentry_cache::Walker;
use kept_verdicts::KeptVerdicts;
use names::NoMemory;
use path_lookup::{NAME_ROOM, Scratch};
use profile_registry::PolicyReader;
use std::alloc::Global;
use std::marker::Model;

/// Opens files by one published profile, over the row that threads share. It has the buffers that its calls need, keeps verdicts,
/// and may move to another thread.
#[derive(Drop)]
pub struct Session {
    pub(crate) alloc: Global,
    pub(crate) known: Knowledge,
    pub(crate) scratch: Scratch,
    // The name that was judged last is at the front.
    pub(crate) name: [u8; NAME_ROOM],
    pub(crate) name_length: usize,
    // How often it met its keeper, modulo 2^64.
    pub(crate) meetings: u64,
}

impl Model for Session {
    ghost use Rattle.names.specs.Limits.{longest_path};
    ghost use Rattle.std.specs.Prelude.{◌≤◌, take};
    ghost use Rattle.path_session.specs.Sessions.{Sitting};

    ghost Value = { Sitting };

    ghost view = { λ s. record {
      walk = s.known.walk;
      reading = s.known.reading;
      profile = s.known.profile;
      judged = take s.name_length s.name;
      meetings = s.meetings;
      kept_answers = s.known.kept_answers;
    } };

    ghost invariant = { λ s. s.name_length ≤ longest_path };
}

impl Session {
    /// A session of a walker and a reader, which opens by the profile of this name and keeps the 64 verdicts that it gave or
    /// found last. After 64 opens in a row that found none of them (16, once that has happened), it looks for, and keeps, those of
    /// one open in 16, until one is found. If memory is refused, walker and reader are returned.
    pub fn new(
        alloc: Global,
        walker: Walker,
        reader: PolicyReader,
        profile: &[u8],
    ) -> Result<Session, (NoMemory, Walker, PolicyReader)>
        ensures ok { IfOk result (λ session. session ≡ record {
          walk = walker;
          reading = reader;
          profile = profile.now;
          judged =
              [];
          meetings = 0;
          kept_answers = 0;
        }) }
        ensures err { IfErr result (λ refused. (refused.1 ≡ walker) × (refused.2 ≡ reader)) }
    {
        match KeptVerdicts::new(alloc) {
            Ok(verdicts) => Session::of(alloc, walker, reader, profile, verdicts),
            Err(NoMemory) => Err((NoMemory, walker, reader)),
        }
    }

    /// As [`new`](Session::new), of a session that keeps no verdicts: for paths that are hardly ever opened again, or where
    /// memory is short. Its answers are the same.
    pub fn without_kept_verdicts(
        alloc: Global,
        walker: Walker,
        reader: PolicyReader,
        profile: &[u8],
    ) -> Result<Session, (NoMemory, Walker, PolicyReader)>
        ensures ok { IfOk result (λ session. session ≡ record {
          walk = walker;
          reading = reader;
          profile = profile.now;
          judged =
              [];
          meetings = 0;
          kept_answers = 0;
        }) }
        ensures err { IfErr result (λ refused. (refused.1 ≡ walker) × (refused.2 ≡ reader)) }
    {
        Session::of(alloc, walker, reader, profile, KeptVerdicts::none())
    }

    fn of(
        alloc: Global,
        walker: Walker,
        reader: PolicyReader,
        profile: &[u8],
        verdicts: KeptVerdicts,
    ) -> Result<Session, (NoMemory, Walker, PolicyReader)>
        requires { verdicts ≡ [] }
        ensures ok { IfOk result (λ session. session ≡ record {
          walk = walker;
          reading = reader;
          profile = profile.now;
          judged =
              [];
          meetings = 0;
          kept_answers = 0;
        }) }
        ensures err { IfErr result (λ refused. (refused.1 ≡ walker) × (refused.2 ≡ reader)) }
    {
        let Ok(profile) = Vec::from_slice(alloc, profile) else {
            return Err((NoMemory, walker, reader));
        };
        Ok(Session {
            alloc,
            known: Knowledge::new(walker, reader, profile, verdicts),
            scratch: Scratch::new(),
            name: [0; NAME_ROOM],
            name_length: 0,
            meetings: 0,
        })
    }

    /// Opens by the profile of this name from now on. If memory is refused, the old one stays.
    pub fn select(&mut self, profile: &[u8]) -> Result<(), NoMemory>
        ensures ok { OnOk result (self.new ≡ record self.old { profile = profile.now }) }
        ensures err { OnErr result (self.new ≡ self.old) }
    {
        let Ok(profile) = Vec::from_slice(self.alloc, profile) else {
            return Err(NoMemory);
        };
        self.known.select(profile);
        Ok(())
    }

    /// The name of the profile that it opens by.
    pub fn profile(&self) -> &[u8]
        ensures { result.now ≡ self.now.profile }
    {
        self.known.profile()
    }

    /// How many opens it answered by a verdict that it had kept, modulo 2^64.
    pub fn kept_answers(&self) -> u64
        ensures { result ≡ self.now.kept_answers }
    {
        self.known.kept_answers()
    }

    /// The name that the last answer judged (for a link, that of its new entry); empty if it judged none.
    pub fn name(&self) -> &[u8]
        ensures { result.now ≡ self.now.judged }
    {
        &self.name[..self.name_length]
    }
}
