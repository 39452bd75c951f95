//! Profiles of images.
ghost use Rattle.std.specs.Prelude.{◌≡◌, IfOk, IfErr};
ghost use Rattle.table_verifier.specs.AcceptedImages.{IsLoaded, IsRefusedFor};

use crate::verification::verify;
use crate::verified::VerifiedTable;
use std::alloc::Global;
use std::marker::Model;
use tables::{ImageFault, from_bytes};

/// A profile from an image: nothing is known about its verdicts except that every name has one.
#[derive(Drop)]
pub struct LoadedProfile {
    table: VerifiedTable,
}

impl Model for LoadedProfile {
    ghost use Rattle.tables.specs.Tables.{Table};

    ghost Value = { Table };

    ghost view = { λ loaded. loaded.table };
}

impl LoadedProfile {
    /// Loads an image, if its bytes and its tables have no fault; else returns the first one. Memory can be refused only once the
    /// bytes have none of the header's faults.
    pub fn make(alloc: Global, bytes: &[u8]) -> Result<LoadedProfile, ImageFault>
        ensures ok { IfOk result (IsLoaded bytes.now) }
        ensures err { IfErr result (IsRefusedFor bytes.now) }
    {
        let table = from_bytes(alloc, bytes)?;
        match verify(table) {
            Ok(table) => Ok(LoadedProfile { table }),
            Err((fault, _)) => Err(fault),
        }
    }

    /// The table to judge by.
    pub fn table(&self) -> &VerifiedTable
        ensures { result.now ≡ self.now }
    {
        &self.table
    }
}
