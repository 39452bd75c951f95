//! Heads of profiles.
ghost use Rattle.std.specs.Prelude.{◌≡◌, ◌++◌, codes, option_map, IfOk};
ghost use Rattle.import_scope.specs.Scopes.{head_within};

use std::alloc::{AllocError, Global};
use std::marker::Model;

/// A profile's head: its full name, whether it is a hat, and the number of the outermost profile around it.
#[derive(Debug, Drop)]
pub struct ProfileHead {
    name: Vec<u8>,
    is_hat: bool,
    outermost: usize,
}

impl Model for ProfileHead {
    ghost use Rattle.import_scope.specs.Scopes.{Head};

    ghost Value = { Head };

    ghost view = { λ h. record { name = h.name.items; is_hat = h.is_hat; outermost = h.outermost } };
}

impl ProfileHead {
    /// Its full name.
    pub fn name(&self) -> &[u8]
        ensures { result.now ≡ self.now.name }
    {
        &self.name
    }

    /// Whether it is a hat.
    pub fn is_hat(&self) -> bool
        ensures { result ≡ self.now.is_hat }
    {
        self.is_hat
    }

    /// The number of the outermost profile around it, or its own if none is around it.
    pub fn outermost(&self) -> usize
        ensures { result ≡ self.now.outermost }
    {
        self.outermost
    }

    /// The head of the profile with this own name and number, in a profile or in none.
    pub(crate) fn within(
        alloc: Global,
        around: Option<&ProfileHead>,
        number: usize,
        is_hat: bool,
        own: &[u8],
    ) -> Result<ProfileHead, AllocError>
        ensures { IfOk result (λ h. h ≡ head_within (option_map (λ a. a.now) around.entry) number is_hat own.now) }
    {
        match around {
            Some(head) => Ok(ProfileHead {
                name: child_name(alloc, &head.name, own)?,
                is_hat,
                outermost: head.outermost,
            }),
            None => Ok(ProfileHead {
                name: Vec::from_slice(alloc, own)?,
                is_hat,
                outermost: number,
            }),
        }
    }
}

/// The full name of a child.
fn child_name(alloc: Global, around: &[u8], own: &[u8]) -> Result<Vec<u8>, AllocError>
    ensures { IfOk result (λ name. name.items ≡ around.now ++ (codes "//" ++ own.now)) }
{
    let mut name = Vec::from_slice(alloc, around)?;
    name.extend_from_slice(b"//")?;
    name.extend_from_slice(own)?;
    Ok(name)
}
