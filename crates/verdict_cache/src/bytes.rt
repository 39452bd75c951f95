//! Bytes with their hash.
ghost use Rattle.std.specs.Prelude.{◌≡◌, [], OnOk, OnErr};
ghost use Rattle.verdict_cache.specs.inner.QuestionHashes.{hash_of};

use names::NoMemory;
use std::alloc::Global;
use std::hash::{FoldHasher, Hasher};
use std::marker::Model;

/// Bytes with their hash, so that a map need not read them each time.
#[derive(Drop)]
pub(crate) struct HashedBytes {
    hash: u64,
    bytes: Vec<u8>,
}

impl Model for HashedBytes {
    ghost use Rattle.std.specs.Prelude.{◌≡◌, ℕ, List};
    ghost use Rattle.verdict_cache.specs.inner.QuestionHashes.{hash_of};

    ghost Value = { List ℕ };

    ghost view = { λ b. b.bytes.items };

    ghost invariant = { λ b. b.hash ≡ hash_of b.bytes.items };
}

impl HashedBytes {
    /// No bytes. Allocates nothing.
    pub(crate) fn new(alloc: Global) -> HashedBytes {
        HashedBytes {
            hash: hash_of(&[]),
            bytes: Vec::new(alloc),
        }
    }

    /// Puts other bytes, with their hash, in place of these. It allocates only where they are longer than any before.
    pub(crate) fn set(&mut self, bytes: &[u8], hash: u64) -> Result<(), NoMemory>
        requires { hash ≡ hash_of bytes.now }
        ensures { OnOk result (self.new ≡ bytes.now) }
    {
        match set_bytes(&mut self.bytes, bytes) {
            Ok(()) => {
                self.hash = hash;
                Ok(())
            }
            Err(NoMemory) => {
                self.hash = hash_of(&[]);
                Err(NoMemory)
            }
        }
    }

    pub(crate) fn hash(&self) -> u64
        ensures { result ≡ hash_of self.now }
    {
        self.hash
    }

    pub(crate) fn as_slice(&self) -> &[u8]
        ensures { result.now ≡ self.now }
    {
        &self.bytes
    }
}

/// The hash of bytes.
pub(crate) fn hash_of(bytes: &[u8]) -> u64
    ensures { result ≡ hash_of bytes.now }
{
    let mut hasher = FoldHasher::default();
    hasher.write(bytes);
    hasher.finish()
}

/// Puts other bytes in place of those of a buffer, or leaves it empty.
pub(crate) fn set_bytes(buffer: &mut Vec<u8>, bytes: &[u8]) -> Result<(), NoMemory>
    ensures ok { OnOk result (buffer.new.items ≡ bytes.now) }
    ensures err { OnErr result (buffer.new.items ≡ []) }
{
    buffer.clear();
    match buffer.extend_from_slice(bytes) {
        Ok(()) => Ok(()),
        Err(_) => Err(NoMemory),
    }
}
