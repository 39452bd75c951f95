//! Long results in short.
ghost use Rattle.std.specs.Prelude.{◌≡◌, ◌+◌, ◌%◌, ◌^◌, length};
ghost use Rattle.std.specs.Int.{to_le_bytes, w64};
ghost use Rattle.storm_parts.specs.Fnv.{hash_on, hash_of_none};

use std::fmt;

/// The length of a list of bytes, and a hash of all of them (FNV-1a of 64 bits, by Fowler, Noll and Vo).
#[derive(Clone, Copy, Debug, PartialEq, Eq)]
pub struct Hash {
    length: u64,
    hash: u64,
}

impl Hash {
    /// Of no bytes.
    pub const NONE: Hash = Hash {
        length: 0,
        hash: 0xcbf2_9ce4_8422_2325,
    };

    pub fn of(bytes: &[u8]) -> Hash
        ensures length { result.length ≡ length bytes.now % 2 ^ 64 }
        ensures hash { result.hash ≡ hash_on hash_of_none bytes.now }
    {
        Hash::NONE.and(bytes)
    }

    /// Of the bytes so far and these.
    pub fn and(self, bytes: &[u8]) -> Hash
        ensures length { result.length ≡ (self.length + length bytes.now) % 2 ^ 64 }
        ensures hash { result.hash ≡ hash_on self.hash bytes.now }
    {
        let mut hash = self.hash;
        for byte in bytes {
            hash = (hash ^ u64::from(*byte)).wrapping_mul(0x100_0000_01b3);
        }
        Hash {
            length: self.length.wrapping_add(bytes.len() as u64),
            hash,
        }
    }

    /// Of the bytes so far and those of a number.
    pub fn and_number(self, number: u64) -> Hash
        ensures length { result.length ≡ (self.length + 8) % 2 ^ 64 }
        ensures hash { result.hash ≡ hash_on self.hash (to_le_bytes w64 number) }
    {
        self.and(&number.to_le_bytes())
    }
}

impl fmt::Display for Hash {
    fn fmt<W: fmt::Write>(&self, f: &mut fmt::Formatter<W>) -> fmt::Result {
        write!(f, "{} bytes, hash {:016x}", self.length, self.hash)
    }
}
