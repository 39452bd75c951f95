//! An entry of a plain tree, as the walk names it.
ghost use Rattle.std.specs.Prelude.{◌≡◌, ◌≤◌, length, take};
ghost use Rattle.plain_tree.specs.PlainEntry.{key_component};

use names::LONGEST_COMPONENT;

/// The key by which a plain tree finds an entry: the number of the directory that has it, and its component there.
#[derive(Clone, Copy)]
pub struct EntryKey {
    pub(crate) of: u64,
    pub(crate) bytes: [u8; LONGEST_COMPONENT],
    // The number of bytes that are the component's.
    pub(crate) count: usize,
}

/// The root of a plain tree, or an entry.
#[derive(Clone, Copy)]
pub enum PlainEntry {
    /// The root.
    Root,
    /// The entry of this key.
    Held(EntryKey),
}

impl EntryKey {
    /// The key of a component in a directory.
    pub(crate) fn new(of: u64, component: &[u8]) -> EntryKey
        requires { length component.now ≤ LONGEST_COMPONENT }
        ensures of { result.of ≡ of }
        ensures component { key_component result ≡ component.now }
        ensures fits { result.count ≤ LONGEST_COMPONENT }
    {
        let mut bytes = [0; LONGEST_COMPONENT];
        copy_to_front(&mut bytes, component);
        let count = component.len();
        EntryKey { of, bytes, count }
    }

    /// The entry's component.
    pub(crate) fn component(&self) -> &[u8]
        requires { self.now.count ≤ LONGEST_COMPONENT }
        ensures { result.now ≡ key_component self.now }
    {
        &self.bytes[..self.count]
    }
}

/// Writes the bytes to the front of the room.
pub(crate) fn copy_to_front(room: &mut [u8], bytes: &[u8])
    requires { length bytes.now ≤ length room.old }
    ensures { take (length bytes.now) room.new ≡ bytes.now }
{
    for (i, byte) in bytes.iter().enumerate() {
        room[i] = *byte;
    }
}
