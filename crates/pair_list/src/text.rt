//! Text that grows within its room.
ghost use Rattle.std.specs.Prelude.{◌≡◌, ◌≤◌, ◌+◌, ◌++◌, length, map};
ghost use Rattle.std.specs.Vec.{vec_len, vec_capacity};

use crate::Letters;

/// Adds to a text that has room.
pub(crate) fn put(text: &mut Vec<u8>, more: &[u8])
    requires room { vec_len text.old + length more.now ≤ vec_capacity text.old }
    ensures items { text.new.items ≡ text.old.items ++ more.now }
    ensures len { vec_len text.new ≡ vec_len text.old + length more.now }
    ensures capacity { vec_capacity text.old ≤ vec_capacity text.new }
{
    let Ok(()) = text.extend_from_slice(more) else {
        unreachable!()
    };
}

/// Adds a name in these letters to a text that has room.
pub(crate) fn put_as<L: Letters>(text: &mut Vec<u8>, name: &[u8])
    requires room { vec_len text.old + length name.now ≤ vec_capacity text.old }
    ensures items { text.new.items ≡ text.old.items ++ map L.form name.now }
    ensures len { vec_len text.new ≡ vec_len text.old + length name.now }
    ensures capacity { vec_capacity text.old ≤ vec_capacity text.new }
{
    for byte in name {
        text.push_reserved(L::of(*byte));
    }
}
