//! The text that the blocks only add to.
ghost use Rattle.std.specs.Prelude.{◌≡◌, ◌+◌, ◌≤◌, ◌++◌, length, vec_len, vec_capacity};

/// Adds characters in room that was made before.
pub fn push_text(text: &mut Vec<char>, more: &[char])
    requires { vec_len text.old + length more.now ≤ vec_capacity text.old }
    ensures items { text.new.items ≡ text.old.items ++ more.now }
    ensures capacity { vec_capacity text.new ≡ vec_capacity text.old }
{
    for character in more {
        text.push_reserved(*character);
    }
}
