//! The well-formed names.
use pad_model::is_well_formed_name;

#[test]
fn small_letters_digits_and_hyphens(rt: HostRuntime) {
    for name in ["p", "abcdefghijklmnopqrstuvwxyz012345", "a-0"] {
        assert!(rt; is_well_formed_name(name), "{name:?} is no name");
    }
}

#[test]
fn no_other_characters_and_at_most_32(rt: HostRuntime) {
    for name in ["", "abcdefghijklmnopqrstuvwxyz0123456", "P", "a b", "ä"] {
        assert!(rt; !is_well_formed_name(name), "{name:?} is a name");
    }
}
