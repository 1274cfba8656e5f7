//! The order of lists, and the strings that a tree hashes.
ghost use Rattle.std.specs.Prelude.{◌≡◌, ◌↔◌, map, All, IsTrue};
ghost use Rattle.std.specs.Cmp.Lexicographic.{slice_cmp};
ghost use Rattle.std.specs.Ordering.{nat_cmp};
ghost use Rattle.std.specs.declared.cmp.Ordering.TheVariants.{Less};
ghost use Rattle.mirror_files.specs.Content.{IsStateString, Rises};

// Whether the items rise strictly by their bytes, a prefix first.
pub(crate) fn rises(items: &[&[u8]]) -> bool
    ensures { IsTrue result ↔ Rises (map (λ x. x.now) items.now) }
{
    for i in 1..items.len() {
        if !is_before(items[i - 1], items[i]) {
            return false;
        }
    }
    true
}

fn is_before(first: &[u8], second: &[u8]) -> bool
    ensures { IsTrue result ↔ (slice_cmp nat_cmp first.now second.now ≡ Less) }
{
    first.cmp(&second).is_lt()
}

// Whether each is a string that a tree hashes, with its tag.
pub(crate) fn all_state_strings(strings: &[&[u8]]) -> bool
    ensures { IsTrue result ↔ All IsStateString (map (λ x. x.now) strings.now) }
{
    for string in strings {
        if !is_state_string(string) {
            return false;
        }
    }
    true
}

// Whether it is the string of an entry of at most 65,535 bytes, or of a pair.
fn is_state_string(string: &[u8]) -> bool
    ensures { IsTrue result ↔ IsStateString string.now }
{
    match string.split_first() {
        None => false,
        Some((tag, rest)) => match *tag {
            0 => rest.len() <= 65_535,
            1 => rest.len() == 64,
            _ => false,
        },
    }
}
