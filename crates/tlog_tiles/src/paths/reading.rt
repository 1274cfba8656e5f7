//! The parts of a path's text, from left to right.
ghost use Rattle.std.specs.Prelude.{◌≡◌, ◌<◌, ◌≤◌, ◌+◌, ◌*◌, ◌++◌, ◌∷◌, List, ℕ, IfNone, IfSome};
ghost use Rattle.std.specs.Option.{SomeIff, option_copied};
ghost use Rattle.tlog_tiles.specs.Path.{group_text, three_digits, HasNoSlash, HasWidthPart, IsBelowTile, IsIndex, IsKind, IsPartialWidth, IsWidthOf};
ghost use Rattle.tlog_tiles.specs.Kind.{IsOfKind};

use crate::paths::MAX_INDEX;
use tlog_text::read_number;

// The kind of file that the second segment of a path is for.
#[derive(Clone, Copy)]
pub enum Kind {
    // Tiles of hashes of that level.
    Hashes(u32),
    // Entry bundles.
    Bundles,
}

// The bytes before the first slash, and those after it.
fn cut_first(bytes: &[u8]) -> Option<(&[u8], &[u8])>
    ensures found { IfSome result (λ x. HasNoSlash x.0.now
        × (bytes.now ≡ x.0.now ++ 47 ∷ x.1.now)) }
    ensures none { IfNone result (HasNoSlash bytes.now) }
{
    for (at, byte) in bytes.iter().enumerate() {
        if *byte == b'/' {
            return Some((&bytes[..at], &bytes[at + 1..]));
        }
    }
    None
}

// The bytes before the last slash, and those after it.
fn cut_last(bytes: &[u8]) -> Option<(&[u8], &[u8])>
    ensures found { IfSome result (λ x. HasNoSlash x.1.now
        × (bytes.now ≡ x.0.now ++ 47 ∷ x.1.now)) }
    ensures none { IfNone result (HasNoSlash bytes.now) }
{
    for at in (0..bytes.len()).rev() {
        if bytes[at] == b'/' {
            return Some((&bytes[..at], &bytes[at + 1..]));
        }
    }
    None
}

// The bytes after the prefix, if they begin with it.
fn strip_start<'a>(bytes: &'a [u8], prefix: &[u8]) -> Option<&'a [u8]>
    ensures found { IfSome result (λ rest. bytes.now ≡ prefix.now ++ rest.now) }
    ensures none { IfNone result ((rest : List ℕ) → ¬ (bytes.now ≡ prefix.now ++ rest)) }
{
    bytes.strip_prefix(prefix)
}

// The bytes before the suffix, if they end with it.
fn strip_end<'a>(bytes: &'a [u8], suffix: &[u8]) -> Option<&'a [u8]>
    ensures found { IfSome result (λ rest. bytes.now ≡ rest.now ++ suffix.now) }
    ensures none { IfNone result ((rest : List ℕ) → ¬ (bytes.now ≡ rest ++ suffix.now)) }
{
    bytes.strip_suffix(suffix)
}

// The second segment of a path of three or more segments that begins with `tile`, and the text
// after it.
pub fn below_tile(bytes: &[u8]) -> Option<(&[u8], &[u8])>
    ensures found { IfSome result (λ x. IsBelowTile bytes.now x.0.now x.1.now) }
    ensures none { IfNone result ((second tail : List ℕ) → ¬ IsBelowTile bytes.now second tail) }
{
    let rest = strip_start(bytes, b"tile/")?;
    cut_first(rest)
}

// The kind of file that a second segment is for.
pub fn kind_of(second: &[u8]) -> Option<Kind>
    ensures found { IfSome result (λ kind. IsOfKind second.now kind) }
    ensures none { IfNone result (¬ IsKind second.now) }
{
    if second == b"entries".as_slice() {
        return Some(Kind::Bundles);
    }
    match second {
        [digit @ b'0'..=b'7'] => Some(Kind::Hashes(u32::from(*digit - b'0'))),
        _ => None,
    }
}

// The text of the index, and the text of the width if there is one.
pub fn width_part(tail: &[u8]) -> (&[u8], Option<&[u8]>)
    ensures { HasWidthPart tail.now result.0.now (option_copied result.1) }
{
    if let Some((before, digits)) = cut_last(tail) {
        if let Some(index) = strip_end(before, b".p") {
            return (index, Some(digits));
        }
    }
    (tail, None)
}

// The number of the three digits at the start, and the bytes after them.
fn three_at(bytes: &[u8]) -> Option<(u64, &[u8])>
    ensures found { IfSome result (λ x. (x.0 < 1000) × (bytes.now ≡ three_digits x.0 ++ x.1.now)) }
    ensures none { IfNone result ((group : ℕ) (rest : List ℕ) → group < 1000
        → ¬ (bytes.now ≡ three_digits group ++ rest)) }
{
    match bytes {
        [
            hundreds @ b'0'..=b'9',
            tens @ b'0'..=b'9',
            ones @ b'0'..=b'9',
            rest @ ..,
        ] => {
            let number = u64::from(*hundreds - b'0') * 100
                + u64::from(*tens - b'0') * 10
                + u64::from(*ones - b'0');
            Some((number, rest))
        }
        _ => None,
    }
}

// The number of the group at the start, and the bytes after it.
fn group_at(bytes: &[u8]) -> Option<(u64, &[u8])>
    ensures found { IfSome result (λ x. (x.0 < 1000) × (bytes.now ≡ group_text x.0 ++ x.1.now)) }
    ensures none { IfNone result ((group : ℕ) (rest : List ℕ) → group < 1000
        → ¬ (bytes.now ≡ group_text group ++ rest)) }
{
    let digits = strip_start(bytes, b"x")?;
    let (number, after) = three_at(digits)?;
    let rest = strip_start(after, b"/")?;
    Some((number, rest))
}

// A number with one more group of digits, if an index may be that large.
fn with_group(number: u64, group: u64) -> Option<u64>
    requires { group < 1000 }
    ensures { SomeIff result (number * 1000 + group ≤ MAX_INDEX) (number * 1000 + group) }
{
    if number > MAX_INDEX / 1000 {
        return None;
    }
    let next = number * 1000 + group;
    if next > MAX_INDEX { None } else { Some(next) }
}

// The index that a text in groups of three digits spells.
pub fn index_of(text: &[u8]) -> Option<u64>
    ensures found { IfSome result (λ index. IsIndex text.now index × (index ≤ MAX_INDEX)) }
    ensures none { IfNone result ((index : ℕ) → index ≤ MAX_INDEX → ¬ IsIndex text.now index) }
{
    let mut index = 0;
    let mut rest = text;
    while let Some((group, after)) = group_at(rest) {
        index = with_group(index, group)?;
        if index == 0 {
            return None;
        }
        rest = after;
    }
    let (group, after) = three_at(rest)?;
    if !after.is_empty() {
        return None;
    }
    with_group(index, group)
}

// The width that the text spells; 256 without a text.
pub fn width_of(text: Option<&[u8]>) -> Option<u32>
    ensures found { IfSome result (λ width. IsWidthOf (option_copied text.entry) width) }
    ensures none { IfNone result ((width : ℕ) → ¬ IsWidthOf (option_copied text.entry) width) }
{
    let Some(digits) = text else {
        return Some(256);
    };
    partial_width(digits)
}

// A width below 256 in decimal digits.
fn partial_width(digits: &[u8]) -> Option<u32>
    ensures found { IfSome result (λ width. IsPartialWidth digits.now width) }
    ensures none { IfNone result ((width : ℕ) → ¬ IsPartialWidth digits.now width) }
{
    let Ok(text) = str::from_utf8(digits) else {
        return None;
    };
    let Ok(width) = read_number(text, 255) else {
        return None;
    };
    if width == 0 { None } else { Some(width as u32) }
}
