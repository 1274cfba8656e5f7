//! Items of a state text, and lists of them.
ghost use Rattle.std.specs.Prelude.{◌≡◌, ◌++◌, ℕ, List, map, IfNone, IfOk, IfSome};
ghost use Rattle.mirror_files.specs.Items.{item_text, IsItem};
ghost use Rattle.mirror_files.specs.Stands.{HasItems, HasList};

use std::alloc::{AllocError, Global};

/// The form of an item in a state text.
#[derive(Clone, Copy)]
pub enum Form {
    /// After its length in two bytes, big-endian.
    Short,
    /// After its length in four bytes, big-endian.
    Long,
    /// Alone: two hashes, 64 bytes.
    Hashes,
}

// The item at the start, and the bytes after it.
pub(crate) fn item_at(form: Form, bytes: &[u8]) -> Option<(&[u8], &[u8])>
    ensures found { IfSome result (λ x. IsItem form x.0.now
        × (bytes.now ≡ item_text form x.0.now ++ x.1.now)) }
    ensures none { IfNone result ((item rest : List ℕ) → IsItem form item
        → ¬ (bytes.now ≡ item_text form item ++ rest)) }
{
    match form {
        Form::Short => short_at(bytes),
        Form::Long => long_at(bytes),
        Form::Hashes => hashes_at(bytes),
    }
}

fn short_at(bytes: &[u8]) -> Option<(&[u8], &[u8])>
    ensures found { IfSome result (λ x. IsItem Form.Short x.0.now
        × (bytes.now ≡ item_text Form.Short x.0.now ++ x.1.now)) }
    ensures none { IfNone result ((item rest : List ℕ) → IsItem Form.Short item
        → ¬ (bytes.now ≡ item_text Form.Short item ++ rest)) }
{
    if bytes.len() < 2 {
        return None;
    }
    let (front, after) = bytes.split_at(2);
    let len = u16::from_be_bytes([front[0], front[1]]) as usize;
    if after.len() < len {
        return None;
    }
    Some(after.split_at(len))
}

fn long_at(bytes: &[u8]) -> Option<(&[u8], &[u8])>
    ensures found { IfSome result (λ x. IsItem Form.Long x.0.now
        × (bytes.now ≡ item_text Form.Long x.0.now ++ x.1.now)) }
    ensures none { IfNone result ((item rest : List ℕ) → IsItem Form.Long item
        → ¬ (bytes.now ≡ item_text Form.Long item ++ rest)) }
{
    if bytes.len() < 4 {
        return None;
    }
    let (front, after) = bytes.split_at(4);
    let len = u32::from_be_bytes([front[0], front[1], front[2], front[3]]) as usize;
    if after.len() < len {
        return None;
    }
    Some(after.split_at(len))
}

fn hashes_at(bytes: &[u8]) -> Option<(&[u8], &[u8])>
    ensures found { IfSome result (λ x. IsItem Form.Hashes x.0.now
        × (bytes.now ≡ item_text Form.Hashes x.0.now ++ x.1.now)) }
    ensures none { IfNone result ((item rest : List ℕ) → IsItem Form.Hashes item
        → ¬ (bytes.now ≡ item_text Form.Hashes item ++ rest)) }
{
    if bytes.len() < 64 {
        return None;
    }
    Some(bytes.split_at(64))
}

// `count` items at the start, and the bytes after them.
fn items_at(
    alloc: Global,
    form: Form,
    count: u64,
    bytes: &[u8],
) -> Result<Option<(Vec<&[u8]>, &[u8])>, AllocError>
    ensures found { IfOk result (λ o. IfSome o
        (λ x. HasItems form count bytes.now (map (λ i. i.now) x.0.items) x.1.now)) }
    ensures none { IfOk result (λ o. IfNone o ((items : List (List ℕ)) (rest : List ℕ)
        → ¬ HasItems form count bytes.now items rest)) }
{
    let mut items = Vec::new(alloc);
    let mut rest = bytes;
    for _ in 0..count {
        let Some((item, after)) = item_at(form, rest) else {
            return Ok(None);
        };
        items.push(item)?;
        rest = after;
    }
    Ok(Some((items, rest)))
}

// The list at the start, and the bytes after it.
pub(crate) fn list_at(
    alloc: Global,
    form: Form,
    bytes: &[u8],
) -> Result<Option<(Vec<&[u8]>, &[u8])>, AllocError>
    ensures found { IfOk result (λ o. IfSome o
        (λ x. HasList form bytes.now (map (λ i. i.now) x.0.items) x.1.now)) }
    ensures none { IfOk result (λ o. IfNone o ((items : List (List ℕ)) (rest : List ℕ)
        → ¬ HasList form bytes.now items rest)) }
{
    if bytes.len() < 8 {
        return Ok(None);
    }
    let (front, after) = bytes.split_at(8);
    let count = u64::from_be_bytes([
        front[0], front[1], front[2], front[3], front[4], front[5], front[6], front[7],
    ]);
    items_at(alloc, form, count, after)
}
