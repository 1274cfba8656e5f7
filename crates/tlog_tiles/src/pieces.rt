//! Pieces of the layout.
ghost use Rattle.std.specs.Prelude.{◌≡◌, ◌*◌, ◌≤◌, ℕ, List, length, take, IfSome, IfNone};
ghost use Rattle.tlog_tiles.specs.Bundle.{bundle_text};
ghost use Rattle.tlog_tiles.specs.Layout.{ends_of, HoldsFile, IsRowPiece, IsTextPiece};
ghost use Rattle.tlog_tiles.specs.Layout.{LacksRowPiece, LacksTextPiece};

/// The number of a file's first item, if a list of `len` items has all items of the file.
fn first_of(len: usize, index: u64, width: u32) -> Option<usize>
    ensures some { IfSome result (λ first. (first ≡ 256 * index) × HoldsFile len index width) }
    ensures none { IfNone result (HoldsFile len index width → ⊥) }
{
    if width == 0 || width > 256 || index > (len / 256) as u64 {
        return None;
    }
    let first = 256 * index as usize;
    if width as usize > len - first {
        return None;
    }
    Some(first)
}

/// The bytes of the hashes of a file, from those of its level.
pub(crate) fn row_piece(row: &[u8], index: u64, width: u32) -> Option<&[u8]>
    ensures some { IfSome result (λ bytes. IsRowPiece row.now index width bytes.now) }
    ensures none { IfNone result (LacksRowPiece row.now index width) }
{
    let Some(first) = first_of(row.len() / 32, index, width) else {
        return None;
    };
    let after = first + width as usize;
    Some(&row[32 * first..32 * after])
}

/// The bytes of the entries of a file.
pub(crate) fn text_piece<'a>(
    text: &'a [u8],
    ends: &[usize],
    index: u64,
    width: u32,
) -> Option<&'a [u8]>
    requires { (entries : List (List ℕ)) × (text.now ≡ bundle_text entries)
        × (ends.now ≡ ends_of 0 entries) }
    ensures some { IfSome result (λ bytes. IsTextPiece text.now ends.now index width bytes.now) }
    ensures none { IfNone result (LacksTextPiece ends.now index width) }
{
    let Some(first) = first_of(ends.len(), index, width) else {
        return None;
    };
    let after = first + width as usize;
    let start = start_of(ends, first);
    let end = start_of(ends, after);
    Some(&text[start..end])
}

/// The start of the entry with that number: the end of the one before it.
fn start_of(ends: &[usize], at: usize) -> usize
    requires { at ≤ length ends.now }
    ensures { (entries : List (List ℕ)) → ends.now ≡ ends_of 0 entries
        → result ≡ length (bundle_text (take at entries)) }
{
    if at == 0 { 0 } else { ends[at - 1] }
}
