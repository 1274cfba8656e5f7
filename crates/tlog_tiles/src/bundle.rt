//! Entry bundles (C2SP tlog-tiles, "Log Entries").
ghost use Rattle.std.specs.Prelude.{◌≡◌, ◌<◌, ◌≤◌, ◌^◌, ◌++◌, All, List, ℕ, length, IfNone, IfOk, IfSome, map};
ghost use Rattle.tlog_tiles.specs.Bundle.{entry_text, IsBundle, ReadsBundle};
ghost use Rattle.tlog_text.specs.Answers.{seen};
ghost use Rattle.tlog_tiles.specs.declared.bundle.BundleFault.TheVariants.{OutOfMemory};

use std::alloc::{AllocError, AllocFailed, Global};
use std::fmt;

/// Why bytes were refused as a bundle of a given width. For width 1 the bytes `00 02 61` are too short, and `00 01 61 00`
/// are too long.
#[derive(Debug, Drop, Clone, Copy)]
pub enum BundleFault {
    /// The bytes do not begin with a bundle of that width: they end within an entry, or before the last entry.
    BundleShort,
    /// The bytes begin with a bundle of that width, and more bytes follow it.
    BundleLong,
    /// Memory was refused.
    OutOfMemory,
}

/// Prints the name of the variant. A derived one takes the checker seconds more.
impl fmt::Display for BundleFault {
    fn fmt<W: fmt::Write>(&self, f: &mut fmt::Formatter<W>) -> fmt::Result {
        fmt::Debug::fmt(self, f)
    }
}

impl std::error::Error for BundleFault {}

impl From<AllocError> for BundleFault {
    ghost from_gives = { λ _ e. e ≡ OutOfMemory };

    fn from(_e: AllocError) -> BundleFault {
        BundleFault::OutOfMemory
    }
}

impl<T: Drop> From<AllocFailed<T>> for BundleFault {
    ghost from_gives = { λ _ e. e ≡ OutOfMemory };

    fn from(_e: AllocFailed<T>) -> BundleFault {
        BundleFault::OutOfMemory
    }
}

/// The greatest length of a bundle in bytes: 256 entries of 65,535 bytes, each after its two bytes of length.
pub const MAX_BUNDLE_LEN: usize = 16_777_472;

/// The first entry of the bytes, and the bytes after it (C2SP tlog-tiles, "Log Entries"). The entry follows its length, two
/// bytes big-endian. The result is `None` exactly if the bytes do not begin with an entry. The call allocates no memory.
///
/// ```text
/// split_entry(&[0, 1, 97, 9])   // Some((&[97], &[9]))
/// split_entry(&[0, 2, 97])      // None: one byte is lacking
/// ```
pub fn split_entry(bytes: &[u8]) -> Option<(&[u8], &[u8])>
    ensures found { IfSome result (λ x. (length x.0.now < 2 ^ 16)
        × (bytes.now ≡ entry_text x.0.now ++ x.1.now)) }
    ensures none { IfNone result ((entry rest : List ℕ) → length entry < 2 ^ 16
        → ¬ (bytes.now ≡ entry_text entry ++ rest)) }
{
    if bytes.len() < 2 {
        return None;
    }
    let (len_bytes, after) = bytes.split_at(2);
    let len = u16::from_be_bytes([len_bytes[0], len_bytes[1]]) as usize;
    if after.len() < len {
        return None;
    }
    Some(after.split_at(len))
}

/// The entries of a bundle of `width` entries (C2SP tlog-tiles, "Log Entries"). Each entry follows its length, two bytes
/// big-endian, and nothing follows the last entry. The entries are borrowed from the bytes.
///
/// # Errors
///
/// `BundleShort` exactly if the bytes do not begin with such a bundle. `BundleLong` exactly if they do, and more bytes
/// follow. `OutOfMemory` may be returned instead of either.
pub fn read_bundle(alloc: Global, width: u32, bytes: &[u8]) -> Result<Vec<&[u8]>, BundleFault>
    requires { width ≤ 256 }
    ensures { ReadsBundle width bytes.now (seen (λ v. map (λ e. e.now) v.items) result) }
{
    let mut entries = Vec::new(alloc);
    let mut rest = bytes;
    for _ in 0..width {
        let Some((entry, after)) = split_entry(rest) else {
            return Err(BundleFault::BundleShort);
        };
        entries.push(entry)?;
        rest = after;
    }
    if !rest.is_empty() {
        return Err(BundleFault::BundleLong);
    }
    Ok(entries)
}

/// The bytes of the bundle of these entries: each entry after its length, two bytes big-endian.
///
/// A bundle has at most 256 entries of at most 65,535 bytes each.
///
/// # Errors
///
/// Memory was refused.
pub fn write_bundle(alloc: Global, entries: &[&[u8]]) -> Result<Vec<u8>, AllocError>
    requires count { length entries.now ≤ 256 }
    requires fits { All (λ e. length e.now < 2 ^ 16) entries.now }
    ensures { IfOk result (λ v. IsBundle (length entries.now) v.items
        (map (λ e. e.now) entries.now)) }
{
    let mut bytes = Vec::new(alloc);
    for entry in entries {
        let len = entry.len() as u16;
        bytes.extend_from_slice(&len.to_be_bytes())?;
        bytes.extend_from_slice(entry)?;
    }
    Ok(bytes)
}
