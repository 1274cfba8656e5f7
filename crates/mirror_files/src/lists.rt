//! The lists of a state text, borrowed from its bytes.
ghost use Rattle.std.specs.Prelude.{◌≡◌, ◌↔◌, codes, ℕ, List, map, IfNone, IfOk, IfSome, IsTrue};
ghost use Rattle.mirror_files.specs.StateText.{VersionTwo, VersionOne, magic_of};
ghost use Rattle.mirror_files.specs.Content.{AllRise, AllTaggedWell, listed_notes, listed_origin};
ghost use Rattle.mirror_files.specs.Stands.{parts_of, HasLists};

use crate::items::{Form, item_at, list_at};
use crate::order::{all_state_strings, rises};
use std::alloc::{AllocError, Global};

/// The lists of a state text.
#[derive(Drop)]
pub enum Lists<'a> {
    /// Version 2: pairs of hashes, and entries.
    VersionTwo(&'a [u8], Vec<&'a [u8]>, Vec<&'a [u8]>, Vec<&'a [u8]>),
    /// Version 1: strings with their tags.
    VersionOne(&'a [u8], Vec<&'a [u8]>, Vec<&'a [u8]>),
}

impl<'a> Lists<'a> {
    /// The origin that the text names.
    pub fn origin(&self) -> &[u8]
        ensures { result.now ≡ listed_origin (parts_of self.now) }
    {
        match self {
            Lists::VersionTwo(origin, _, _, _) => origin,
            Lists::VersionOne(origin, _, _) => origin,
        }
    }

    /// The notes that the text lists.
    pub fn notes(&self) -> &[&'a [u8]]
        ensures { map (λ n. n.now) result.now ≡ listed_notes (parts_of self.now) }
    {
        match self {
            Lists::VersionTwo(_, notes, _, _) => notes.as_slice(),
            Lists::VersionOne(_, notes, _) => notes.as_slice(),
        }
    }

    pub(crate) fn all_rise(&self) -> bool
        ensures { IsTrue result ↔ AllRise (parts_of self.now) }
    {
        match self {
            Lists::VersionTwo(_, notes, pairs, entries) => {
                rises(notes) && rises(pairs) && rises(entries)
            }
            Lists::VersionOne(_, notes, strings) => rises(notes) && rises(strings),
        }
    }

    // Whether each string of version 1 is one that a tree hashes.
    pub(crate) fn all_tagged_well(&self) -> bool
        ensures { IsTrue result ↔ AllTaggedWell (parts_of self.now) }
    {
        match self {
            Lists::VersionTwo(_, _, _, _) => true,
            Lists::VersionOne(_, _, strings) => all_state_strings(strings),
        }
    }
}

// The lists of version 2 at the start, and the bytes after them.
pub(crate) fn parted_at(
    alloc: Global,
    bytes: &[u8],
) -> Result<Option<(Lists<'_>, &[u8])>, AllocError>
    ensures found { IfOk result (λ o. IfSome o (λ x. HasLists bytes.now (parts_of x.0) x.1.now)) }
    ensures version { IfOk result (λ o. IfSome o (λ x. magic_of (parts_of x.0)
        ≡ codes "TLMIRR02")) }
    ensures none { IfOk result (λ o. IfNone o
        ((origin : List ℕ) (notes pairs entries : List (List ℕ)) (rest : List ℕ)
        → ¬ HasLists bytes.now (VersionTwo origin notes pairs entries) rest)) }
{
    let Some((origin, after)) = item_at(Form::Short, bytes) else {
        return Ok(None);
    };
    let Some((notes, after)) = list_at(alloc, Form::Long, after)? else {
        return Ok(None);
    };
    let Some((pairs, after)) = list_at(alloc, Form::Hashes, after)? else {
        return Ok(None);
    };
    let Some((entries, rest)) = list_at(alloc, Form::Short, after)? else {
        return Ok(None);
    };
    Ok(Some((Lists::VersionTwo(origin, notes, pairs, entries), rest)))
}

// The lists of version 1 at the start, and the bytes after them.
pub(crate) fn tagged_at(
    alloc: Global,
    bytes: &[u8],
) -> Result<Option<(Lists<'_>, &[u8])>, AllocError>
    ensures found { IfOk result (λ o. IfSome o (λ x. HasLists bytes.now (parts_of x.0) x.1.now)) }
    ensures version { IfOk result (λ o. IfSome o (λ x. magic_of (parts_of x.0)
        ≡ codes "TLMIRR01")) }
    ensures none { IfOk result (λ o. IfNone o ((origin : List ℕ) (notes strings : List (List ℕ))
        (rest : List ℕ) → ¬ HasLists bytes.now (VersionOne origin notes strings) rest)) }
{
    let Some((origin, after)) = item_at(Form::Short, bytes) else {
        return Ok(None);
    };
    let Some((notes, after)) = list_at(alloc, Form::Long, after)? else {
        return Ok(None);
    };
    let Some((strings, rest)) = list_at(alloc, Form::Long, after)? else {
        return Ok(None);
    };
    Ok(Some((Lists::VersionOne(origin, notes, strings), rest)))
}
