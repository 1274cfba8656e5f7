//! The lines of a tree head's missing paths, written one by one.
ghost use Rattle.std.specs.Prelude.{◌≡◌, ◌≢◌, ◌++◌, [], ◌+◌, ◌-◌, ◌*◌, ◌≤◌, ◌<◌, ◌%◌, ℕ, List, IfErr, IfOk, IsTrue, ◌↔◌, ◌⊎◌, OnErr, OnOk, Err, string_bytes};
ghost use Rattle.std.specs.Io.KnownBytes.{Appends, Keeps};
ghost use Rattle.byte_streams.specs.Streams.{AppendsPrefix};
ghost use Rattle.node_store.specs.Strings.{NoClash};
ghost use Rattle.tlog_tiles.specs.Path.{group_text, groups_text, index_text, three_digits};
ghost use Rattle.tlog_tiles.specs.declared.paths.Path.{Path as AnyPath};
ghost use Rattle.mirror_model.specs.Texts.{missing_text, path_line};
ghost use Rattle.mirror_trees.specs.HeldTrees.{AreKnown};
ghost use Rattle.mirror_trees.specs.Levels.{AreClear, ListsLevels, path_at};
ghost use Rattle.tlog_mirror.specs.MissingLines.{IsLevelOf, begin_text, part_text, level_paths};
ghost use Rattle.tlog_mirror.specs.Pieces.{Sends};

use crate::pieces::send;
use byte_streams::{StreamFault, write_whole};
use mirror_trees::{HeldTrees, Marks, clear_of, next_missing};
use node_store::Store;
use std::alloc::{AllocError, Global};
use std::io::Write;
use tlog_hash::{Hash, TreeHash};

// How the line of a tree's partial bundle ends.
fn part_of(alloc: Global, size: u64) -> Result<String, AllocError>
    ensures { IfOk result (λ text. string_bytes text ≡ part_text size) }
{
    let width = size % 256;
    format!(in alloc; ".p/{width}\n")
}

// How the line of each file of a level begins.
fn begin_of(alloc: Global, level: u32) -> Result<String, AllocError>
    ensures { IfOk result (λ text. string_bytes text ≡ begin_text level) }
{
    if level == 0 {
        return String::from_str(alloc, "tile/entries/");
    }
    format!(in alloc; "tile/{level}/")
}

/// Writes the missing paths of the tree of that size and root, in the order of `missing_of` of `mirror_trees`, a line
/// each. It returns whether there is one.
///
/// It writes each line as it finds it. Memory is needed for each tree and not for each path, and before the first byte
/// is written. It does not flush.
///
/// ```text
/// let partial = write_missing(alloc, &mut output, &store, &known, 3, &root)?;
/// ```
///
/// # Errors
///
/// `OutOfMemory` if memory was refused: nothing was written. `WriteFault` if a write failed or took no byte: a prefix
/// of the lines was written. There is no other fault.
pub fn write_missing<H: TreeHash, W: Write>(
    alloc: Global,
    output: &mut W,
    store: &Store<H>,
    known: &HeldTrees,
    size: u64,
    root: &Hash,
) -> Result<bool, StreamFault>
    requires known { AreKnown H.digest store.now known.now }
    requires clean { NoClash H.digest store.now }
    ensures ok { OnOk result ((paths : List AnyPath)
        → ListsLevels H.digest store.now size root.now 8 paths
        → Appends (W.contents output.old) (W.contents output.new) (missing_text paths)) }
    ensures any { IfOk result (λ any. (paths : List AnyPath)
        → ListsLevels H.digest store.now size root.now 8 paths
        → IsTrue any ↔ (paths ≢ [])) }
    ensures err { result ≡ Err StreamFault.WriteFault → (paths : List AnyPath)
        → ListsLevels H.digest store.now size root.now 8 paths
        → AppendsPrefix (W.contents output.old) (W.contents output.new) (missing_text paths) }
    ensures memory { result ≡ Err StreamFault.OutOfMemory → Keeps (W.contents output.old)
        (W.contents output.new) }
    ensures fault { IfErr result (λ e. e ≢ StreamFault.ReadFault) }
{
    let part = part_of(alloc, size)?;
    let mut held = Vec::new(alloc);
    let part = part.as_bytes();
    let any = write_levels(alloc, output, &mut held, store, known, size, root, part, 8)?;
    write_whole(output, held.as_slice())?;
    Ok(any)
}

// Writes the missing paths of the first levels, counted from level 7 down. Returns whether there is one.
//
// It first finds the clear trees of all levels, so it needs all its memory before the first byte is written.
fn write_levels<H: TreeHash, W: Write>(
    alloc: Global,
    output: &mut W,
    held: &mut Vec<u8>,
    store: &Store<H>,
    known: &HeldTrees,
    size: u64,
    root: &Hash,
    part: &[u8],
    levels: u32,
) -> Result<bool, StreamFault>
    requires known { AreKnown H.digest store.now known.now }
    requires clean { NoClash H.digest store.now }
    requires part { part.now ≡ part_text size }
    requires levels { levels ≤ 8 }
    ensures ok { OnOk result ((paths : List AnyPath)
        → ListsLevels H.digest store.now size root.now levels paths
        → Sends (W.contents output.old) (W.contents output.new) held.new.items
        (held.old.items ++ missing_text paths)) }
    ensures any { IfOk result (λ any. (paths : List AnyPath)
        → ListsLevels H.digest store.now size root.now levels paths
        → IsTrue any ↔ (paths ≢ [])) }
    ensures err { result ≡ Err StreamFault.WriteFault → (paths : List AnyPath)
        → ListsLevels H.digest store.now size root.now levels paths
        → AppendsPrefix (W.contents output.old) (W.contents output.new)
        (held.old.items ++ missing_text paths) }
    ensures memory { result ≡ Err StreamFault.OutOfMemory → Keeps (W.contents output.old)
        (W.contents output.new) }
    ensures fault { IfErr result (λ e. e ≢ StreamFault.ReadFault) }
{
    if levels == 0 {
        return Ok(false);
    }
    let level = 8 - levels;
    let clear = clear_of(alloc, store, known, level, size, root)?;
    let begin = begin_of(alloc, level)?;
    let above = write_levels(
        alloc,
        output,
        held,
        store,
        known,
        size,
        root,
        part,
        levels - 1,
    )?;
    write_level(
        output,
        held,
        store,
        known,
        &clear,
        begin.as_bytes(),
        part,
        level,
        size,
        root,
        above,
    )
}

// Writes the missing paths of a level. Returns whether there was a path before or among these.
fn write_level<H: TreeHash, W: Write>(
    output: &mut W,
    held: &mut Vec<u8>,
    store: &Store<H>,
    known: &HeldTrees,
    clear: &Marks,
    begin: &[u8],
    part: &[u8],
    level: u32,
    size: u64,
    root: &Hash,
    before: bool,
) -> Result<bool, StreamFault>
    requires known { AreKnown H.digest store.now known.now }
    requires clean { NoClash H.digest store.now }
    requires clear { AreClear H.digest store.now level clear.now }
    requires level { level ≤ 7 }
    requires begin { begin.now ≡ begin_text level }
    requires part { part.now ≡ part_text size }
    ensures ok { OnOk result ((numbers : List ℕ)
        → IsLevelOf H.digest store.now size root.now level numbers
        → Sends (W.contents output.old) (W.contents output.new) held.new.items
        (held.old.items ++ missing_text (level_paths size level numbers))) }
    ensures any { IfOk result (λ any. (numbers : List ℕ)
        → IsLevelOf H.digest store.now size root.now level numbers
        → IsTrue any ↔ (IsTrue before ⊎ (level_paths size level numbers ≢ []))) }
    ensures err { OnErr result ((numbers : List ℕ)
        → IsLevelOf H.digest store.now size root.now level numbers
        → AppendsPrefix (W.contents output.old) (W.contents output.new)
        (held.old.items ++ missing_text (level_paths size level numbers))) }
    ensures fault { IfErr result (λ e. e ≡ StreamFault.WriteFault) }
{
    let mut any = before;
    let mut from = 0;
    while let Some(number) = next_missing(store, known, clear, level, from, size, root) {
        write_file(output, held, begin, part, level, size, number)?;
        any = true;
        from = number + 1;
    }
    Ok(any)
}

// Writes the line of the level's file with that number.
fn write_file<W: Write>(
    output: &mut W,
    held: &mut Vec<u8>,
    begin: &[u8],
    part: &[u8],
    level: u32,
    size: u64,
    number: u64,
) -> Result<(), StreamFault>
    requires begin { begin.now ≡ begin_text level }
    requires part { part.now ≡ part_text size }
    requires within { 256 * number < size }
    ensures ok { OnOk result (Sends (W.contents output.old) (W.contents output.new) held.new.items
        (held.old.items ++ path_line (path_at size level number))) }
    ensures err { OnErr result (AppendsPrefix (W.contents output.old) (W.contents output.new)
        (held.old.items ++ path_line (path_at size level number))) }
    ensures fault { IfErr result (λ e. e ≡ StreamFault.WriteFault) }
{
    if is_part(level, size, number) {
        return write_line(output, held, begin, number, part);
    }
    write_line(output, held, begin, number, b"\n")
}

// Whether the file is the partial bundle.
fn is_part(level: u32, size: u64, number: u64) -> bool
    requires { 256 * number < size }
    ensures { IsTrue result ↔ ((level ≡ 0) × (size - 256 * number < 256)) }
{
    level == 0 && size - 256 * number < 256
}

// Writes a line: its beginning, the index in groups of three digits, and its end.
fn write_line<W: Write>(
    output: &mut W,
    held: &mut Vec<u8>,
    begin: &[u8],
    index: u64,
    end: &[u8],
) -> Result<(), StreamFault>
    ensures ok { OnOk result (Sends (W.contents output.old) (W.contents output.new) held.new.items
        (held.old.items ++ (begin.now ++ (index_text index ++ end.now)))) }
    ensures err { OnErr result (AppendsPrefix (W.contents output.old) (W.contents output.new)
        (held.old.items ++ (begin.now ++ (index_text index ++ end.now)))) }
    ensures fault { IfErr result (λ e. e ≡ StreamFault.WriteFault) }
{
    send(output, held, begin)?;
    write_index(output, held, index, end)
}

// Writes the index and the end of the line.
fn write_index<W: Write>(
    output: &mut W,
    held: &mut Vec<u8>,
    index: u64,
    end: &[u8],
) -> Result<(), StreamFault>
    ensures ok { OnOk result (Sends (W.contents output.old) (W.contents output.new) held.new.items
        (held.old.items ++ (index_text index ++ end.now))) }
    ensures err { OnErr result (AppendsPrefix (W.contents output.old) (W.contents output.new)
        (held.old.items ++ (index_text index ++ end.now))) }
    ensures fault { IfErr result (λ e. e ≡ StreamFault.WriteFault) }
{
    write_groups(output, held, index / 1000)?;
    write_last(output, held, index, end)
}

// Writes the groups of a number that others follow; 0 has none.
fn write_groups<W: Write>(
    output: &mut W,
    held: &mut Vec<u8>,
    number: u64,
) -> Result<(), StreamFault>
    ensures ok { OnOk result (Sends (W.contents output.old) (W.contents output.new) held.new.items
        (held.old.items ++ groups_text number)) }
    ensures err { OnErr result (AppendsPrefix (W.contents output.old) (W.contents output.new)
        (held.old.items ++ groups_text number)) }
    ensures fault { IfErr result (λ e. e ≡ StreamFault.WriteFault) }
{
    if number == 0 {
        return Ok(());
    }
    write_groups(output, held, number / 1000)?;
    let group = group_of(number);
    send(output, held, &group)
}

// Writes the last group of an index and the end of the line.
fn write_last<W: Write>(
    output: &mut W,
    held: &mut Vec<u8>,
    index: u64,
    end: &[u8],
) -> Result<(), StreamFault>
    ensures ok { OnOk result (Sends (W.contents output.old) (W.contents output.new) held.new.items
        (held.old.items ++ (three_digits index ++ end.now))) }
    ensures err { OnErr result (AppendsPrefix (W.contents output.old) (W.contents output.new)
        (held.old.items ++ (three_digits index ++ end.now))) }
    ensures fault { IfErr result (λ e. e ≡ StreamFault.WriteFault) }
{
    let last = last_of(index);
    send(output, held, &last)?;
    send(output, held, end)
}

// A group that others follow.
fn group_of(number: u64) -> [u8; 5]
    ensures { result ≡ group_text number }
{
    [
        b'x',
        digit_of(number / 100),
        digit_of(number / 10),
        digit_of(number),
        b'/',
    ]
}

// The last group.
fn last_of(number: u64) -> [u8; 3]
    ensures { result ≡ three_digits number }
{
    [
        digit_of(number / 100),
        digit_of(number / 10),
        digit_of(number),
    ]
}

// The last decimal digit of a number.
fn digit_of(number: u64) -> u8
    ensures { result ≡ 48 + number % 10 }
{
    b'0' + (number % 10) as u8
}
