//! The paths of a log's files and the right edge of its tree (`tlog_tiles`), by the public standards and by worked values.

use std::alloc::{AllocError, Global};
use std::test::Fail;
use tlog_tiles::{Path, PathFault, edge_paths, print};

// The results of reading a text and of printing a path. The tests need no clause of them.
fn parsed(text: &str) -> Result<Path, PathFault> {
    Path::parse(text)
}

fn printed(alloc: Global, path: &Path) -> Result<String, AllocError> {
    print(alloc, path)
}

// Paths and their texts.
const SPELLED: [(Path, &str); 9] = [
    (
        Path::Tile {
            level: 0,
            index: 0,
            width: 256,
        },
        "tile/0/000",
    ),
    (
        Path::Tile {
            level: 0,
            index: 999,
            width: 256,
        },
        "tile/0/999",
    ),
    (
        Path::Tile {
            level: 0,
            index: 1000,
            width: 256,
        },
        "tile/0/x001/000",
    ),
    (
        Path::Tile {
            level: 0,
            index: 1234067,
            width: 256,
        },
        "tile/0/x001/x234/067",
    ),
    (
        Path::Tile {
            level: 0,
            index: 36028797018963967,
            width: 256,
        },
        "tile/0/x036/x028/x797/x018/x963/967",
    ),
    (
        Path::Tile {
            level: 7,
            index: 0,
            width: 255,
        },
        "tile/7/000.p/255",
    ),
    (Path::Checkpoint, "checkpoint"),
    (
        Path::Entries {
            index: 67,
            width: 256,
        },
        "tile/entries/067",
    ),
    (
        Path::Entries {
            index: 1000,
            width: 5,
        },
        "tile/entries/x001/000.p/5",
    ),
];

// Each path prints as its text, and the text is read as the path.
#[test]
fn index_spelling(rt: HostRuntime) -> Result<(), Fail> {
    for &(path, text) in &SPELLED {
        assert!(rt; printed(rt.alloc(), &path)?.as_str() == text);
        assert!(rt; parsed(text) == Ok(path));
    }
    Ok(())
}

// Texts that are not a path, and the fault.
const REFUSALS: [(&str, PathFault); 12] = [
    ("tile/0/x036/x028/x797/x018/x963/968", PathFault::BadIndex),
    (
        "tile/12/x036/x028/x797/x018/x963/968.p/300",
        PathFault::BadLevel,
    ),
    ("tile/0/x000/001", PathFault::BadIndex),
    ("tile/0/001.p/0", PathFault::BadWidth),
    ("tile/0/001.p/256", PathFault::BadWidth),
    ("tile/0/001.p/08", PathFault::BadWidth),
    ("tile/8/000", PathFault::BadLevel),
    ("tile/0", PathFault::Unknown),
    ("tiles/0/000", PathFault::Unknown),
    ("tile//000", PathFault::BadLevel),
    ("tile/0/.p/1", PathFault::BadIndex),
    ("tile/0/000.p/", PathFault::BadWidth),
];

#[test]
fn path_refusals(rt: HostRuntime) {
    for &(text, fault) in &REFUSALS {
        assert!(rt; parsed(text) == Err(fault), "at {text}");
    }
}

const GREATEST_EDGE: &str = "\
tile/0/x036/x028/x797/x018/x963/967.p/255
tile/1/x140/x737/x488/x355/327.p/255
tile/2/x549/x755/x813/887.p/255
tile/3/x002/x147/x483/647.p/255
tile/4/x008/x388/607.p/255
tile/5/x032/767.p/255
tile/6/127.p/255
tile/7/000.p/127
";

// The right edge of a tree of that size, with one path on each line.
fn edge_text(alloc: Global, size: u64) -> Result<String, AllocError> {
    let mut text = String::new(alloc);
    for path in &edge_paths(alloc, size)? {
        text.push_str(&printed(alloc, path)?)?;
        text.push('\n')?;
    }
    Ok(text)
}

// Sizes of trees and their right edges, including the rows edge-70000 and edge-gaps.
const EDGES: [(u64, &str); 6] = [
    (70000, "tile/0/273.p/112\ntile/1/001.p/17\ntile/2/000.p/1\n"),
    (131077, "tile/0/512.p/5\ntile/2/000.p/2\n"),
    (773, "tile/0/003.p/5\ntile/1/000.p/3\n"),
    (256, "tile/1/000.p/1\n"),
    (0, ""),
    (tlog_shape::MAX_SIZE, GREATEST_EDGE),
];

#[test]
fn edge_70000_and_edge_gaps(rt: HostRuntime) -> Result<(), Fail> {
    for &(size, text) in &EDGES {
        assert!(rt; edge_text(rt.alloc(), size)?.as_str() == text);
    }
    Ok(())
}
