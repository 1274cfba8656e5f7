//! The numbers of trees and tiles (`tlog_shape`), worked out by hand.

use tlog_shape::{MAX_SIZE, edge_index, edge_width, split, top_level};

const SPLITS: [(u64, u64); 5] = [
    (2, 1),
    (3, 2),
    (256, 128),
    (257, 256),
    (MAX_SIZE, 4611686018427387904),
];

#[test]
fn split_values(rt: HostRuntime) {
    for &(n, k) in &SPLITS {
        assert!(rt; n >= 2);
        assert!(rt; split(n) == k, "at {n}");
    }
}

// The starts and sizes of nodes, and the tiles that have them.
const TILES: [(u64, u64, (u32, u64)); 8] = [
    (0, 2, (0, 0)),
    (256, 256, (0, 1)),
    (0, 512, (1, 0)),
    (65536, 65536, (1, 1)),
    (0, 1 << 63, (7, 0)),
    (0, 300, (1, 0)),
    (65536, 3, (0, 256)),
    (131072, 65537, (2, 0)),
];

#[test]
fn tile_of_node(rt: HostRuntime) {
    for &(start, size, tile) in &TILES {
        assert!(rt; size >= 2);
        assert!(rt;
            tlog_shape::tile_of_node(start, size) == tile,
            "at {start}, {size}"
        );
    }
}

const WIDTHS: [(u64, Option<u32>); 3] = [(272, Some(256)), (273, Some(112)), (274, None)];

#[test]
fn width_in(rt: HostRuntime) {
    for &(index, width) in &WIDTHS {
        assert!(rt;
            tlog_shape::width_in(70000, 0, index) == width,
            "at {index}"
        );
    }
}

#[test]
fn max_size_shape(rt: HostRuntime) {
    assert!(rt; top_level(MAX_SIZE) == 7);
    assert!(rt; edge_width(MAX_SIZE, 7) == 127);
    for level in 0..7 {
        assert!(rt; edge_width(MAX_SIZE, level) == 255, "at {level}");
    }
    assert!(rt; edge_index(MAX_SIZE, 7) == 0);
    assert!(rt; edge_index(MAX_SIZE, 6) == 127);
}
