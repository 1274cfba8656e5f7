//! The number of files that are put.
ghost use Rattle.std.specs.Prelude.{◌≡◌, ◌+◌, ◌^◌, ◌≤◌, length};
ghost use Rattle.mirror_folders.specs.Since.{since_paths};
ghost use Rattle.mirror_folders.specs.Total.{new_at, new_partial};

use crate::new_files::place_width;
use tlog_shape::{edge_index, edge_width};

/// The number of files that an update puts, including the checkpoint: the log has `size` entries, and the folder has
/// the files of the first `since` entries. With `since` 0 it is the number of files that an export puts.
///
/// ```text
/// files_to_put(1_000_000, 0)          // 7,832
/// files_to_put(1_000_100, 1_000_000)  // 3: tile/0/x003/906.p/164, the bundle below it, and the checkpoint
/// ```
pub fn files_to_put(size: u64, since: u64) -> u64
    ensures { result ≡ length (since_paths since size) }
{
    let mut tiles = 0;
    for level in 0..8u32 {
        tiles += new_files(size, since, level);
    }
    tiles + new_files(size, since, 0) + 1
}

// The number of files of a level that are put.
#[tactic(auto, using(crate::proofs::Totals::new_fits))]
fn new_files(size: u64, since: u64, level: u32) -> u64
    requires { level ≤ 7 }
    ensures files { result ≡ new_at since size level }
    ensures few { result ≤ 2 ^ 57 }
{
    let full = edge_index(size, level).saturating_sub(edge_index(since, level));
    full + new_edge(size, since, level)
}

// The number of partial files of a level that are put, 0 or 1.
fn new_edge(size: u64, since: u64, level: u32) -> u64
    requires { level ≤ 7 }
    ensures { result ≡ new_partial since size level }
{
    let width = edge_width(size, level);
    if width == 0 {
        return 0;
    }
    if width == place_width(since, level, edge_index(size, level)) {
        return 0;
    }
    1
}
