//! A small program with the library: it mirrors folders of one log in memory, in order, and prints the result of each pull.
//! Then it prints the tree heads, the served checkpoint and the forks.
//!
//! ```text
//! look example.com/log examples/log.keys examples/log      # an origin, a key file, and folders
//! ```
//!
//! The exit status is 0 for success, and 1 for a fault, which is on standard error after the name of its file or folder. It
//! is 2 for too few arguments, and 3 if nothing is served or there is a fork.
#![tactic(auto)]

use byte_streams::write_whole;
use mirror_folders::DirSource;
use mirror_pull::pull;
use program_reports::{Question, print_report, pulled_text};
use signed_note::{KeyLine, Verifier, join_pins, read_keys};
use std::alloc::Global;
use std::io::Write;
use std::process::ExitCode;
use std::rt::Files;
use std::{env, fs};
use tlog_hash::{Sha256Tree, TreeHash};
use tlog_mirror::Mirror;

fn main(rt: HostRuntime) -> anyhow::Result<ExitCode> {
    let words: Vec<String> = env::args(&rt)?.skip(1).collect(rt.alloc())?;
    if words.len() < 3 {
        eprintln!(&rt; "usage: look ORIGIN KEYS FOLDER..")?;
        return Ok(ExitCode::from(2));
    }
    let bytes = printed(&rt, &words[1], fs::read(&rt, words[1].as_str()))?;
    let lines = printed(&rt, &words[1], read_keys(rt.alloc(), &bytes))?;
    let mut output = rt.stdout();
    let status = look::<Sha256Tree, HostRuntime, _>(
        &rt,
        &words[0],
        lines,
        &words[2..],
        &mut output,
    )?;
    Ok(ExitCode::from(status))
}

// The answer; for a fault, the name of the file or folder is first written to standard error.
fn printed<T, E>(rt: &impl Eprint, name: &str, answer: Result<T, E>) -> Result<T, E> {
    if answer.is_err() {
        let _ = eprintln!(rt; "look: {name}");
    }
    answer
}

// Mirrors the folders under the keys of a key file. Pins with the same name and id are one key.
fn look<H: TreeHash, R: AllocGlobal + Files + Eprint, W: Write>(
    rt: &R,
    origin: &str,
    lines: Vec<KeyLine>,
    folders: &[String],
    output: &mut W,
) -> anyhow::Result<u8> {
    let alloc = rt.alloc();
    let mut keys: Vec<Box<dyn Verifier>> = Vec::new(alloc);
    for line in join_pins(alloc, lines)? {
        match line {
            KeyLine::Hmac(key) => keys.push(Box::new(alloc, key)?)?,
            KeyLine::Pin(texts) => keys.push(Box::new(alloc, texts)?)?,
        }
    }
    look_under::<H, R, W>(rt, origin, &keys, folders, output)
}

// Pulls from each folder into a new mirror, and prints the results.
fn look_under<H: TreeHash, R: AllocGlobal + Files + Eprint, W: Write>(
    rt: &R,
    origin: &str,
    keys: &[Box<dyn Verifier>],
    folders: &[String],
    output: &mut W,
) -> anyhow::Result<u8> {
    let mut mirror = Mirror::<H>::new(rt.alloc(), origin)?;
    for folder in folders {
        let pulled = pull_folder(rt, &mut mirror, keys, folder, output);
        printed(rt, folder, pulled)?;
    }
    report(rt.alloc(), &mut mirror, output)
}

// Pulls the missing files from a folder, and prints the result.
fn pull_folder<H: TreeHash, R: AllocGlobal + Files, W: Write>(
    rt: &R,
    mirror: &mut Mirror<H>,
    keys: &[Box<dyn Verifier>],
    folder: &str,
    output: &mut W,
) -> anyhow::Result<()> {
    let alloc = rt.alloc();
    let pulled = pull(alloc, mirror, keys, &mut DirSource::new(rt, alloc, folder))?;
    write_whole(output, pulled_text(alloc, &pulled)?.as_bytes())?;
    Ok(())
}

// Prints the tree heads, the served checkpoint and the forks. The status is 3 if nothing is served or there is a fork.
fn report<H: TreeHash, W: Write>(
    alloc: Global,
    mirror: &mut Mirror<H>,
    output: &mut W,
) -> anyhow::Result<u8> {
    let served = print_report(alloc, mirror, &Question::Status, output)?;
    let forks = print_report(alloc, mirror, &Question::Forks, output)?;
    Ok(served.max(forks))
}
