//! Commands with given keys, which no run of the program shows.
use crate::given::keys;
use program_library::{key_file, run_words};
use signed_note::Verifier;
use std::alloc::{AllocError, Global};
use std::process::Abort;
use std::test::Fail;

// The key file with the key of the tests.
const KEY_FILE: &[u8] = b"hmac ex 00000001 00\n";

// The entries (no bytes), 00 and 10, as `build` reads them.
const E3: &[u8] = &[0, 0, 0, 1, 0, 0, 1, 0x10];

// What is printed of the log of these entries.
const PULLED: &[u8] =
    b"pulled 3 rra8/idLcKFPsGel5VeCZNsPqbUa9eC6FZFY8yngbnc= rounds 1 refused 0\ncomplete\n";

const STATUS: &[u8] = b"origin ex
head 3 rra8/idLcKFPsGel5VeCZNsPqbUa9eC6FZFY8yngbnc= complete
served 3 rra8/idLcKFPsGel5VeCZNsPqbUa9eC6FZFY8yngbnc=
";

const PROOF: &[u8] = b"inclusion
size 3
index 2
root rra8/idLcKFPsGel5VeCZNsPqbUa9eC6FZFY8yngbnc=
leaf ApjRIpBtz8EIkstTpzmS/FufST6kybrbJ7eRtBJ6f+c=
path +sVCA+fMaWzw38tCySodnbr3CtnmIfS9jZhmLwDjwSU=
";

fn words_of(alloc: Global, line: &str) -> Result<Vec<String>, AllocError> {
    let mut words = Vec::new(alloc);
    for word in line.split(' ') {
        words.push(String::from_str(alloc, word)?)?;
    }
    Ok(words)
}

// The status of words with these keys in hand, or None after a fault; the output gets the text. It ensures nothing, so that the
// rest of the test is fast to prove.
fn status_of(
    rt: &HostRuntime,
    key_bytes: &[u8],
    keys: &[Box<dyn Verifier>],
    words: &[String],
    mut input: &[u8],
    output: &mut Vec<u8>,
) -> Option<u8> {
    let alloc = rt.alloc();
    let mut errors = Vec::new(alloc);
    run_words(
        rt,
        alloc,
        words,
        key_bytes,
        keys,
        &mut input,
        output,
        &mut errors,
    )
    .ok()
}

// The name of the key file in the words. None: they name none, or were refused.
fn named_in(alloc: Global, words: &[String]) -> Option<String> {
    match key_file(alloc, words) {
        Ok(name) => name,
        Err(_) => None,
    }
}

// No keys are given, because the commands have none.
#[test]
fn commands_with_keys_in_hand(rt: HostRuntime) -> Result<(), Fail> {
    let text = b"size 1\nroot bjQLnP+zepicpUTmu3gKLHiQHT+zNzh2hRGjBhevoB0=\n";
    assert_ends(&rt, &rt, &[], "root --width 1", &[0, 0], text)?;
    Ok(())
}

// A log is built, pulled into a state, asked for its status and a proof, and the proof is checked.
#[test]
fn program_e3(rt: HostRuntime) -> Result<(), Fail> {
    let keys = keys(rt.alloc())?;
    let state = "status --origin ex --keys keys --state state";
    let proof = "prove --origin ex --keys keys --state state inclusion 3 2";
    assert_names_keys(&rt, rt.alloc(), state)?;
    assert_ends(
        &rt,
        &rt,
        &keys,
        "build --origin ex --keys keys --dir log",
        E3,
        b"",
    )?;
    assert_ends(
        &rt,
        &rt,
        &keys,
        "pull --origin ex --keys keys --out state dir log",
        b"",
        PULLED,
    )?;
    assert_ends(&rt, &rt, &keys, state, b"", STATUS)?;
    assert_ends(&rt, &rt, &keys, proof, b"", PROOF)?;
    assert_ends(&rt, &rt, &[], "check", PROOF, b"yes\n")?;
    drop(keys);
    Ok(())
}

// The words name the key file `keys`.
fn assert_names_keys(rt: &impl Abort, alloc: Global, line: &str) -> Result<(), AllocError> {
    let words = words_of(alloc, line)?;
    match named_in(alloc, &words) {
        Some(name) => assert!(rt; name.as_str() == "keys", "{line}"),
        None => assert!(rt; false, "{line}"),
    }
    Ok(())
}

// With these keys in hand and this input, the line has status 0 and writes these bytes.
fn assert_ends(
    rt: &impl Abort,
    host: &HostRuntime,
    keys: &[Box<dyn Verifier>],
    line: &str,
    input: &[u8],
    written: &[u8],
) -> Result<(), AllocError> {
    let words = words_of(host.alloc(), line)?;
    let mut output = Vec::new(host.alloc());
    let found = status_of(host, KEY_FILE, keys, &words, input, &mut output);
    assert!(rt; found == Some(0), "{line}");
    assert!(rt; output.as_slice() == written, "{line}");
    Ok(())
}
