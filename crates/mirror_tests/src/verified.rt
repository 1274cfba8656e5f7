//! The number of times that a note is verified.
ghost use Rattle.std.specs.Prelude.{codes, true};

use crate::pulls::list;
use mirror_files::{load_bytes, save};
use mirror_pull::pull;
use signed_note::Verifier;
use std::alloc::Global;
use std::cell::Cell;
use std::process::Abort;
use std::rc::Rc;
use std::test::Fail;
use tlog_hash::{Sha256Tree, TreeHash};
use tlog_mirror::Mirror;

// The key of the logs of `pulls`. It accepts each signature, and counts its calls.
#[derive(Drop)]
struct Counted {
    asked: Rc<Cell<u64>>,
}

impl Verifier for Counted {
    ghost key = { λ k. record { name = codes "ex"; id = 1; accepts = λ text signature. true } };

    fn name(&self) -> &str {
        "ex"
    }

    fn id(&self) -> u32 {
        1
    }

    fn accepts(&self, _text: &[u8], _signature: &[u8]) -> bool {
        self.asked.set(self.asked.get().saturating_add(1));
        true
    }
}

// The tree head of one empty entry, whose right edge has no strings.
const HEAD_OF_1: &str =
    "ex\n1\nbjQLnP+zepicpUTmu3gKLHiQHT+zNzh2hRGjBhevoB0=\n\n\u{2014} ex AAAAAQU=\n";

// A take, a pull and a load each verify the note once.
#[test]
fn a_note_is_verified_once(rt: HostRuntime) -> Result<(), Fail> {
    let asked = Rc::new(rt.alloc(), Cell::new(0))?;
    let mut keys: Vec<Box<dyn Verifier>> = Vec::new(rt.alloc());
    let asked_too = Rc::clone(&asked)?;
    keys.push(Box::new(rt.alloc(), Counted { asked: asked_too })?)?;
    takes::<Sha256Tree>(rt.alloc(), &keys)?;
    assert!(rt; asked.get() == 1, "a take");
    let state = pulls::<Sha256Tree>(rt.alloc(), &keys)?;
    assert!(rt; asked.get() == 2, "a pull");
    loads::<Sha256Tree>(rt.alloc(), &keys, &state)?;
    assert!(rt; asked.get() == 3, "a load");
    Ok(())
}

fn takes<H: TreeHash>(alloc: Global, keys: &[Box<dyn Verifier>]) -> Result<(), Fail> {
    let mut mirror = Mirror::<H>::new(alloc, "ex")?;
    let row = H::leaf(b"");
    let taken = mirror.take_head(alloc, keys, HEAD_OF_1.as_bytes(), &[row.as_slice()]);
    drop(mirror);
    taken?;
    Ok(())
}

// Pulls a log of three entries, and returns its state.
fn pulls<H: TreeHash>(alloc: Global, keys: &[Box<dyn Verifier>]) -> Result<Vec<u8>, Fail> {
    let mut mirror = Mirror::<H>::new(alloc, "ex")?;
    let state = pulled(alloc, &mut mirror, keys);
    drop(mirror);
    state
}

// Pulls that log into the mirror, and returns the mirror's state.
fn pulled<H: TreeHash>(
    alloc: Global,
    mirror: &mut Mirror<H>,
    keys: &[Box<dyn Verifier>],
) -> Result<Vec<u8>, Fail> {
    let mut source = list::<H>(alloc, 0, 3)?;
    let end = pull(alloc, mirror, keys, &mut source);
    drop(source);
    end?;
    let mut state = Vec::new(alloc);
    save(alloc, mirror, &mut state)?;
    Ok(state)
}

fn loads<H: TreeHash>(alloc: Global, keys: &[Box<dyn Verifier>], state: &[u8]) -> Result<(), Fail> {
    let mirror = Mirror::<H>::new(alloc, "ex")?;
    drop(mirror);
    let loaded: Mirror<H> = load_bytes(alloc, "ex", keys, state)?;
    drop(loaded);
    Ok(())
}
