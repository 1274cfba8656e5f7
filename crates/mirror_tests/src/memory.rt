//! Tests with refused requests for memory. Each test runs once for each of its requests, with that one refused, as by
//! `rt try --test --fail-alloc N`. After a refused take, merge or play, only a part of it may be held, and a second call
//! completes it.
use crate::given::{BUNDLE_OF_3, HEAD_OF_3, answer_to_head, kept, keys, tile_of_3};
use crate::plays::{answers_under, are_done, are_merged, three_events, two_mirrors};
use signed_note::Verifier;
use std::alloc::{AllocError, Global};
use std::process::Abort;
use std::test::Fail;
use tlog_hash::{Sha256Tree, TreeHash};
use tlog_mirror::{Event, MergeFault, Mirror, NewFault, TakeFault};
use tlog_text::read_hash;

#[test]
fn takes_again_after_want_of_memory(rt: HostRuntime) -> Result<(), Fail> {
    let row = tile_of_3::<Sha256Tree>(rt.alloc())?;
    takes_at_last::<Sha256Tree>(&rt, rt.alloc(), &row)?;
    let mirror = head_at_last::<Sha256Tree>(&rt, rt.alloc(), &row)?;
    drop(mirror);
    Ok(())
}

// A new mirror takes the tile and the bundle of the three entries, whose leaf hashes are that row.
fn takes_at_last<H: TreeHash>(rt: &impl Abort, alloc: Global, row: &[u8]) -> Result<(), NewFault> {
    let mut mirror = Mirror::<H>::new(alloc, "ex")?;
    take_tile_at_last(rt, alloc, &mut mirror, row);
    take_bundle_at_last(rt, alloc, &mut mirror);
    drop(mirror);
    Ok(())
}

// A new mirror that took the tree head of these entries.
fn head_at_last<H: TreeHash>(
    rt: &impl Abort,
    alloc: Global,
    row: &[u8],
) -> Result<Mirror<H>, Fail> {
    let mut mirror = Mirror::<H>::new(alloc, "ex")?;
    let answer = take_head_at_last(rt, alloc, &mut mirror, row);
    kept(mirror, answer)
}

// Takes the tile of the three entries, whose row has two joins.
fn take_tile_at_last<H: TreeHash>(
    rt: &impl Abort,
    alloc: Global,
    mirror: &mut Mirror<H>,
    row: &[u8],
) {
    let mut answer = mirror.take_tile(alloc, 3, row);
    if answer == Err(TakeFault::OutOfMemory) {
        assert!(rt; mirror.strings().len() < 2);
        answer = mirror.take_tile(alloc, 3, row);
    }
    assert!(rt; answer == Ok(()));
    assert!(rt; mirror.strings().len() == 2);
}

// Takes their bundle after that, which has three more strings.
fn take_bundle_at_last<H: TreeHash>(rt: &impl Abort, alloc: Global, mirror: &mut Mirror<H>) {
    let mut answer = mirror.take_bundle(alloc, 3, BUNDLE_OF_3);
    if answer == Err(TakeFault::OutOfMemory) {
        assert!(rt; mirror.strings().len() < 5);
        answer = mirror.take_bundle(alloc, 3, BUNDLE_OF_3);
    }
    assert!(rt; answer == Ok(()));
    assert!(rt; mirror.strings().len() == 5);
}

// Takes their tree head into an empty mirror: two joins, and the note last.
fn take_head_at_last<H: TreeHash>(
    rt: &impl Abort,
    alloc: Global,
    mirror: &mut Mirror<H>,
    row: &[u8],
) -> Result<(), Fail> {
    let note = HEAD_OF_3.as_bytes();
    let mut answer = answer_to_head(alloc, mirror, note, &[row])?;
    if answer == Err(TakeFault::OutOfMemory) {
        assert!(rt; mirror.note_at(0).is_none());
        answer = answer_to_head(alloc, mirror, note, &[row])?;
    }
    assert!(rt; answer == Ok(()));
    assert!(rt; mirror.note_at(0) == Some(note));
    assert!(rt; mirror.strings().len() == 2);
    Ok(())
}

#[test]
fn merges_again_after_want_of_memory(rt: HostRuntime) -> Result<(), Fail> {
    let row = tile_of_3::<Sha256Tree>(rt.alloc())?;
    let mut other = head_at_last::<Sha256Tree>(&rt, rt.alloc(), &row)?;
    take_bundle_at_last(&rt, rt.alloc(), &mut other);
    let answer = merges_at_last(&rt, rt.alloc(), &other);
    drop(other);
    answer
}

// A new mirror is merged with the other one, which is complete for the three entries.
fn merges_at_last<H: TreeHash>(
    rt: &impl Abort,
    alloc: Global,
    other: &Mirror<H>,
) -> Result<(), Fail> {
    let mut mirror = Mirror::<H>::new(alloc, "ex")?;
    let answer = become_whole(rt, alloc, &mut mirror, other);
    drop(mirror);
    answer
}

// An empty mirror is merged with one that has five strings and a note, which comes last. Both are complete afterwards.
fn become_whole<H: TreeHash>(
    rt: &impl Abort,
    alloc: Global,
    mirror: &mut Mirror<H>,
    other: &Mirror<H>,
) -> Result<(), Fail> {
    let mut answer = mirror.merge(alloc, other);
    if answer == Err(MergeFault::OutOfMemory) {
        assert!(rt; mirror.note_at(0).is_none());
        answer = mirror.merge(alloc, other);
    }
    assert!(rt; answer == Ok(()));
    assert!(rt; mirror.strings().len() == 5);
    is_whole(rt, mirror)?;
    is_whole(rt, other)
}

// The mirror is complete for the three entries.
fn is_whole<H: TreeHash>(rt: &impl Abort, mirror: &Mirror<H>) -> Result<(), Fail> {
    let root = read_hash("rra8/idLcKFPsGel5VeCZNsPqbUa9eC6FZFY8yngbnc=").ok_or("no hash")?;
    assert!(rt; mirror.is_complete(3, &root));
    Ok(())
}

#[test]
fn plays_again_after_want_of_memory(rt: HostRuntime) -> Result<(), Fail> {
    plays_at_last::<Sha256Tree>(&rt, rt.alloc())
}

// The three events happen to two mirrors. Mirror 0 is then complete, and mirror 1 holds no tree head.
fn plays_at_last<H: TreeHash>(rt: &impl Abort, alloc: Global) -> Result<(), Fail> {
    let keys = keys(alloc)?;
    let events = three_events::<H>(alloc)?;
    let mut world = two_mirrors::<H>(alloc)?;
    play_at_last(rt, alloc, &mut world, &keys, &events)?;
    assert!(rt; are_merged(&world));
    Ok(())
}

// Plays the three events. A play that is refused as a whole changes nothing; a refused event has that answer.
fn play_at_last<H: TreeHash>(
    rt: &impl Abort,
    alloc: Global,
    world: &mut [Mirror<H>],
    keys: &[Box<dyn Verifier>],
    events: &[Event],
) -> Result<(), Fail> {
    let done = match answers_under(alloc, world, keys, events, 0) {
        Ok(answers) => are_judged(rt, &answers),
        Err(AllocError) => {
            hold_nothing(rt, world);
            false
        }
    };
    if !done {
        let answers = answers_under(alloc, world, keys, events, 0)?;
        assert!(rt; are_done(&answers, 3));
    }
    Ok(())
}

// Whether all events were done. Otherwise one of them ran out of memory.
fn are_judged(rt: &impl Abort, answers: &[Result<(), TakeFault>]) -> bool {
    let done = are_done(answers, 3);
    assert!(rt; done || are_done_but_one(answers));
    done
}

// The mirrors hold no string and no note.
fn hold_nothing<H: TreeHash>(rt: &impl Abort, world: &[Mirror<H>]) {
    for mirror in world {
        assert!(rt; mirror.strings().len() == 0 && mirror.note_at(0).is_none());
    }
}

// Whether there are three answers, one of them `OutOfMemory` and the others Ok.
fn are_done_but_one(answers: &[Result<(), TakeFault>]) -> bool {
    let mut refused = 0usize;
    for answer in answers {
        match answer {
            Ok(()) => (),
            Err(TakeFault::OutOfMemory) => refused = refused.saturating_add(1),
            Err(_) => return false,
        }
    }
    refused == 1 && answers.len() == 3
}
