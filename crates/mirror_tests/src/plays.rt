//! Plays of two mirrors.
use crate::given::keys;
use signed_note::Verifier;
use std::alloc::{AllocError, Global};
use std::process::Abort;
use std::test::Fail;
use tlog_hash::{Hash, Sha256Tree, TreeHash};
use tlog_mirror::{Bytes, Event, Item, Mirror, Rows, TakeFault, fits, play, play_again};

// The note of a log of one entry, which is its number.
const HEAD_OF_1: &str =
    "ex\n1\ncJ6AyISHokEeHuTfufIqhhSS0gxHZRUMDHlKvXD4FHw=\n\n\u{2014} good AQIDBAU=\n";

// The root of this log.
fn root_of_1<H: TreeHash>() -> Hash {
    H::leaf(&[0, 0])
}

// The tree head of this log, with its right edge.
fn head_of_1<H: TreeHash>(alloc: Global) -> Result<Item, AllocError> {
    let mut rows = Vec::new(alloc);
    rows.push(Vec::from_slice(alloc, root_of_1::<H>().as_slice())?)?;
    Ok(Item::Head {
        note: Bytes::new(Vec::from_slice(alloc, HEAD_OF_1.as_bytes())?),
        edge: Rows::new(rows),
    })
}

// The bundle of this log.
fn bundle_of_1(alloc: Global) -> Result<Item, AllocError> {
    Ok(Item::Bundle {
        width: 1,
        bytes: Bytes::new(Vec::from_slice(alloc, &[0, 2, 0, 0])?),
    })
}

// Adds an event: the mirror takes the item.
fn push_take(
    events: &mut Vec<Event>,
    target: usize,
    item: Result<Item, AllocError>,
) -> Result<(), AllocError> {
    let item = item?;
    events.push(Event::Take { target, item })?;
    Ok(())
}

// Mirror 0 takes the tree head, mirror 1 takes the bundle, and mirror 1 is merged into mirror 0.
pub(crate) fn three_events<H: TreeHash>(alloc: Global) -> Result<Vec<Event>, AllocError> {
    let mut events = Vec::new(alloc);
    push_take(&mut events, 0, head_of_1::<H>(alloc))?;
    push_take(&mut events, 1, bundle_of_1(alloc))?;
    events.push(Event::Merge {
        target: 0,
        source: 1,
    })?;
    Ok(events)
}

// Two empty mirrors.
pub(crate) fn two_mirrors<H: TreeHash>(alloc: Global) -> Result<Vec<Mirror<H>>, Fail> {
    let mut world = Vec::new(alloc);
    for _ in 0..2u32 {
        world.push(Mirror::<H>::new(alloc, "ex")?)?;
    }
    Ok(world)
}

// Whether mirror 0 is complete and mirror 1 holds no tree head.
pub(crate) fn are_merged<H: TreeHash>(world: &[Mirror<H>]) -> bool {
    match (world.first(), world.get(1)) {
        (Some(first), Some(second)) => {
            first.is_complete(1, &root_of_1::<H>()) && second.note_at(0).is_none()
        }
        _ => false,
    }
}

// Whether there are `count` answers, all Ok.
pub(crate) fn are_done(answers: &[Result<(), TakeFault>], count: usize) -> bool {
    for answer in answers {
        if answer.is_err() {
            return false;
        }
    }
    answers.len() == count
}

// The three events happen to two mirrors. Each event is tried up to that number of times, or once by `play`.
fn plays_three<H: TreeHash>(rt: &impl Abort, alloc: Global, tries: u32) -> Result<(), Fail> {
    let events = three_events::<H>(alloc)?;
    let world = played::<H>(rt, alloc, &events, 3, tries)?;
    assert!(rt; are_merged(&world));
    Ok(())
}

// Two mirrors after the given number of events under the key of these tests, all answered by Ok.
fn played<H: TreeHash>(
    rt: &impl Abort,
    alloc: Global,
    events: &[Event],
    count: usize,
    tries: u32,
) -> Result<Vec<Mirror<H>>, Fail> {
    let keys = keys(alloc)?;
    let mut world = two_mirrors::<H>(alloc)?;
    let answers = answers_under(alloc, &mut world, &keys, events, tries)?;
    assert!(rt; are_done(&answers, count));
    Ok(world)
}

// The answers to the events under those keys. Events that do not fit have no answers.
pub(crate) fn answers_under<H: TreeHash>(
    alloc: Global,
    world: &mut [Mirror<H>],
    keys: &[Box<dyn Verifier>],
    events: &[Event],
    tries: u32,
) -> Result<Vec<Result<(), TakeFault>>, AllocError> {
    if !fits(events, world.len()) {
        return Ok(Vec::new(alloc));
    }
    if tries == 0 {
        return play(alloc, world, keys, events);
    }
    play_again(alloc, world, keys, events, tries)
}

#[test]
fn play_two(rt: HostRuntime) -> Result<(), Fail> {
    plays_three::<Sha256Tree>(&rt, rt.alloc(), 0)
}

// If a single request for memory is refused during the events, the result is the same.
#[test]
fn play_again_once(rt: HostRuntime) -> Result<(), Fail> {
    plays_three::<Sha256Tree>(&rt, rt.alloc(), 2)
}

#[test]
fn fits_refuses(rt: HostRuntime) -> Result<(), AllocError> {
    let mut events = Vec::new(rt.alloc());
    events.push(Event::Merge {
        target: 2,
        source: 0,
    })?;
    assert!(rt; !fits(&events, 2));
    assert!(rt; fits(&events, 3));
    Ok(())
}
