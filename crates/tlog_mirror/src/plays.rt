//! Events on mirrors, in order.
ghost use Rattle.std.specs.Prelude.{◌≡◌, ◌≤◌, ◌<◌, ◌↔◌, List, IsTrue, IfOk, OnErr, MatchResult, length, map};
ghost use Rattle.mirror_model.specs.Answered.{answer_of, merge_answer_of, take_fault_of};
ghost use Rattle.mirror_model.specs.Events.{Fits, IsFitting};
ghost use Rattle.mirror_model.specs.Item.{IsWidth};
ghost use Rattle.mirror_model.specs.Steps.{Happens, Merges, MergesAt, Run, TakesAt};
ghost use Rattle.mirror_model.specs.declared.events.Event.TheVariants.{Take};
ghost use Rattle.signed_note.specs.Keys.{Key};
ghost use Rattle.tlog_mirror.specs.Plays.{HappensWithin, HasWidth, IsMergeAnswer, JudgesEvent, JudgesEvents, RunsWithin, all_remembered, origins_of, views_of};

use crate::items::take_item;
use crate::mirror::Mirror;
use mirror_model::{Event, Item, MergeFault, TakeFault};
use signed_note::Verifier;
use std::alloc::{AllocError, Global};
use tlog_hash::TreeHash;

/// Whether the events are on mirrors below that count, and their items have widths from 1 to 256. It takes no memory.
pub fn fits(events: &[Event], count: usize) -> bool
    ensures { IsTrue result ↔ Fits events.now count }
{
    events.iter().all(|event| is_fitting(event, count))
}

// Whether one event fits.
fn is_fitting(event: &Event, count: usize) -> bool
    ensures { IsTrue result ↔ IsFitting count event.now }
{
    match event {
        Event::Take { target, item } => *target < count && has_width(item),
        Event::Merge { target, source } => *target < count && *source < count,
    }
}

fn has_width(item: &Item) -> bool
    ensures { IsTrue result ↔ HasWidth item.now }
{
    match item {
        Item::Head { note: _, edge: _ } => true,
        Item::Tile { width, bytes: _ } => is_width(*width),
        Item::Bundle { width, bytes: _ } => is_width(*width),
    }
}

fn is_width(width: u32) -> bool
    ensures { IsTrue result ↔ IsWidth width }
{
    1 <= width && width <= 256
}

/// Applies events to mirrors in order, and gives one answer for each: that of the take or of the merge, whose faults
/// keep their names. A merge of a mirror with itself gives `Ok` and changes nothing. The keys are those that open the
/// notes of tree heads.
///
/// ```
/// let events = [
///     Event::Take { target: 1, item: Item::Bundle { width: 1, bytes: Bytes::new(bundle) } },
///     Event::Merge { target: 0, source: 1 },
/// ];
/// if fits(&events, world.len()) {
///     let answers = play(alloc, &mut world, &keys, &events)?;
/// }
/// ```
///
/// # Errors
///
/// Memory for the list of answers was refused. The list is made first, so no mirror has changed. If an event runs out
/// of memory, its answer is `TakeFault::OutOfMemory`.
pub fn play<H: TreeHash>(
    alloc: Global,
    world: &mut [Mirror<H>],
    keys: &[Box<dyn Verifier>],
    events: &[Event],
) -> Result<Vec<Result<(), TakeFault>>, AllocError>
    requires fits { Fits events.now (length world.old) }
    ensures run { IfOk result (λ answers. Run H.digest (map (λ k. key k) keys.now)
        (views_of world.old) events.now (map answer_of answers.items) (views_of world.new)) }
    ensures judged { IfOk result (λ answers. JudgesEvents H.digest (map (λ k. key k) keys.now)
        (origins_of world.old) events.now answers.items) }
    ensures err { OnErr result (world.new ≡ world.old) }
    ensures remembered { all_remembered world.new ≡ all_remembered world.old }
{
    play_again(alloc, world, keys, events, 1)
}

/// Like `play`, but applies an event that runs out of memory again, at most `tries` times in all, before the next one.
/// Its last answer counts. Such an event has the same result as one that happens once.
///
/// # Errors
///
/// Memory for the list of answers was refused. The list is made first, so no mirror has changed.
pub fn play_again<H: TreeHash>(
    alloc: Global,
    world: &mut [Mirror<H>],
    keys: &[Box<dyn Verifier>],
    events: &[Event],
    tries: u32,
) -> Result<Vec<Result<(), TakeFault>>, AllocError>
    requires fits { Fits events.now (length world.old) }
    requires some { 1 ≤ tries }
    ensures run { IfOk result (λ answers. Run H.digest (map (λ k. key k) keys.now)
        (views_of world.old) events.now (map answer_of answers.items) (views_of world.new)) }
    ensures tried { IfOk result (λ answers. RunsWithin H.digest (map (λ k. key k) keys.now) tries
        (views_of world.old) events.now (map answer_of answers.items) (views_of world.new)) }
    ensures judged { IfOk result (λ answers. JudgesEvents H.digest (map (λ k. key k) keys.now)
        (origins_of world.old) events.now answers.items) }
    ensures err { OnErr result (world.new ≡ world.old) }
    ensures remembered { all_remembered world.new ≡ all_remembered world.old }
{
    let mut answers = Vec::with_capacity(alloc, events.len())?;
    for event in events {
        let answer = apply_again(alloc, world, keys, event, tries);
        let Ok(()) = answers.push(answer) else {
            unreachable!()
        };
    }
    Ok(answers)
}

// Applies an event until its answer is not `OutOfMemory`, at most `tries` times.
fn apply_again<H: TreeHash>(
    alloc: Global,
    world: &mut [Mirror<H>],
    keys: &[Box<dyn Verifier>],
    event: &Event,
    tries: u32,
) -> Result<(), TakeFault>
    requires fits { IsFitting (length world.old) event.now }
    requires some { 1 ≤ tries }
    ensures happens { HappensWithin H.digest (map (λ k. key k) keys.now) tries (views_of world.old)
        event.now (answer_of result) (views_of world.new) }
    ensures judged { JudgesEvent H.digest (map (λ k. key k) keys.now) (origins_of world.old)
        event.now result }
    ensures origins { origins_of world.new ≡ origins_of world.old }
    ensures remembered { all_remembered world.new ≡ all_remembered world.old }
{
    for before in 0..tries - 1 {
        match apply(alloc, world, keys, event) {
            Err(TakeFault::OutOfMemory) => {}
            answer => return answer,
        }
    }
    apply(alloc, world, keys, event)
}

// Applies an event to the mirrors.
fn apply<H: TreeHash>(
    alloc: Global,
    world: &mut [Mirror<H>],
    keys: &[Box<dyn Verifier>],
    event: &Event,
) -> Result<(), TakeFault>
    requires { IsFitting (length world.old) event.now }
    ensures happens { Happens H.digest (map (λ k. key k) keys.now) (views_of world.old) event.now
        (answer_of result) (views_of world.new) }
    ensures judged { JudgesEvent H.digest (map (λ k. key k) keys.now) (origins_of world.old)
        event.now result }
    ensures origins { origins_of world.new ≡ origins_of world.old }
    ensures remembered { all_remembered world.new ≡ all_remembered world.old }
{
    match event {
        Event::Take { target, item } => take_at(alloc, world, keys, *target, item),
        Event::Merge { target, source } => merge_at(alloc, world, *target, *source),
    }
}

fn take_at<H: TreeHash>(
    alloc: Global,
    world: &mut [Mirror<H>],
    keys: &[Box<dyn Verifier>],
    target: usize,
    item: &Item,
) -> Result<(), TakeFault>
    requires target { target < length world.old }
    requires width { HasWidth item.now }
    ensures takes { TakesAt H.digest (map (λ k. key k) keys.now) (views_of world.old) target
        item.now (answer_of result) (views_of world.new) }
    ensures judged { JudgesEvent H.digest (map (λ k. key k) keys.now) (origins_of world.old)
        (Take target item.now) result }
    ensures origins { origins_of world.new ≡ origins_of world.old }
    ensures remembered { all_remembered world.new ≡ all_remembered world.old }
{
    take_item(&mut world[target], alloc, keys, item)
}

// One mirror is merged with another, or with itself.
fn merge_at<H: TreeHash>(
    alloc: Global,
    world: &mut [Mirror<H>],
    target: usize,
    source: usize,
) -> Result<(), TakeFault>
    requires target { target < length world.old }
    requires source { source < length world.old }
    ensures merges { (keys : List Key) → MergesAt H.digest keys (views_of world.old) target source
        (answer_of result) (views_of world.new) }
    ensures judged { IsMergeAnswer result }
    ensures itself { target ≡ source → result ≡ Ok tt }
    ensures origins { origins_of world.new ≡ origins_of world.old }
    ensures remembered { all_remembered world.new ≡ all_remembered world.old }
{
    if target == source {
        return merge_itself(&world[target]);
    }
    if target < source {
        let (front, back) = world.split_at_mut(source);
        return answer_of_merge(front[target].merge(alloc, &back[0]));
    }
    let (front, back) = world.split_at_mut(target);
    answer_of_merge(back[0].merge(alloc, &front[source]))
}

// The answer of a merge as that of a take: its faults keep their names.
fn answer_of_merge(answer: Result<(), MergeFault>) -> Result<(), TakeFault>
    ensures same { answer_of result ≡ merge_answer_of answer }
    ensures names { MatchResult answer (λ done. result ≡ Ok done) (λ fault. result
        ≡ Err (take_fault_of fault)) }
{
    match answer {
        Ok(()) => Ok(()),
        Err(fault) => Err(TakeFault::from(fault)),
    }
}

// The answer of a merge with itself, which changes nothing: a mirror's strings do not collide.
fn merge_itself<H: TreeHash>(mirror: &Mirror<H>) -> Result<(), TakeFault>
    ensures merges { Merges H.digest mirror.now.view mirror.now.view (answer_of result)
        mirror.now.view }
    ensures done { result ≡ Ok tt }
{
    let _held = mirror.strings();
    Ok(())
}
