//! States that are cut, and readers and writers that fail.
use crate::given::{complete, keys, load_example, save_to};
use crate::states::COMPLETE;
use crate::streams::{FailingWriter, Strange};
use mirror_files::{LoadFault, SaveFault};
use signed_note::Verifier;
use std::alloc::Global;
use std::io::Read;
use std::process::Abort;
use std::test::Fail;
use tlog_hash::{Sha256Tree, TreeHash};
use tlog_mirror::Mirror;

// Why the bytes of the reader are refused.
fn fault_of<H: TreeHash, R: Read>(
    alloc: Global,
    keys: &[Box<dyn Verifier>],
    reader: &mut R,
) -> Option<LoadFault> {
    load_example::<H, R>(alloc, keys, reader).err()
}

#[test]
fn state_cuts(rt: HostRuntime) -> Result<(), Fail> {
    let keys = keys(rt.alloc())?;
    refuses_cuts::<Sha256Tree>(&rt, rt.alloc(), &keys)
}

fn refuses_cuts<H: TreeHash>(
    rt: &impl Abort,
    alloc: Global,
    keys: &[Box<dyn Verifier>],
) -> Result<(), Fail> {
    for len in 0..COMPLETE.len() {
        let mut text = COMPLETE.get(..len).ok_or("no text")?;
        let fault = if len < 8 {
            LoadFault::StateMagic
        } else {
            LoadFault::StateShort
        };
        let found = fault_of::<H, _>(alloc, keys, &mut text);
        assert!(rt; found == Some(fault));
    }
    Ok(())
}

// The bytes of readers that give one byte for each read, and why these are refused. The first reader fails at once. The second
// ends at the last read of the 16,777,216 that there may be, and the third would end at the next one. The last does not end.
const READERS: [(Option<u64>, LoadFault); 4] = [
    (None, LoadFault::ReadFault),
    (Some(16_777_215), LoadFault::StateMagic),
    (Some(16_777_216), LoadFault::ReadFault),
    (Some(u64::MAX), LoadFault::ReadFault),
];

#[test]
fn endless_reader(rt: HostRuntime) {
    for &(left, fault) in &READERS {
        let mut reader = Strange { left };
        let found = fault_of::<Sha256Tree, _>(rt.alloc(), &[], &mut reader);
        assert!(rt; found == Some(fault));
    }
}

#[test]
fn failing_writer(rt: HostRuntime) -> Result<(), Fail> {
    let mirror = complete::<Sha256Tree>(rt.alloc())?;
    assert_fronts(&rt, rt.alloc(), &mirror);
    drop(mirror);
    Ok(())
}

fn assert_fronts<H: TreeHash>(rt: &impl Abort, alloc: Global, mirror: &Mirror<H>) {
    for room in 0..COMPLETE.len() {
        assert_front(rt, alloc, mirror, room, Err(SaveFault::WriteFault));
    }
    assert_front(rt, alloc, mirror, COMPLETE.len(), Ok(()));
}

// A writer with room for `room` bytes gets the first `room` bytes of the text.
fn assert_front<H: TreeHash>(
    rt: &impl Abort,
    alloc: Global,
    mirror: &Mirror<H>,
    room: usize,
    answer: Result<(), SaveFault>,
) {
    let mut writer = FailingWriter::new(alloc, room);
    assert!(rt; save_to(alloc, mirror, &mut writer) == answer);
    assert!(rt; COMPLETE.get(..room) == Some(writer.taken.as_slice()));
}
