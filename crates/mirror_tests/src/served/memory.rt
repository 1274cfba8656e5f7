//! Tests with refused requests for memory, as by `rt try --test --fail-alloc N`. If an answer ran out of memory, nothing was
//! written, and the next answer is right.
use crate::served::{answered, mirror_of_3};
use mirror_http::HttpFault;
use std::alloc::Global;
use std::process::Abort;
use std::test::Fail;
use tlog_hash::{Sha256Tree, TreeHash};
use tlog_mirror::Mirror;

// The space that is left after the reply. If memory was refused, nothing was written, and the reply is made again.
fn left_at_last<H: TreeHash>(
    rt: &impl Abort,
    alloc: Global,
    mirror: &Mirror<H>,
    request: &str,
    mut space: &mut [u8],
) -> usize {
    let mut done = answered(alloc, mirror, &mut request.as_bytes(), &mut space);
    if done == Err(HttpFault::OutOfMemory) {
        assert!(rt; space.len() == 1_024);
        done = answered(alloc, mirror, &mut request.as_bytes(), &mut space);
    }
    assert!(rt; done == Ok(()), "{request}");
    space.len()
}

// Answers into a buffer with that space, and again if memory was refused. Each reply goes into existing space, since a
// vector that cannot grow is a writer that fails.
fn answers_again<H: TreeHash>(
    rt: &impl Abort,
    alloc: Global,
    mirror: &Mirror<H>,
    request: &str,
) -> Result<(), HttpFault> {
    let mut want = [0u8; 1_024];
    let mut behind = want.as_mut_slice();
    answered(alloc, mirror, &mut request.as_bytes(), &mut behind)?;
    let left = behind.len();
    let mut space = [0u8; 1_024];
    let rest = left_at_last(rt, alloc, mirror, request, &mut space);
    assert!(rt; rest == left && space == want, "{request}");
    Ok(())
}

const REQUESTS: [&str; 11] = [
    "GET /checkpoint HTTP/1.1\r\n\r\n",
    "GET /tile/0/000.p/3 HTTP/1.1\r\n\r\n",
    "GET /tile/entries/000.p/3 HTTP/1.1\r\n\r\n",
    "GET /mirror/status HTTP/1.1\r\n\r\n",
    "GET /mirror/forks HTTP/1.1\r\n\r\n",
    "GET /mirror/missing/3/aeb6bcfe274b70a14fb067a5e5578264db0fa9b51af5e0ba159158f329e06e77 HTTP/1.1\r\n\r\n",
    "GET /mirror/inclusion/3/2 HTTP/1.1\r\n\r\n",
    "GET /mirror/consistency/2/3 HTTP/1.1\r\n\r\n",
    "GET /none HTTP/1.1\r\n\r\n",
    "PUT /none HTTP/1.1\r\n\r\n",
    "none\r\n\r\n",
];

#[test]
fn answer_again_after_want_of_memory(rt: HostRuntime) -> Result<(), Fail> {
    let mirror = mirror_of_3::<Sha256Tree>(rt.alloc())?;
    let answer = answers_all_again(&rt, rt.alloc(), &mirror);
    drop(mirror);
    answer?;
    Ok(())
}

fn answers_all_again<H: TreeHash>(
    rt: &impl Abort,
    alloc: Global,
    mirror: &Mirror<H>,
) -> Result<(), HttpFault> {
    for &request in &REQUESTS {
        answers_again(rt, alloc, mirror, request)?;
    }
    Ok(())
}
