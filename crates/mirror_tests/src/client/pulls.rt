//! Pulls over HTTP from a mirror in this process.
ghost use Rattle.std.specs.Prelude.{map, IfOk};
ghost use Rattle.mirror_model.specs.TrueLaws.{AreShort};

use crate::served::{answered, kept};
use mirror_http::{Dial, HttpSource, Pace, Site};
use mirror_pull::{ListSource, PullFault, Pulled, pull};
use mirror_sources::Source;
use signed_note::{HmacKey, KeyFault, Verifier};
use std::alloc::{AllocError, Global};
use std::cell::Cell;
use std::io;
use std::io::{ErrorKind, Read, Write};
use std::rc::Rc;
use std::test::Fail;
use tlog_hash::{Sha256Tree, TreeHash};
use tlog_mirror::Mirror;

// A mirror, and the number of connections to it.
#[derive(Drop)]
struct Served<H: TreeHash> {
    mirror: Mirror<H>,
    dialled: Cell<u64>,
}

// A connection to the mirror. It answers what was written when it is first read.
#[derive(Drop)]
struct Line<H: TreeHash> {
    alloc: Global,
    served: Rc<Served<H>>,
    request: Vec<u8>,
    reply: Vec<u8>,
    at: usize,
}

impl<H: TreeHash> Write for Line<H> {
    fn write(&mut self, buf: &[u8]) -> io::Result<usize> {
        self.request.extend_from_slice(buf)?;
        Ok(buf.len())
    }

    fn flush(&mut self) -> io::Result<()> {
        Ok(())
    }
}

impl<H: TreeHash> Read for Line<H> {
    fn read(&mut self, buf: &mut [u8]) -> io::Result<usize> {
        if self.reply.is_empty() {
            let mut request = self.request.as_slice();
            let done = answered(
                self.alloc,
                &self.served.mirror,
                &mut request,
                &mut self.reply,
            );
            if done.is_err() {
                return Err(io::Error::from(ErrorKind::ConnectionReset));
            }
        }
        let Some(rest) = self.reply.get(self.at..) else {
            return Ok(0);
        };
        let count = rest.len().min(buf.len());
        buf[..count].copy_from_slice(&rest[..count]);
        self.at += count;
        Ok(count)
    }
}

// Makes such connections.
#[derive(Drop)]
struct MirrorDial<H: TreeHash> {
    alloc: Global,
    served: Rc<Served<H>>,
}

impl<H: TreeHash> Dial for MirrorDial<H> {
    type Stream = Line<H>;

    fn dial(&mut self) -> io::Result<Line<H>> {
        let served = self.served.clone()?;
        served.dialled.set(served.dialled.get().saturating_add(1));
        Ok(Line {
            alloc: self.alloc,
            served,
            request: Vec::new(self.alloc),
            reply: Vec::new(self.alloc),
            at: 0,
        })
    }
}

// The numbers 0 to 256, each in two bytes, big-endian.
fn numbers(alloc: Global) -> Result<Vec<Vec<u8>>, AllocError>
    ensures { IfOk result (λ entries. AreShort (map (λ e. e.items) entries.items)) }
{
    let mut entries = Vec::new(alloc);
    for number in 0..257u16 {
        entries.push(Vec::from_slice(alloc, &number.to_be_bytes())?)?;
    }
    Ok(entries)
}

fn key(alloc: Global) -> Result<HmacKey, KeyFault> {
    HmacKey::new(alloc, "ex", 1, &[0])
}

// The result of a pull. It ensures nothing, so that its callers are cheap to check.
fn pulled<H: TreeHash, S: Source>(
    alloc: Global,
    mirror: &mut Mirror<H>,
    source: &mut S,
) -> Result<Result<Pulled, PullFault>, Fail> {
    let mut keys: Vec<Box<dyn Verifier>> = Vec::new(alloc);
    keys.push(Box::new(alloc, key(alloc)?)?)?;
    Ok(pull(alloc, mirror, &keys, source))
}

// Whether the answer is that of a pull of the 257 numbers: they were pulled in one round.
fn is_pull_257(answer: &Result<Pulled, PullFault>) -> bool {
    match answer {
        Ok(p) => p.size == 257 && p.rounds == 1 && p.refused == 0 && p.complete,
        Err(_) => false,
    }
}

// Whether a mirror pulls the 257 numbers from the source.
fn pulls_257<H: TreeHash, S: Source>(alloc: Global, source: &mut S) -> Result<bool, Fail> {
    let mut mirror = Mirror::<H>::new(alloc, "ex")?;
    let answer = pulled(alloc, &mut mirror, source);
    drop(mirror);
    Ok(is_pull_257(&answer?))
}

fn pull_list<H: TreeHash>(alloc: Global, mirror: &mut Mirror<H>) -> Result<(), Fail> {
    let mut source = ListSource::<H>::new(alloc, "ex", numbers(alloc)?, key(alloc)?)?;
    let _pulled = pulled(alloc, mirror, &mut source)??;
    drop(source);
    Ok(())
}

// A mirror that has pulled the 257 numbers.
fn served_257<H: TreeHash>(alloc: Global) -> Result<Rc<Served<H>>, Fail> {
    let mut mirror = Mirror::<H>::new(alloc, "ex")?;
    let answer = pull_list(alloc, &mut mirror);
    let served = Served {
        mirror: kept(mirror, answer)?,
        dialled: Cell::new(0),
    };
    Ok(Rc::new(alloc, served)?)
}

#[test]
fn pull_over_http(rt: HostRuntime) -> Result<(), Fail> {
    let alloc = rt.alloc();
    let served = served_257::<Sha256Tree>(alloc)?;
    for ahead in [0, 3] {
        let dial = MirrorDial {
            alloc,
            served: served.clone()?,
        };
        let site = Site::new(alloc, "log.example", "")?;
        let mut source = HttpSource::new(alloc, site, dial, Pace { ahead, wait: 0 });
        let pulls = pulls_257::<Sha256Tree, _>(alloc, &mut source);
        assert!(rt; source.failures() == 0);
        drop(source);
        assert!(rt; pulls? && served.dialled.get() == 5, "{ahead}");
        served.dialled.set(0);
    }
    drop(served);
    Ok(())
}
