//! The header of a segment that is being opened.
ghost use Rattle.std.specs.Prelude.{◌≡◌, ◌+◌, ◌^◌, ◌<◌, IfOk};
ghost use Rattle.sea_segment.specs.Header.{SpellsHeader};
ghost use Rattle.sea_journal.specs.Link.{IsLink};

use sea_base::{Block, NoMemory};
use sea_segment::Header;
use sea_trail::Link;
use std::alloc::Global;

/// A header that is being written, and the block that spells it.
#[derive(Debug, Drop)]
pub struct Roll {
    pub header: Header,
    pub block: Block,
    ghost spells: { SpellsHeader block header },
}

impl Roll {
    ghost use Rattle.sea_trail.specs.Trail.{header_link};
    ghost use Rattle.sea_journal.specs.Log.{header_behind};

    /// The header of this segment that goes on from a link of the one with the number before.
    pub fn new(alloc: Global, segment: u32, seq: u64, link: &Link) -> Result<Roll, NoMemory>
        requires number { seq < 2 ^ 62 + 2 ^ 49 }
        requires link { IsLink link.now }
        ensures { IfOk result (λ roll. roll.header ≡ header_behind segment seq link.now) }
    {
        let header = Header {
            segment,
            mount: link.mount,
            seq: seq + 1,
            commit: link.commit,
            tail: link.tail,
            root: link.root,
            prev: link.digest,
        };
        let block = header.spell(alloc)?;
        Ok(Roll { header, block })
    }

    /// What the header hands on.
    pub fn link(&self) -> Link
        ensures is { result ≡ header_link self.now.header }
        ensures fits { IsLink result }
    {
        let header = &self.header;
        Link {
            mount: header.mount,
            commit: header.commit,
            digest: Header::digest_in(&self.block),
            tail: header.tail,
            root: header.root,
        }
    }
}
