//! What was made of an image, and what of it was acknowledged.

use crate::bodies::plain_len;
use crate::fault::TrialFault;
use sea_base::Tail;
use sea_record::Record;
use sea_trail::Trail;
use std::alloc::Global;

/// What the trail of an image says, where a certain header or record is its last.
#[derive(Clone, Copy, Debug, PartialEq, Eq)]
pub struct Point {
    pub segment: u32,
    pub seq: u64,
    /// The block behind it.
    pub end: u32,
    pub mount: u64,
    pub commit: u64,
    pub tail: Tail,
    /// How many records are before the tail.
    pub gone: u64,
    /// The next address.
    pub next: u64,
}

/// Up to a number of syncs, what a crash has to leave at least and may leave at most.
#[derive(Clone, Copy, Debug)]
pub struct Stretch {
    pub syncs: u64,
    pub least: usize,
    pub most: usize,
}

/// The past of a journal: each point that it made, what each record holds, and stretches of its
/// device's calls.
#[derive(Debug, Drop)]
pub struct Past {
    points: Vec<Point>,
    // How many blocks each record has.
    sizes: Vec<u32>,
    stretches: Vec<Stretch>,
    stable: usize,
    syncs: u64,
}

impl Past {
    /// A fresh image, made by two syncs.
    pub fn new(alloc: Global, fresh: Point) -> Result<Past, TrialFault> {
        let mut past = Past {
            points: Vec::new(alloc),
            sizes: Vec::new(alloc),
            stretches: Vec::new(alloc),
            stable: 0,
            syncs: 0,
        };
        past.points.push(fresh)?;
        past.synced()?;
        past.synced()?;
        Ok(past)
    }

    /// A header was made.
    pub fn add_header(&mut self, point: Point) -> Result<(), TrialFault> {
        self.points.push(point)?;
        Ok(())
    }

    /// A record of so many blocks was made.
    pub fn add_record(&mut self, point: Point, blocks: u32) -> Result<(), TrialFault> {
        self.points.push(point)?;
        self.sizes.push(blocks)?;
        Ok(())
    }

    /// The device was synced, and what had been made was acknowledged.
    pub fn synced(&mut self) -> Result<(), TrialFault> {
        self.syncs = self.syncs.saturating_add(1);
        let most = self.points.len().saturating_sub(1);
        self.stretches.push(Stretch {
            syncs: self.syncs,
            least: self.stable,
            most,
        })?;
        self.stable = most;
        Ok(())
    }

    /// The last point.
    pub fn last(&self) -> Result<Point, TrialFault> {
        match self.points.last() {
            Some(point) => Ok(*point),
            None => Err(TrialFault::Unfit),
        }
    }

    /// How many records were made.
    pub fn records(&self) -> usize {
        self.sizes.len()
    }

    /// How often the device was synced.
    pub fn syncs(&self) -> u64 {
        self.syncs
    }

    /// Whether a trail ends at the last point, with the records that were made.
    pub fn is_told_by(&self, trail: &Trail) -> bool {
        match self.points.last() {
            Some(point) => point.ends(trail) && self.has_records(point.gone, trail.records.items()),
            None => false,
        }
    }

    /// Whether a crash after so many syncs may leave this trail.
    pub fn allows(&self, syncs: u64, trail: &Trail) -> bool {
        for stretch in self.stretches.iter() {
            if stretch.syncs > syncs {
                return self.has_prefix(*stretch, trail);
            }
        }
        false
    }

    // Whether a trail ends at a point of the stretch, with the records that were made.
    fn has_prefix(&self, stretch: Stretch, trail: &Trail) -> bool {
        for index in stretch.least..=stretch.most {
            if let Some(point) = self.points.get(index)
                && point.ends(trail)
            {
                return self.has_records(point.gone, trail.records.items());
            }
        }
        false
    }

    // Whether these are the records behind so many.
    fn has_records(&self, gone: u64, records: &[Record]) -> bool {
        let mut commit = gone;
        for record in records {
            commit = commit.saturating_add(1);
            let at = usize::try_from(commit).unwrap_or(0).saturating_sub(1);
            let Some(blocks) = self.sizes.get(at) else {
                return false;
            };
            let plain = record.body.plain.bytes();
            if record.commit.0 != commit || plain.len() != plain_len(*blocks) {
                return false;
            }
            if let (Some(first), Some(last)) = (plain.first(), plain.last())
                && (*first != byte_of(commit) || *last != byte_of(commit))
            {
                return false;
            }
        }
        true
    }
}

impl Point {
    /// What a trail says, of which so many records are gone.
    pub fn of(trail: &Trail, gone: u64) -> Point {
        Point {
            segment: trail.active,
            seq: trail.seq,
            end: trail.end.0,
            mount: trail.mount,
            commit: trail.commit.0,
            tail: trail.tail,
            gone,
            next: trail.root.next.0,
        }
    }

    // Whether a trail ends here.
    fn ends(&self, trail: &Trail) -> bool {
        let records = trail.records.items().len() as u64;
        Point::of(trail, self.gone) == *self && self.gone.saturating_add(records) == self.commit
    }
}

/// The byte that fills the record with this number.
pub fn byte_of(commit: u64) -> u8 {
    (commit % 255) as u8 + 1
}
