//! Where segments stand on a device: block 0 is the superblock, and segments follow it.
ghost use Rattle.std.specs.Prelude.{◌≡◌, ◌≤◌};
ghost use Rattle.sea_trail.specs.Trail as trail;

/// How many blocks a segment has, first its header.
pub const SEGMENT_BLOCKS: u32 = 2048;

/// The block of a segment's header.
pub fn header_block(segment: u32) -> u32
    requires { segment ≤ 8191 }
    ensures { result ≡ trail.header_block segment }
{
    1 + SEGMENT_BLOCKS * segment
}

/// The block behind it, where the first record of the segment stands.
pub fn first_block(segment: u32) -> u32
    requires { segment ≤ 8191 }
    ensures { result ≡ trail.first_block segment }
{
    header_block(segment) + 1
}

/// How many blocks so many segments need, with the superblock.
pub fn blocks_needed(segments: u32) -> u32
    requires { segments ≤ 8191 }
    ensures { result ≡ trail.blocks_needed segments }
{
    header_block(segments)
}
