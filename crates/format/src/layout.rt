// What stands where in a file of a network: how many blocks, what each block says of itself, and its
// check. Reading and writing share it. Internal.
ghost use Rattle.std.specs.Prelude.{◌≡◌, ◌≤◌, ◌<◌, ◌/◌, ◌^◌, length};
ghost use Rattle.plan.specs.Limits.{most_nodes};
ghost use Rattle.format.specs.Format.{first_edition, block_size, blocks_of, arcs_in, kind_of, check_of};
ghost use Rattle.format.specs.Held.{byte};
ghost use Rattle.format.specs.Block.{block_of};

use crate::{Block, Edition};

// The head, and as many arc blocks as the arcs need.
pub fn blocks_of(arcs: usize) -> usize
    requires { arcs < 2 ^ 62 }
    ensures { result ≡ blocks_of first_edition arcs }
{
    1 + arcs.div_ceil(Edition::BLOCK_ARCS)
}

// How many arcs stand in arc block b.
pub fn arcs_in(arcs: usize, b: usize) -> usize
    requires { (1 ≤ b) × (b < 256) }
    ensures { result ≡ arcs_in first_edition arcs b }
{
    arcs.saturating_sub((b - 1) * Edition::BLOCK_ARCS)
        .min(Edition::BLOCK_ARCS)
}

// The kind of block b.
pub fn kind_of(b: usize) -> u8
    ensures { result ≡ kind_of first_edition b }
{
    if b == 0 {
        Edition::HEAD_KIND
    } else {
        Edition::ARC_KIND
    }
}

// What block b says of itself in a file of so many nodes and arcs.
pub fn block_of(nodes: usize, arcs: usize, b: usize) -> Block
    requires { (nodes ≤ most_nodes) × (b < 256) }
    ensures { result ≡ block_of first_edition nodes arcs b }
{
    let kind = kind_of(b);
    if b == 0 {
        return Block {
            kind,
            number: b,
            first: nodes,
            second: arcs,
            end: Block::PAYLOAD_AT + nodes * Block::SUPPLY_SIZE,
        };
    }
    let count = arcs_in(arcs, b);
    Block {
        kind,
        number: b,
        first: count,
        second: 0,
        end: Block::PAYLOAD_AT + count * Edition::RECORD_SIZE,
    }
}

// The check of block b: the sum of (i + 1) times byte i over the bytes before it, reduced.
pub fn check_of(file: &[u8], b: usize) -> usize
    requires { b < length file.now / block_size }
    ensures { result ≡ check_of (byte file.now b) }
{
    let mut sum = 0;
    for i in 0..Block::CHECK_AT {
        sum += (i + 1) * usize::from(file[b * Block::SIZE + i]);
    }
    sum % Block::CHECK_MODULUS
}
