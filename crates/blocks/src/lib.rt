// The verdict on a file's blocks, before any buffer is looked at: the numbers 11, 12, 13, 1, 2 and 14; 12, 13 and
// a wrong content with the lowest block. It uses `format` for what stands where and `network` for the counts.
#![tactic(auto)]

ghost use Rattle.std.specs.Prelude.{◌≡◌, ◌≤◌, ◌<◌, ◌/◌, length};
ghost use Rattle.plan.specs.Limits.{most_nodes, most_arcs};
ghost use Rattle.plan.specs.Verdict.{verdict};
ghost use Rattle.format.specs.Format.{first_edition};
ghost use Rattle.blocks.specs.Rules.{length_wrong, check_wrong, label_wrong, unused_wrong, content_wrong, blocks_in, shape_rules, content_rules, block_rules};

use format::bytes::two;
use format::layout::{block_of, blocks_of, check_of, kind_of};
use format::{Block, Edition};
use network::check_counts;
use plan::{Fault, Refusal, Verdict, refuse};

// The file's length is 0, above the longest, or not in whole blocks.
fn length_wrong(file: &[u8]) -> bool
    ensures { result ≡ length_wrong first_edition file.now }
{
    let length = file.len();
    length == 0 || Edition::LONGEST < length || length % Block::SIZE != 0
}

// The check of block b is not the sum over its bytes.
fn check_wrong(file: &[u8], b: usize) -> bool
    requires { b < blocks_in file.now }
    ensures { result ≡ check_wrong file.now b }
{
    two(file, b * Block::SIZE + Block::CHECK_AT) != check_of(file, b)
}

// The kind or the number of block b is not its own.
fn label_wrong(file: &[u8], b: usize) -> bool
    requires { b < blocks_in file.now }
    ensures { result ≡ label_wrong first_edition file.now b }
{
    let at = b * Block::SIZE;
    file[at + Block::KIND_AT] != kind_of(b) || usize::from(file[at + Block::NUMBER_AT]) != b
}

// A byte of block b from `end` to its check is not 0.
fn unused_wrong(file: &[u8], b: usize, end: usize) -> bool
    requires { b < blocks_in file.now }
    ensures { result ≡ unused_wrong end file.now b }
{
    for i in end..Block::CHECK_AT {
        if file[b * Block::SIZE + i] != 0 {
            return true;
        }
    }
    false
}

// A count of block b is not that of a plan of so many nodes and arcs, or an unused byte is not 0.
fn content_wrong(file: &[u8], nodes: usize, arcs: usize, b: usize) -> bool
    requires block { (b < blocks_in file.now) × (b < 256) }
    requires nodes { nodes ≤ most_nodes }
    ensures { result ≡ content_wrong first_edition nodes arcs file.now b }
{
    let block = block_of(nodes, arcs, b);
    let at = b * Block::SIZE;
    two(file, at + Block::FIRST_AT) != block.first
        || two(file, at + Block::SECOND_AT) != block.second
        || unused_wrong(file, b, block.end)
}

// The verdict by the numbers 11, 12 and 13: the file's length, each block's check, its kind and number.
fn check_shape(file: &[u8]) -> Verdict
    ensures { result ≡ verdict (shape_rules first_edition file.now) }
{
    if length_wrong(file) {
        return Err(Refusal::whole(Fault::FileLength));
    }
    let count = file.len() / Block::SIZE;
    refuse(Fault::FileCheck, count, |b| check_wrong(file, b))?;
    refuse(Fault::FileLabel, count, |b| label_wrong(file, b))
}

// The verdict by the number 14: how many blocks there are, then what each says of itself.
fn check_content(file: &[u8], nodes: usize, arcs: usize) -> Verdict
    requires { (blocks_in file.now ≤ 256) × (nodes ≤ most_nodes) × (arcs ≤ most_arcs) }
    ensures { result ≡ verdict (content_rules first_edition nodes arcs file.now) }
{
    let count = file.len() / Block::SIZE;
    if count != blocks_of(arcs) {
        return Err(Refusal::whole(Fault::FileContent));
    }
    refuse(
        Fault::FileContent,
        count,
        |b| content_wrong(file, nodes, arcs, b),
    )
}

// The verdict on a file before any buffer is looked at: 11, 12, 13, 1, 2, 14.
pub fn check_blocks(file: &[u8]) -> Verdict
    ensures { result ≡ verdict (block_rules first_edition file.now) }
{
    check_shape(file)?;
    let nodes = two(file, Block::FIRST_AT);
    let arcs = two(file, Block::SECOND_AT);
    check_counts(nodes, arcs)?;
    check_content(file, nodes, arcs)
}
