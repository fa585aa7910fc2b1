// Writing the file of a network, byte by byte after the definition, for every input. It uses `format` for what stands
// where, `network` for what turns a network down, and `file` for what is promised.
#![tactic(auto)]

ghost use Rattle.std.specs.Prelude.{◌≡◌, List, ℕ, ◌+◌, ◌*◌, ◌/◌, ◌≤◌, ◌<◌, length};
ghost use Rattle.plan.specs.Limits.{arc_entries};
ghost use Rattle.plan.specs.Plan.{Plan as Meant, WellFormed, meant};
ghost use Rattle.lists.specs.Written.{EntriesWritten};
ghost use Rattle.format.specs.Format.{first_edition, block_size, payload_at, check_at, record_byte, content_byte, content_end, body_byte, file_byte};
ghost use Rattle.format.specs.Held.{place};
ghost use Rattle.format.specs.Block.{block_of};
ghost use Rattle.file.specs.Answer.{WriteAnswers};

use format::bytes::{digit, packed, unsigned};
use format::layout::{block_of, blocks_of, check_of};
use format::{Block, Edition};
use network::check;
use plan::{Network, Refusal};

// Byte i of the record of arc k.
fn record_byte(network: Network, k: usize, i: usize) -> u8
    requires plan { WellFormed (meant network) }
    requires place { (k < length network.arcs.now / arc_entries) × (i < first_edition.record_size) }
    ensures { result ≡ record_byte (meant network.entry) k i }
{
    let arc = network.arc(k);
    packed(
        arc.from as usize,
        arc.to as usize,
        arc.low as usize,
        arc.high as usize,
        i,
    )
}

// Byte j of the payload of block b: a supply's of the head, a record's of an arc block.
fn content_byte(network: Network, b: usize, j: usize) -> u8
    requires plan { WellFormed (meant network) }
    requires place { (b < 256) × (payload_at + j < content_end first_edition (length network.supplies.now) (length network.arcs.now / arc_entries) b) }
    ensures { result ≡ content_byte first_edition (meant network.entry) b j }
{
    if b == 0 {
        let supply = unsigned(network.supplies[j / Block::SUPPLY_SIZE]);
        return digit(supply as usize, j % Block::SUPPLY_SIZE);
    }
    let k = (b - 1) * Edition::BLOCK_ARCS + j / Edition::RECORD_SIZE;
    record_byte(network, k, j % Edition::RECORD_SIZE)
}

// Byte i of block b, before its check.
fn body_byte(network: Network, block: Block, b: usize, i: usize) -> u8
    requires plan { WellFormed (meant network) }
    requires block { (block ≡ block_of first_edition (length network.supplies.now) (length network.arcs.now / arc_entries) b) × (b < 256) }
    ensures { result ≡ body_byte first_edition (meant network.entry) b i }
{
    if i < Block::PAYLOAD_AT {
        return packed(block.kind as usize, b, block.first, block.second, i);
    }
    if i < block.end {
        return content_byte(network, b, i - Block::PAYLOAD_AT);
    }
    0
}

// Writes block b up to its check, where the blocks before it stand.
fn write_body(network: Network, b: usize, file: &mut [u8])
    requires plan { WellFormed (meant network) }
    requires block { (b < 256) × (b < length file.old / block_size) }
    ensures { (before : List ℕ) → EntriesWritten 0 (file_byte first_edition (meant network.entry)) (place b 0) before file.old → EntriesWritten 0 (file_byte first_edition (meant network.entry)) (place b check_at) before file.new }
{
    let size = network.size();
    let block = block_of(size.nodes, size.arcs, b);
    for i in 0..Block::CHECK_AT {
        file[b * Block::SIZE + i] = body_byte(network, block, b, i);
    }
}

// Writes the check of block b, whose other bytes stand.
fn write_check(b: usize, file: &mut [u8])
    requires { b < length file.old / block_size }
    ensures { (p : Meant) (before : List ℕ) → EntriesWritten 0 (file_byte first_edition p) (place b check_at) before file.old → EntriesWritten 0 (file_byte first_edition p) (place (b + 1) 0) before file.new }
{
    let check = check_of(file, b);
    let at = b * Block::SIZE + Block::CHECK_AT;
    file[at] = digit(check, 0);
    file[at + 1] = digit(check, 1);
}

// Writes the first blocks of a network's file.
fn write_blocks(network: Network, count: usize, file: &mut [u8])
    requires plan { WellFormed (meant network) }
    requires block { (count ≤ 256) × (count * block_size ≤ length file.old) }
    ensures { EntriesWritten 0 (file_byte first_edition (meant network.entry)) (count * block_size) file.old file.new }
{
    for b in 0..count {
        write_body(network, b, file);
        write_check(b, file);
    }
}

// Writes the file of the network to the lent bytes and gives its length; no byte past it changes. A network
// that is turned down, and a buffer that is shorter than the file, leave all bytes as they were.
pub fn write(network: Network, file: &mut [u8]) -> Result<usize, Refusal>
    ensures { WriteAnswers first_edition (meant network.entry) file.old file.new result }
{
    let blocks = blocks_of(network.size().arcs);
    let length = blocks * Block::SIZE;
    check(network, file.len() < length)?;
    write_blocks(network, blocks, file);
    Ok(length)
}
