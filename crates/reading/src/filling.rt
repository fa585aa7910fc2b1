// Filling lent lists with the plan that a file holds. Internal: the file's blocks are right.
ghost use Rattle.std.specs.Prelude.{◌≡◌, List, ℕ, ◌+◌, ◌*◌, ◌≤◌, ◌<◌, min, length};
ghost use Rattle.plan.specs.Limits.{most_nodes, most_arcs, arc_entries};
ghost use Rattle.plan.specs.Plan.{Plan as Meant};
ghost use Rattle.lists.specs.Written.{SuppliesWritten, ArcsWritten};
ghost use Rattle.format.specs.Format.{first_edition, block_size, blocks_of, arcs_before};
ghost use Rattle.format.specs.Held.{one, two, held};
ghost use Rattle.format.specs.Records.{Records};

use format::bytes::{four, signed, two};
use format::layout::{arcs_in, blocks_of};
use format::{Block, Edition};
use lists::{write_arcs, write_first};
use plan::Arc;

// The arc whose record begins at a place of a payload.
fn arc_at(payload: &[u8], at: usize) -> Arc
    requires { at + 5 < length payload.now }
    ensures { result ≡ record { from = one payload.now at; to = one payload.now (at + 1); low = two payload.now (at + 2); high = two payload.now (at + 4) } }
{
    let low = two(payload, at + 2) as u32;
    let high = two(payload, at + 4) as u32;
    Arc::new(
        u32::from(payload[at]),
        u32::from(payload[at + 1]),
        low,
        high,
    )
}

// The arc decoder: writes the arcs of a payload's first records, from arc `first` on.
fn decode(payload: &[u8], first: usize, count: usize, arcs: &mut [u32])
    requires payload { count * first_edition.record_size ≤ length payload.now }
    requires arcs { (first + count) * arc_entries ≤ length arcs.old }
    ensures { (p : Meant) (before : List ℕ) → Records first_edition p first count payload.now → ArcsWritten p first before arcs.old → ArcsWritten p (first + count) before arcs.new }
{
    write_arcs(arcs, first, count, |j| {
        arc_at(payload, j * Edition::RECORD_SIZE)
    });
}

// Writes the arcs of arc block b, where those of the blocks before it stand.
fn fill_block(file: &[u8], count: usize, b: usize, arcs: &mut [u32])
    requires block { (1 ≤ b) × (b < 256) × ((b + 1) * block_size ≤ length file.now) }
    requires arcs { (arcs_before first_edition b ≤ count) × (count * arc_entries ≤ length arcs.old) }
    ensures { (before : List ℕ) → ArcsWritten (held first_edition file.now) (arcs_before first_edition b) before arcs.old → ArcsWritten (held first_edition file.now) (min count (b * first_edition.block_arcs)) before arcs.new }
{
    let start = b * Block::SIZE + Block::PAYLOAD_AT;
    let end = b * Block::SIZE + Block::CHECK_AT;
    let first = (b - 1) * Edition::BLOCK_ARCS;
    decode(&file[start..end], first, arcs_in(count, b), arcs);
}

// Writes the first arcs of the plan that a file holds.
pub fn fill_arcs(file: &[u8], count: usize, arcs: &mut [u32])
    requires file { (count ≤ most_arcs) × (blocks_of first_edition count * block_size ≤ length file.now) }
    requires arcs { count * arc_entries ≤ length arcs.old }
    ensures { ArcsWritten (held first_edition file.now) count arcs.old arcs.new }
{
    for b in 1..blocks_of(count) {
        fill_block(file, count, b, arcs);
    }
}

// Writes the first supplies of the plan that a file holds.
pub fn fill_supplies(file: &[u8], count: usize, supplies: &mut [i32])
    requires file { (count ≤ most_nodes) × (block_size ≤ length file.now) }
    requires supplies { count ≤ length supplies.old }
    ensures { SuppliesWritten (held first_edition file.now) count supplies.old supplies.new }
{
    write_first(supplies, count, |v| {
        signed(four(file, Block::PAYLOAD_AT + v * Block::SUPPLY_SIZE))
    });
}
