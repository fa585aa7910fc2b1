// Reading a plan file, as document 01 has it, for every input; `payload` shows the part of a file that is one block's
// content. It uses `blocks` and `network` for what turns a file down, `format` for what stands where, and `file` for
// what is promised.
#![tactic(auto)]

mod filling;
pub mod payload;

ghost use Rattle.std.specs.Prelude.{◌≡◌, false, MatchResult};
ghost use Rattle.plan.specs.Verdict.{verdict, limit_rules};
ghost use Rattle.format.specs.Format.{first_edition};
ghost use Rattle.format.specs.Held.{held};
ghost use Rattle.blocks.specs.Rules.{block_rules, reading_rules};
ghost use Rattle.blocks.specs.Sound.{Sound};
ghost use Rattle.file.specs.Answer.{ReadAnswers};

use crate::filling::{fill_arcs, fill_supplies};
use blocks::check_blocks;
use format::Block;
use format::bytes::two;
use network::{check_limits, too_short};
use plan::{Arc, Fault, Network, Plan, Refusal, Verdict};

// The size of the plan that a file holds, once its blocks are seen to be right.
fn sound_size(file: &[u8]) -> Result<Plan, Refusal>
    ensures { MatchResult result (λ size. Sound first_edition file.now × (size.nodes ≡ (held first_edition file.now).nodes) × (size.arcs ≡ (held first_edition file.now).arcs)) (λ refusal. verdict (block_rules first_edition file.now) ≡ Err refusal) }
{
    check_blocks(file)?;
    Ok(Plan {
        nodes: two(file, Block::FIRST_AT),
        arcs: two(file, Block::SECOND_AT),
    })
}

// The verdict by the numbers 4 to 7 on the plan that a file holds.
fn check_held(file: &[u8], size: Plan) -> Verdict
    requires file { Sound first_edition file.now }
    requires counts { (size.nodes ≡ (held first_edition file.now).nodes) × (size.arcs ≡ (held first_edition file.now).arcs) }
    ensures { result ≡ verdict (limit_rules (held first_edition file.now)) }
{
    let mut supplies = [0i32; Plan::MOST_NODES];
    let mut arcs = [0u32; Plan::MOST_ARCS * Arc::ENTRIES];
    fill_supplies(file, size.nodes, &mut supplies);
    fill_arcs(file, size.arcs, &mut arcs);
    check_limits(Network {
        arcs: &arcs[..size.arcs * Arc::ENTRIES],
        supplies: &supplies[..size.nodes],
    })
}

// The verdict on a file for lists that are long enough: 11, 12, 13, 1, 2, 14, 4, 5, 6, 7.
pub fn check_file(file: &[u8]) -> Verdict
    ensures { result ≡ verdict (reading_rules first_edition file.now false) }
{
    let held = sound_size(file)?;
    check_held(file, held)
}

// Fills the lent lists with the plan of the file, supplies and arcs, and gives its size; a file that is
// turned down, and lists that are too short, leave both as they were. The file's numbers come in the order
// 11, 12, 13, 1, 2, 14, 3, 4, 5, 6, 7, each with the lowest block, arc or node.
pub fn read(file: &[u8], supplies: &mut [i32], arcs: &mut [u32]) -> Result<Plan, Refusal>
    ensures { ReadAnswers first_edition file.now supplies.old supplies.new arcs.old arcs.new result }
{
    let size = sound_size(file)?;
    if too_short(
        supplies.len(),
        size.nodes,
        arcs.len() / Arc::ENTRIES,
        size.arcs,
    ) {
        return Err(Refusal::whole(Fault::Buffer));
    }
    check_held(file, size)?;
    fill_supplies(file, size.nodes, supplies);
    fill_arcs(file, size.arcs, arcs);
    Ok(size)
}
