// The payload of one block of an accepted file, as a part of the lent file, and the number that goes with it.
ghost use Rattle.std.specs.Prelude.{◌≡◌};
ghost use Rattle.format.specs.Format.{first_edition};
ghost use Rattle.file.specs.Answer.{judged_block, payload_of};

use crate::check_file;
use format::Block;
use plan::{Fault, Refusal, Verdict};

// Whether there is such a payload: `Ok`, which is number 0; else the file's own number, then 8 for a
// block that is missing.
pub fn payload_number(file: &[u8], block: usize) -> Verdict
    ensures { result ≡ judged_block first_edition file.now block }
{
    check_file(file)?;
    if file.len() / Block::SIZE <= block {
        return Err(Refusal::whole(Fault::Missing));
    }
    Ok(())
}

// Bytes 6 to 509 of a block, as they stand in the lent file; nothing unless `payload_number` is `Ok`.
pub fn payload(file: &[u8], block: usize) -> &[u8]
    ensures { result.now ≡ payload_of first_edition file.now block }
{
    let Ok(()) = payload_number(file, block) else {
        return &file[0..0];
    };
    let start = block * Block::SIZE + Block::PAYLOAD_AT;
    let end = block * Block::SIZE + Block::CHECK_AT;
    &file[start..end]
}
