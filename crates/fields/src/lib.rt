// The lowest refusal that holds for a header, a label, a row, the end field.
#![tactic(auto)]

ghost use Rattle.std.specs.Prelude.{◌≡◌, false, ◌+◌, ◌<◌, get_or};
ghost use Rattle.std.specs.Result.{IfOk};
ghost use Rattle.words.specs.Bytes.{number_at};
ghost use Rattle.refusals.specs.Faults.{lowest};
ghost use Rattle.refusals.specs.Modest.{Modest};
ghost use Rattle.refusals.specs.Refusals.{number_in as refusal_in};
ghost use Rattle.refusals.specs.Stages.{stage_of};
ghost use Rattle.fields.specs.Fields.{header_faults, label_faults, class_at, number_in, row_faults, end_faults};
ghost use Rattle.fields.specs.Marks.{mark};

use connectors::Reach;
use refusals::{Field, Limits, Refusal, Stage};

mod destination;

pub use destination::{Destination, limit_of};

// The number of blocks that a header says.
#[tactic(auto, unfolding(crate::specs::Fields::header_faults))]
pub fn judge_header(limits: &Limits, field: &Field, stage: Stage) -> Result<usize, Refusal>
    ensures number { refusal_in result ≡ lowest (header_faults limits.now field.now.bytes.now field.now.at field.now.size (stage_of stage)) }
    ensures n { IfOk result (λ n. n ≡ number_at 2 field.now.bytes.now (field.now.at + 4)) }
{
    if stage != Stage::Opening {
        return Err(Refusal::TagOrLength);
    }
    if field.size != 3 {
        return Err(Refusal::TagOrLength);
    }
    if field.bytes[field.at + 3] != 1 {
        return Err(Refusal::Version);
    }
    let n = words::two_at(field.bytes, field.at + 4);
    if limits.blocks < n {
        return Err(Refusal::NumberOfBlocks);
    }
    Ok(n)
}

// A label.
#[tactic(auto, unfolding(crate::specs::Fields::label_faults))]
pub fn judge_label(size: usize, stage: Stage) -> Result<(), Refusal>
    ensures { refusal_in result ≡ lowest (label_faults size (stage_of stage)) }
{
    if stage != Stage::AfterBlock {
        return Err(Refusal::TagOrLength);
    }
    if 16 < size {
        return Err(Refusal::TagOrLength);
    }
    Ok(())
}

// The end field.
#[tactic(auto, unfolding(crate::specs::Fields::end_faults))]
pub fn judge_end(size: usize, stage: Stage, n: usize, blocks: usize) -> Result<(), Refusal>
    ensures { refusal_in result ≡ lowest (end_faults size (stage_of stage) n blocks) }
{
    if stage == Stage::Opening {
        return Err(Refusal::TagOrLength);
    }
    if size != 0 {
        return Err(Refusal::TagOrLength);
    }
    if blocks < n {
        return Err(Refusal::NumberOfBlocks);
    }
    Ok(())
}

// The mark of a row's destination; `used` are those of the rows before.
#[tactic(auto, unfolding(crate::specs::Fields::row_faults))]
pub fn judge_row(
    reach: &Reach,
    field: &Field,
    stage: Stage,
    used: &[bool; 156],
) -> Result<usize, Refusal>
    requires { Modest reach.now.limits }
    ensures number { refusal_in result ≡ lowest (row_faults reach.now.limits field.now.bytes.now field.now.at field.now.size (stage_of stage) reach.now.n reach.now.blocks reach.now.sorts.now (get_or used.now (mark (class_at field.now.bytes.now field.now.at) (number_in field.now.bytes.now field.now.at)) false)) }
    ensures mark { IfOk result (λ m. (m ≡ mark (class_at field.now.bytes.now field.now.at) (number_in field.now.bytes.now field.now.at)) × (m < 156)) }
{
    if stage == Stage::Opening {
        return Err(Refusal::TagOrLength);
    }
    if field.size != 5 {
        return Err(Refusal::TagOrLength);
    }
    if reach.blocks < reach.n {
        return Err(Refusal::NumberOfBlocks);
    }
    let class = field.bytes[field.at + 3];
    reach.judge(field.bytes, field.at + 5, destination::spot_at(class))?;
    let number = words::byte_at(field.bytes, field.at + 4);
    let mark = destination::mark_at(&reach.limits, class, number)?;
    if used[mark] {
        return Err(Refusal::Destination);
    }
    Ok(mark)
}
