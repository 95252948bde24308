// The lowest refusal that holds for a block, and the kind of one that is not refused. And the parameters of such a block.
#![tactic(auto)]

ghost use Rattle.std.specs.Prelude.{◌≡◌, false, not, ◌&&◌, ◌+◌, ◌*◌, ◌≤◌, ◌<◌, eqb, ltb, length, get_or, pos};
ghost use Rattle.std.specs.Result.{IfOk};
ghost use Rattle.words.specs.Signed.{Between, over};
ghost use Rattle.kinds.specs.Codes.{byte_of};
ghost use Rattle.kinds.specs.Kinds.{kind_of, known, content_length, parameter};
ghost use Rattle.refusals.specs.Faults.{lowest};
ghost use Rattle.refusals.specs.Refusals.{number_in};
ghost use Rattle.refusals.specs.Stages.{stage_of};
ghost use Rattle.connectors.specs.Named.{six_or_seven};
ghost use Rattle.blockfield.specs.BlockField.{kind_at, digitals_at, analogs_at, parameters_at, four_of, signed_at, signeds_at, most_option, wrong_inputs, later_inputs, index_from, block_faults};
ghost use Rattle.blockfield.specs.Marked.{index_mark, known_faults};

use connectors::{Reach, Spot};
use kinds::Kind;
use refusals::{Field, Refusal, Stage};

// Whether a block cannot have a content of this length. That of an unknown kind is not judged, and the length is judged before the kind: so by the byte.
fn wrong_length(kind: u8, size: usize) -> bool
    ensures { result ≡ (known kind && not (eqb size (content_length (kind_of kind)))) }
{
    match Kind::try_from(kind) {
        Ok(kind) => size != kind.content_length(),
        Err(_) => false,
    }
}

// Whether a block cannot have this option.
fn wrong_option(kind: Kind, option: u8) -> bool
    ensures { result ≡ ltb (most_option (kind_of (byte_of kind))) option }
{
    if kind.may_be_retentive() {
        1 < option
    } else {
        0 < option
    }
}

// The inputs of a block: what any of them is refused for, as 6 before 7.
fn judge_inputs(reach: &Reach, bytes: &[u8], at: usize, kind: Kind) -> Result<(), Refusal>
    requires { (at + 3) + content_length (kind_of (byte_of kind)) ≤ length bytes.now }
    ensures { number_in result ≡ six_or_seven (wrong_inputs reach.now.limits (reach.now.blocks + 1) reach.now.n reach.now.sorts.now (digitals_at bytes.now at (kind_of (byte_of kind))) (analogs_at bytes.now at (kind_of (byte_of kind)))) (later_inputs (reach.now.blocks + 1) (digitals_at bytes.now at (kind_of (byte_of kind))) (analogs_at bytes.now at (kind_of (byte_of kind)))) }
{
    let d = kind.digital_inputs();
    let a = kind.analog_inputs();
    let from = at + 5;
    let of_digitals = reach.judge_inputs(bytes, from, d, Spot::DigitalInput)?;
    let of_analogs = reach.judge_inputs(bytes, from + 3 * d, a, Spot::AnalogInput)?;
    if of_digitals | of_analogs {
        return Err(Refusal::OwnOrLaterBlock);
    }
    Ok(())
}

// Parameter j of `count` that stand from a place on; 0 where there is none.
fn parameter_at(bytes: &[u8], from: usize, count: usize, j: usize) -> i32
    requires { (from + 4 * count ≤ length bytes.now) × (j < 4) }
    ensures { result ≡ parameter (signeds_at bytes.now from count) j }
{
    if j < count {
        words::signed_four_at(bytes, from + 4 * j)
    } else {
        0
    }
}

// The parameters of a block, 0 where it has none. Four calls: the clause of `array::from_fn` speaks of runs of its closure, and is no plainer.
pub fn parameters_at(bytes: &[u8], at: usize, kind: Kind) -> [i32; 4]
    requires { (at + 3) + content_length (kind_of (byte_of kind)) ≤ length bytes.now }
    ensures { result ≡ four_of (parameters_at bytes.now at (kind_of (byte_of kind))) }
{
    let d = kind.digital_inputs();
    let a = kind.analog_inputs();
    let count = kind.parameters();
    let from = at + 5 + 3 * (d + a);
    [
        parameter_at(bytes, from, count, 0),
        parameter_at(bytes, from, count, 1),
        parameter_at(bytes, from, count, 2),
        parameter_at(bytes, from, count, 3),
    ]
}

// The inputs and parameters of a block.
fn judge_known(reach: &Reach, bytes: &[u8], at: usize, kind: Kind) -> Result<(), Refusal>
    requires { (at + 3) + content_length (kind_of (byte_of kind)) ≤ length bytes.now }
    ensures { number_in result ≡ lowest (known_faults reach.now.limits bytes.now at (byte_of kind) (reach.now.blocks + 1) reach.now.n reach.now.sorts.now) }
{
    judge_inputs(reach, bytes, at, kind)?;
    if kind.parameters() == 0 {
        return Ok(());
    }
    if !kind.allows(parameters_at(bytes, at, kind)) {
        return Err(Refusal::Parameter);
    }
    Ok(())
}

// The parameter at a place, 0 for a negative one.
fn amount_at(bytes: &[u8], at: usize) -> usize
    requires { at + 4 ≤ length bytes.now }
    ensures { result ≡ over (signed_at bytes.now at) }
{
    words::signed_four_at(bytes, at).max(0) as usize
}

// The mark of a shift register whose index is in its range.
pub fn index_mark(bytes: &[u8], at: usize) -> usize
    requires { (index_from at + 4 ≤ length bytes.now) × Between (pos 1) (pos 4) (signed_at bytes.now (index_from at)) }
    ensures { (result ≡ index_mark bytes.now at) × (result < 4) }
{
    amount_at(bytes, at + 14) - 1
}

// The kind of a block; `registers` are the marks of the shift registers before.
#[tactic(auto, unfolding(crate::specs::BlockField::block_faults, crate::specs::BlockField::wrong_length, crate::specs::BlockField::wrong_kind))]
pub fn judge_block(
    reach: &Reach,
    field: &Field,
    stage: Stage,
    registers: &[bool; 4],
) -> Result<Kind, Refusal>
    ensures number { number_in result ≡ lowest (block_faults reach.now.limits field.now.bytes.now field.now.at field.now.size (stage_of stage) reach.now.n reach.now.blocks reach.now.sorts.now (get_or registers.now (index_mark field.now.bytes.now field.now.at) false)) }
    ensures kind { IfOk result (λ kind. byte_of kind ≡ kind_at field.now.bytes.now field.now.at) }
{
    if stage == Stage::Opening {
        return Err(Refusal::TagOrLength);
    }
    if stage == Stage::AmongRows {
        return Err(Refusal::TagOrLength);
    }
    if field.size == 0 {
        return Err(Refusal::TagOrLength);
    }
    let byte = field.bytes[field.at + 3];
    if wrong_length(byte, field.size) {
        return Err(Refusal::TagOrLength);
    }
    if reach.n <= reach.blocks {
        return Err(Refusal::NumberOfBlocks);
    }
    let Ok(kind) = Kind::try_from(byte) else {
        return Err(Refusal::KindOrOption);
    };
    if wrong_option(kind, field.bytes[field.at + 4]) {
        return Err(Refusal::KindOrOption);
    }
    judge_known(reach, field.bytes, field.at, kind)?;
    if kind != Kind::ShiftRegister {
        return Ok(kind);
    }
    if registers[index_mark(field.bytes, field.at)] {
        return Err(Refusal::IndexUsedTwice);
    }
    Ok(kind)
}
