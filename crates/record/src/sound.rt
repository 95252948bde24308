ghost use Rattle.std.specs.Prelude.{◌≡◌, ◌+◌, ◌≤◌, ◌<◌, get_or, length};
ghost use Rattle.kinds.specs.Kinds.{◌to◌, in_range};
ghost use Rattle.blockfield.specs.Marked.{Lies};
ghost use Rattle.decoding.specs.Decoded.{block_at};
ghost use Rattle.lines.specs.Lines.{line_of};
ghost use Rattle.record.specs.Places.{size_of, index_of, word};
ghost use Rattle.record.specs.Said.{said};
ghost use Rattle.record.specs.Sound.{at_rest, sound};
ghost use Rattle.record.specs.Written.{all_fit, head_fits, fixed_fit, block_fits, blocks_fit, lines_at};

use crate::in_scan;
use crate::place::{ANALOG_FLAGS, ANALOGS, BLOCKS, FLAGS, INPUTS, Place};
use crate::plan::Plan;

// The word at a place that the record has: no test of the length, which `word` makes each time.
fn held(rec: &[i32], place: Place) -> i32
    requires { index_of (said place) < length rec.now }
    ensures { result ≡ word rec.now (said place) }
{
    rec[place.index()]
}

// Whether a word lies between two ends.
pub fn is_within(z: i32, least: i32, greatest: i32) -> bool
    ensures { result ≡ in_range (least to greatest) z }
{
    (least..=greatest).contains(&z)
}

// Whether all of some words do.
pub fn are_within(words: &[i32], least: i32, greatest: i32) -> bool
    ensures { result ≡ all_fit (least to greatest) words.now }
{
    words.iter().all(|z| is_within(*z, least, greatest))
}

// Whether phase, blocks done, mark and e are in their ranges, for n blocks.
#[tactic(auto, unfolding(crate::specs::Places::index_of, crate::specs::Written::head_fits))]
fn head_fits(rec: &[i32], n: usize) -> bool
    requires { (n ≤ 400) × (size_of 0 ≤ length rec.now) }
    ensures { result ≡ head_fits n rec.now }
{
    is_within(held(rec, Place::Phase), 0, 1)
        & is_within(held(rec, Place::Done), 0, n as i32)
        & is_within(held(rec, Place::Mark), 0, 1)
        & is_within(held(rec, Place::Elapsed), 0, 65535)
}

// Whether all words but those of blocks are in their ranges, for n blocks.
#[tactic(auto, using(crate::proofs::Runs::part_fits), unfolding(crate::specs::Places::index_of, crate::specs::Written::fixed_fit))]
fn fixed_fit(rec: &[i32], n: usize) -> bool
    requires { (n ≤ 400) × (size_of 0 ≤ length rec.now) }
    ensures { result ≡ fixed_fit n rec.now }
{
    head_fits(rec, n)
        & are_within(&rec[INPUTS..ANALOGS], 0, 1)
        & are_within(&rec[ANALOGS..FLAGS], 0, 1000)
        & are_within(&rec[FLAGS..ANALOG_FLAGS], 0, 1)
        & are_within(&rec[ANALOG_FLAGS..BLOCKS], -32768, 32767)
}

// Whether the three words of block k, which stands at a place of the bytes, are in their ranges.
#[tactic(auto, unfolding(lines::specs::Lines::line_of, crate::specs::Places::index_of, crate::specs::Written::block_fits))]
fn block_fits(bytes: &[u8], at: usize, rec: &[i32], k: u16) -> bool
    requires { Lies bytes.now at × (size_of k ≤ length rec.now) }
    ensures { result ≡ block_fits (line_of (block_at bytes.now at)) rec.now k }
{
    let kind = lines::kind_at(bytes, at);
    let time = lines::time_at(bytes, at);
    let output = kind.output_fits(held(rec, Place::Output(k)));
    let remembered = kind.remembered_fits(held(rec, Place::Remembered(k)));
    let number = kind.number_fits(time, held(rec, Place::Number(k)));
    output & (remembered & number)
}

// Whether those of all blocks are.
fn blocks_fit(plan: &Plan, rec: &[i32]) -> bool
    requires { length rec.now ≡ size_of plan.now.n }
    ensures { result ≡ blocks_fit plan.now.bytes.now plan.now.n plan.now.offsets.now rec.now }
{
    let mut ok = true;
    for d in 0..plan.n {
        ok &= block_fits(plan.bytes, plan.offsets[d], rec, (d + 1) as u16);
    }
    ok
}

// Whether blocks done and e are 0.
#[tactic(auto, unfolding(crate::specs::Places::index_of))]
fn at_rest(rec: &[i32]) -> bool
    requires { size_of 0 ≤ length rec.now }
    ensures { result ≡ at_rest rec.now }
{
    (held(rec, Place::Done) == 0) & (held(rec, Place::Elapsed) == 0)
}

// Whether a record is sound for the blocks of a circuit.
#[tactic(auto, using(crate::proofs::Split::parts))]
pub fn is_sound(plan: &Plan, rec: &[i32]) -> bool
    requires { length rec.now ≡ size_of plan.now.n }
    ensures { result ≡ sound (lines_at plan.now.bytes.now plan.now.n plan.now.offsets.now) rec.now }
{
    let fixed = fixed_fit(rec, plan.n);
    let blocks = blocks_fit(plan, rec);
    fixed & blocks & (in_scan(rec) | at_rest(rec))
}
