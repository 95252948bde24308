// What the starts and latch store in a record.
#![tactic(auto)]

ghost use Rattle.std.specs.Prelude.{◌≡◌, cond, ◌+◌, ◌≤◌, ◌<◌, get_or, length, pos};
ghost use Rattle.rules.specs.Rules.{three};
ghost use Rattle.decoding.specs.Decoded.{block_at};
ghost use Rattle.lines.specs.Lines.{line_of};
ghost use Rattle.record.specs.Places.{mark, flag, size_of, put, put_words, change};
ghost use Rattle.record.specs.Written.{lines_at};
ghost use Rattle.calls.specs.Calls.{cold_word, warm_word, latch_word};
ghost use Rattle.effects.specs.Cleared.{cleared_up_to};

use record::{Place, Plan};

// The mark and M8 become 1.
fn begin(rec: &mut [i32])
    ensures { rec.new ≡ put (put rec.old mark (pos 1)) (flag 8) (pos 1) }
{
    record::put(rec, Place::Mark, 1);
    record::put(rec, Place::Flag(8), 1);
}

// What an accepted cold start does.
pub fn cold_words(rec: &mut [i32])
    requires { 164 ≤ length rec.old }
    ensures { rec.new ≡ change cold_word rec.old }
{
    rec.fill(0);
    begin(rec);
}

// What an accepted latch does.
pub fn latch_words(rec: &mut [i32], inputs: &[i32], e: i32)
    requires { (164 ≤ length rec.old) × (length inputs.now ≡ 32) }
    ensures { rec.new ≡ change (latch_word inputs.now e) rec.old }
{
    record::put_all(rec, Place::Input(1), inputs);
    record::put(rec, Place::Elapsed, e);
    record::put(rec, Place::Phase, 1);
}

// Zeroes the words of the block behind the first d, where it is not retentive.
fn clear_block(plan: &Plan, rec: &mut [i32], d: usize)
    requires { d < plan.now.n }
    ensures { let line = line_of (block_at plan.now.bytes.now (get_or plan.now.offsets.now d 0)) in
        rec.new ≡ cond line.retentive rec.old (put_words rec.old (d + 1) (three (pos 0) (pos 0) (pos 0))) }
{
    if !plan.line(d).retentive {
        record::put_words(rec, (d + 1) as u16, rules::three_of(0, 0, 0));
    }
}

// Those of all blocks.
fn clear_blocks(plan: &Plan, rec: &mut [i32])
    ensures { rec.new ≡ cleared_up_to plan.now.bytes.now plan.now.offsets.now plan.now.n rec.old }
{
    for d in 0..plan.n {
        clear_block(plan, rec, d);
    }
}

// What an accepted warm start does.
pub fn warm_words(plan: &Plan, rec: &mut [i32])
    requires { length rec.old ≡ size_of plan.now.n }
    ensures { rec.new ≡ change (warm_word (lines_at plan.now.bytes.now plan.now.n plan.now.offsets.now)) rec.old }
{
    clear_blocks(plan, rec);
    record::clear_before(rec, Place::Output(1));
    begin(rec);
}
