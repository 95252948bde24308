// Where each word of a run record stands, and when a record is sound. No other crate writes a word's place as a number.
#![tactic(auto)]

mod place;
mod plan;
mod sound;

ghost use Rattle.std.specs.Prelude.{◌≡◌, ◌+◌, ◌≤◌, ◌<◌, ◌^◌, length, set, pos};
ghost use Rattle.words.specs.Signed.{over, bit_of};
ghost use Rattle.kinds.specs.Time.{ticks};
ghost use Rattle.record.specs.Places.{phase, done, mark, elapsed, size_of, index_of, at, word, put, words_of, put_words};
ghost use Rattle.record.specs.Sound.{in_scan};
ghost use Rattle.record.specs.Written.{put_all, nothing};
ghost use Rattle.record.specs.Said.{said};

use kinds::Ticks;
pub use place::Place;
pub use plan::Plan;
use rules::BlockWords;
pub use sound::{are_within, is_sound, is_within};

// ---- one word

// The word at an index, 0 past the end.
fn word_at(rec: &[i32], i: usize) -> i32
    ensures { result ≡ at rec.now i }
{
    rec.get(i).copied().unwrap_or(0)
}

// The word at a place, 0 past the end.
pub fn word(rec: &[i32], place: Place) -> i32
    ensures { result ≡ word rec.now (said place) }
{
    word_at(rec, place.index())
}

// Stores a word at an index; nothing past the end.
fn put_word(rec: &mut [i32], i: usize, z: i32)
    ensures { rec.new ≡ set rec.old i z }
{
    if i < rec.len() {
        rec[i] = z;
    }
}

// Stores a word at a place; nothing past the end.
pub fn put(rec: &mut [i32], place: Place, z: i32)
    ensures { rec.new ≡ put rec.old (said place) z }
{
    put_word(rec, place.index(), z);
}

// How many words the record of n blocks has.
pub fn size_of(n: usize) -> usize
    requires { n ≤ 400 }
    ensures { result ≡ size_of n }
{
    place::BLOCKS + 3 * n
}

// Whether the phase is 1.
pub fn in_scan(rec: &[i32]) -> bool
    ensures { result ≡ in_scan rec.now }
{
    word(rec, Place::Phase) != 0
}

// Blocks done.
pub fn done_of(rec: &[i32]) -> usize
    ensures { (result ≡ over (word rec.now done)) × (result < 2 ^ 31) }
{
    word(rec, Place::Done).max(0) as usize
}

// Whether the first-scan mark is 1.
pub fn is_marked(rec: &[i32]) -> bool
    ensures { result ≡ bit_of (word rec.now mark) }
{
    word(rec, Place::Mark) != 0
}

// e, as the ticks since the last latch.
pub fn elapsed_of(rec: &[i32]) -> Ticks
    ensures { (result ≡ ticks (over (word rec.now elapsed))) × (result.0 < 2 ^ 31) }
{
    Ticks(word(rec, Place::Elapsed).max(0) as u32)
}

// ---- the three words of a block

// Those of block k.
pub fn words_of(rec: &[i32], k: u16) -> BlockWords
    ensures { result ≡ words_of rec.now k }
{
    BlockWords {
        output: word(rec, Place::Output(k)),
        remembered: word(rec, Place::Remembered(k)),
        number: word(rec, Place::Number(k)),
    }
}

// Stores those of block k.
pub fn put_words(rec: &mut [i32], k: u16, w: BlockWords)
    ensures { rec.new ≡ put_words rec.old k w }
{
    put(rec, Place::Output(k), w.output);
    put(rec, Place::Remembered(k), w.remembered);
    put(rec, Place::Number(k), w.number);
}

// ---- words one after the other

// Stores words one after the other, from an index on; none past the end. Word by word: `copy_from_slice` calls a routine that the archive would need
// from outside.
fn put_run(rec: &mut [i32], a: usize, from: &[i32])
    requires { (a ≤ length rec.old) × (length from.now ≤ 2000) }
    ensures { rec.new ≡ put_all rec.old a (length from.now) (at from.now) }
{
    for i in 0..from.len() {
        put_word(rec, a + i, word_at(from, i));
    }
}

// From a place on.
#[tactic(auto, using(crate::proofs::Runs::from_cut))]
pub fn put_all(rec: &mut [i32], first: Place, from: &[i32])
    requires { length from.now ≤ 2000 }
    ensures { rec.new ≡ put_all rec.old (index_of (said first)) (length from.now) (at from.now) }
{
    let start = first.index().min(rec.len());
    put_run(rec, start, from);
}

// The output words, which stand from 0 on.
pub fn put_outputs(outs: &mut [i32], from: &[i32])
    requires { length from.now ≤ 2000 }
    ensures { outs.new ≡ put_all outs.old 0 (length from.now) (at from.now) }
{
    put_run(outs, 0, from);
}

// Zeroes the words before a place.
#[tactic(auto, using(crate::proofs::Runs::front_cleared), unfolding(crate::specs::Places::index_of))]
pub fn clear_before(rec: &mut [i32], place: Place)
    ensures { rec.new ≡ put_all rec.old (index_of phase) (index_of (said place)) nothing }
{
    let end = place.index().min(rec.len());
    rec[..end].fill(0);
}
