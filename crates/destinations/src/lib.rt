// What each output and each flag gets from the rows.
#![tactic(auto)]

ghost use Rattle.std.specs.Prelude.{◌≡◌, cond, ◌+◌, ◌≤◌, ◌<◌, leb, length, set, replicate, pos};
ghost use Rattle.fields.specs.Codes.{class_code};
ghost use Rattle.fields.specs.Fields.{class_at, number_in};
ghost use Rattle.decoding.specs.Decoded.{row_at};
ghost use Rattle.decoding.specs.Held.{rows_at};
ghost use Rattle.record.specs.Places.{flag, put, change};
ghost use Rattle.destinations.specs.Destinations.{M, carried, outputs_of, publish_word};
ghost use Rattle.destinations.specs.Slots.{base, base_in_bits, slot, filled, Aimed, Rows};

use fields::Destination;
use lines::Input;
use record::Place;

// Slots, one for each destination: Q, AQ, then the flags as they stand in a record, M and AM.
const SLOTS: usize = 156;

// Those of the outputs, Q and AQ.
pub const OUTPUTS: usize = 28;

// The slots before those of a class. Not the marks of `fields`: the two count the classes in different orders.
// `bits`: as the table `base_in_bits` says, whose law (`base-bits`) so holds this code.
#[tactic(auto, using(crate::proofs::Bits::base_told), unfolding(crate::specs::Slots::base))]
fn base_of(class: Destination) -> usize
    ensures is { result ≡ base (class_code class) }
    ensures bits { result ≡ base_in_bits (class_code class) }
{
    match class {
        Destination::Output => 0,
        Destination::AnalogOutput => 20,
        Destination::Flag => 28,
        Destination::AnalogFlag => 92,
    }
}

// The slot of a destination.
fn slot_of(class: Destination, number: usize) -> usize
    requires { Aimed (class_code class) number }
    ensures { (result ≡ slot (class_code class) number) × (result < 156) }
{
    base_of(class) + (number - 1)
}

// Whether bits go to a class, and not numbers.
fn is_digital(class: Destination) -> bool
    ensures { result ≡ leb (class_code class) M }
{
    matches!(class, Destination::Output | Destination::Flag)
}

// The class of what the row at a place goes to.
fn class_of(bytes: &[u8], at: usize) -> Destination
    requires { (at + 8 ≤ length bytes.now) × Aimed (class_at bytes.now at) (number_in bytes.now at) }
    ensures { class_code result ≡ class_at bytes.now at }
{
    let Ok(class) = Destination::try_from(bytes[at + 3]) else {
        unreachable!()
    };
    class
}

// What the row at a place carries: a bit or a number, by the class of what it goes to.
fn carried_by(bytes: &[u8], at: usize, class: Destination, rec: &[i32]) -> i32
    requires { (at + 8 ≤ length bytes.now) × (class_code class ≡ class_at bytes.now at) }
    ensures { result ≡ carried rec.now (row_at bytes.now at) }
{
    let from = Input {
        class: bytes[at + 5],
        number: words::two_at(bytes, at + 6) as u16,
    };
    if is_digital(class) {
        steps::bit_from(rec, false, from) as i32
    } else {
        steps::value_from(rec, from)
    }
}

// The slot of the row at a place becomes what the row carries.
fn fill_row(bytes: &[u8], at: usize, rec: &[i32], slots: &mut [i32; SLOTS])
    requires { (at + 8 ≤ length bytes.now) × Aimed (class_at bytes.now at) (number_in bytes.now at) }
    ensures { slots.new ≡ set slots.old (slot (class_at bytes.now at) (number_in bytes.now at)) (carried rec.now (row_at bytes.now at)) }
{
    let class = class_of(bytes, at);
    let slot = slot_of(class, bytes[at + 4] as usize);
    slots[slot] = carried_by(bytes, at, class, rec);
}

// The slots of all rows, the last row first, so that a destination gets what its first row carries.
fn fill_rows(bytes: &[u8], start: usize, count: usize, rec: &[i32], slots: &mut [i32; SLOTS])
    requires { Rows bytes.now start count × (slots.old ≡ replicate 156 (pos 0)) }
    ensures { slots.new ≡ filled (rows_at bytes.now start count) rec.now }
{
    for row in (0..count).rev() {
        fill_row(bytes, start + 8 * row, rec, slots);
    }
}

// M8 becomes 0 when the mark was 1.
fn clear_eighth(rec: &mut [i32], marked: bool)
    ensures { rec.new ≡ cond marked (put rec.old (flag 8) (pos 0)) rec.old }
{
    if marked {
        record::put(rec, Place::Flag(8), 0);
    }
}

// What an accepted publish does: every destination is worked out from the old words, then outputs and flags are written at once, then
// mark, phase, blocks done and e.
pub fn publish_words(bytes: &[u8], start: usize, count: usize, rec: &mut [i32], outs: &mut [i32])
    requires { Rows bytes.now start count × (164 ≤ length rec.old) × (length outs.old ≡ 28) }
    ensures { (rec.new ≡ change (publish_word (rows_at bytes.now start count) rec.old) rec.old)
        × (outs.new ≡ outputs_of (rows_at bytes.now start count) rec.old) }
{
    let marked = record::is_marked(rec);
    let mut slots = [0; SLOTS];
    fill_rows(bytes, start, count, rec, &mut slots);
    let (shown, flags) = slots.split_at(OUTPUTS);
    record::put_outputs(outs, shown);
    record::put_all(rec, Place::Flag(1), flags);
    clear_eighth(rec, marked);
    record::clear_before(rec, Place::Input(1));
}
