// Writes an accepted circuit as rows: its text is measured first, then written.
// Sizes and puts stay apart, each put with slice and place: one sink for both is no plainer, as room, place and their laws stand in every clause.
#![tactic(auto)]

mod label;
mod numbers;

ghost use Rattle.std.specs.Prelude.{◌≡◌, [], ◌∷◌, ◌+◌, ◌≤◌, ◌<◌, length, MatchOption};
ghost use Rattle.std.proofs.lemmas.List.Edits.{sets};
ghost use Rattle.refusals.specs.Answers.{answer_of};
ghost use Rattle.rows.specs.Shape.{known_shape};
ghost use Rattle.rows.specs.Writing.{write_answer, text_after};
ghost use Rattle.writing.specs.Walked.{shape_at, row_at, next_at, rows_at, Stands, Run};

use decoding::Known;
use kinds::Kind;
use label::{put_tail, tail_size};
use numbers::{numbers_size, put_numbers};
use refusals::{Answer, OURS, Refusal, Refused};
use rows::Shape;

// How many bytes of text, or the place behind them, and where the circuit goes on.
#[derive(Clone, Copy)]
pub struct Cursor {
    pub to: usize,
    pub at: usize,
}

// The shape of the entry at a place.
fn shape_at(bytes: &[u8], at: usize) -> Shape
    requires { Stands bytes.now at }
    ensures { known_shape result ≡ shape_at bytes.now at }
{
    if bytes[at] != 0x10 {
        return rows::output_shape();
    }
    rows::block_shape(Kind::try_from(bytes[at + 3]).unwrap())
}

// How many bytes the row of the entry at a place takes, and where the next one begins.
fn row_size(bytes: &[u8], at: usize) -> Cursor
    requires { Stands bytes.now at }
    ensures { (result.to ≡ length (row_at bytes.now at)) × (result.at ≡ next_at bytes.now at) }
{
    let shape = shape_at(bytes, at);
    let count = rows::numbers_in(shape.inputs, shape.parameters);
    let numbers = numbers_size(bytes, at + 3, shape.inputs, count);
    let tail = tail_size(bytes, numbers.at, shape.labelled);
    Cursor {
        to: 4 + numbers.to + tail.to,
        at: tail.at,
    }
}

// Puts a line end, and gives the place behind it.
fn put_line_end(text: &mut [u8], to: usize) -> usize
    requires { to + 2 ≤ length text.old }
    ensures { (result ≡ to + 2) × (text.new ≡ sets text.old to (13 ∷ 10 ∷ [])) }
{
    text[to] = b'\r';
    text[to + 1] = b'\n';
    to + 2
}

// Puts the row of the entry at a place.
fn put_row(bytes: &[u8], at: usize, text: &mut [u8], to: usize) -> Cursor
    requires { Stands bytes.now at × (to + length (row_at bytes.now at) ≤ length text.old) }
    ensures { (result.to ≡ to + length (row_at bytes.now at)) × (result.at ≡ next_at bytes.now at)
        × (text.new ≡ sets text.old to (row_at bytes.now at)) }
{
    let shape = shape_at(bytes, at);
    let count = rows::numbers_in(shape.inputs, shape.parameters);
    let tag = digits::put_decimal(text, to, shape.tag as u32);
    let numbers = put_numbers(bytes, at + 3, shape.inputs, count, text, tag);
    let tail = put_tail(bytes, numbers.at, shape.labelled, text, numbers.to);
    let behind = put_line_end(text, tail.to);
    Cursor {
        to: behind,
        at: tail.at,
    }
}

// What so many bytes leave of a room, if they do not go over it.
fn left_of(room: usize, size: usize) -> Option<usize>
    ensures { MatchOption result (room < size) (λ left. left + size ≡ room) }
{
    room.checked_sub(size)
}

// How much the rows of the first `count` entries leave of a room; none where they do not fit.
fn measure(bytes: &[u8], count: usize, room: usize) -> Option<usize>
    requires { Run bytes.now count 6 }
    ensures { MatchOption result (room < length (rows_at bytes.now count 6)) (λ left. left + length (rows_at bytes.now count 6) ≡ room) }
{
    let mut at = 6;
    let mut free = room;
    for _ in 0..count {
        let row = row_size(bytes, at);
        free = left_of(free, row.to)?;
        at = row.at;
    }
    Some(free)
}

// Puts the rows of the first `entries` entries.
fn fill(bytes: &[u8], entries: usize, text: &mut [u8])
    requires { Run bytes.now entries 6 × (length (rows_at bytes.now entries 6) ≤ length text.old) }
    ensures { text.new ≡ sets text.old 0 (rows_at bytes.now entries 6) }
{
    let mut at = 6;
    let mut to = 0;
    for _ in 0..entries {
        let row = put_row(bytes, at, text, to);
        at = row.at;
        to = row.to;
    }
}

// Judges a circuit and puts its rows; tells how many bytes and how many rows were written.
fn write(circuit: &[u8], text: &mut [u8]) -> Result<(usize, usize), Refused>
    ensures answer { answer_of result ≡ write_answer circuit.now (length text.old) }
    ensures text { text.new ≡ text_after circuit.now text.old }
{
    let mut known = Known::new();
    circuit::judge(OURS, circuit, &mut known)?;
    let count = known.n + known.rows;
    let room = text.len();
    let left = measure(circuit, count, room).ok_or(Refusal::NoRoom)?;
    fill(circuit, count, text);
    Ok((room - left, count))
}

// The answer to a circuit. Where it is accepted, the lent text begins with its rows.
pub fn write_rows(circuit: &[u8], text: &mut [u8]) -> Answer
    ensures { (result ≡ write_answer circuit.now (length text.old))
        × (text.new ≡ text_after circuit.now text.old) }
{
    Answer::from(write(circuit, text))
}
