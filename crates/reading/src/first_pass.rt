// The rows judged and counted, up to the first with a fault.
ghost use Rattle.std.specs.Prelude.{◌≡◌, ◌+◌, ◌-◌, ◌≤◌, ◌<◌, Ok, true, cond, ltb, length};
ghost use Rattle.rows.specs.Shape.{known_shape};
ghost use Rattle.rows.specs.Columns.{columns_of};
ghost use Rattle.splitting.specs.Spans.{starts_of, sizes_of};
ghost use Rattle.reading.specs.Counted.{mark_in, label_in, label_sized, judged_of, counted_of, surveyed_of, is_over, rest_of, opened_with, counted_with, Looks, Judges, Surveys};

use refusals::{Refusal, Refused};
use rows::Shape;
use splitting::Held;

// A row that was judged: how many bytes its fields take; whether it is a block's; where the next row begins.
#[derive(Clone, Copy)]
pub struct Judged {
    pub size: usize,
    pub block: bool,
    pub next: usize,
}

// What was counted: rows; blocks; how much of the room their fields leave, and none where they go over it.
#[derive(Clone, Copy)]
pub struct Counted {
    pub rows: usize,
    pub blocks: usize,
    pub left: Option<usize>,
}

// How many cells a row of a shape has.
#[tactic(auto, unfolding(rows::specs::Columns::columns_of, rows::specs::Columns::numbers_in))]
fn columns(shape: Shape) -> usize
    ensures { result ≡ columns_of (known_shape shape) }
{
    let numbers = rows::numbers_in(shape.inputs, shape.parameters);
    if shape.labelled {
        1 + numbers + 2
    } else {
        1 + numbers
    }
}

// How many bytes the field of the label takes that cells j and j + 1 say, where mark and label fit.
fn label_size(held: &Held, j: usize, quoted: bool) -> Option<usize>
    requires { j + 1 < 16 }
    ensures { Looks (mark_in held.now.text.now (starts_of held.now.spans) (sizes_of held.now.spans) j)
        (label_in held.now.text.now (starts_of held.now.spans) (sizes_of held.now.spans) (j + 1) quoted) (label_sized result) }
{
    let mark = held.number(j, 0, 1)?;
    let size = splitting::content_size(held.text_of(j + 1), quoted);
    let is_empty = size == 0;
    match mark.size {
        0 if is_empty => Some(0),
        1 if size <= 16 => Some(3 + size),
        _ => None,
    }
}

// Judges the row at a position.
fn judge(held: &mut Held, at: usize) -> Result<Judged, Refusal>
    requires { at < length held.old.text.now }
    ensures text { held.new.text ≡ held.old.text }
    ensures judges { Judges held.old.text.now at (judged_of result) }
{
    let row = held.split(at).ok_or(Refusal::Quote)?;
    let shape = held.shape(row.count).ok_or(Refusal::TagKindOrColumns)?;
    if row.count != columns(shape) {
        return Err(Refusal::TagKindOrColumns);
    }
    if !held.numbers_fit(shape) {
        return Err(Refusal::NumberOrLabel);
    }
    let size = 5 + 3 * shape.inputs + 4 * shape.parameters;
    if !shape.labelled {
        return Ok(Judged {
            size,
            block: false,
            next: row.next,
        });
    }
    let label = label_size(held, row.count - 2, row.quoted).ok_or(Refusal::NumberOrLabel)?;
    Ok(Judged {
        size: size + label,
        block: true,
        next: row.next,
    })
}

// What so many bytes leave of a room, if it has not been gone over and they do not go over it.
#[tactic(auto, using(crate::proofs::Counting::tests))]
fn left_of(room: Option<usize>, size: usize) -> Option<usize>
    ensures over { is_over result ≡ cond (ltb (rest_of room) size) true (is_over room) }
    ensures rest { rest_of result ≡ rest_of room - size }
{
    room?.checked_sub(size)
}

impl Counted {
    // Before the first row: header and end take nine bytes of the room.
    fn new(room: usize) -> Self
        ensures { counted_of result ≡ opened_with room }
    {
        Counted {
            rows: 0,
            blocks: 0,
            left: left_of(Some(room), 9),
        }
    }

    // One row more.
    fn with(self, row: Judged) -> Self
        requires { (self.rows < 18446744073709551615) × (self.blocks ≤ self.rows) }
        ensures { counted_of result ≡ counted_with (counted_of self) (judged_of (Ok row)) }
    {
        Counted {
            rows: self.rows + 1,
            blocks: self.blocks + row.block as usize,
            left: left_of(self.left, row.size),
        }
    }
}

// Judges and counts the rows up to the first with a fault. A `while`: how far a row goes is known when it is split.
pub fn survey(held: &mut Held, room: usize) -> Result<Counted, Refused>
    ensures text { held.new.text ≡ held.old.text }
    ensures surveys { Surveys held.old.text.now room (surveyed_of result) }
{
    let mut counted = Counted::new(room);
    let mut at = 0;
    while at < held.text.len() {
        match judge(held, at) {
            Ok(row) => {
                counted = counted.with(row);
                at = row.next;
            }
            Err(refusal) => return Err(refusal.at(counted.rows + 1)),
        }
    }
    Ok(counted)
}
