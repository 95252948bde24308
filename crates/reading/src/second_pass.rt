// The fields of rows without a fault, put at a place.
ghost use Rattle.std.specs.Prelude.{◌≡◌, List, ◌∷◌, ℕ, ◌+◌, ◌*◌, ◌≤◌, ◌<◌, length, drop};
ghost use Rattle.std.proofs.lemmas.List.Edits.{sets};
ghost use Rattle.words.specs.Bytes.{bytes_of};
ghost use Rattle.kept.specs.Keeps.{joined, field};
ghost use Rattle.rows.specs.Text.{rows_of};
ghost use Rattle.rows.specs.Columns.{widths, numbers_bytes, row_number, fields_of};
ghost use Rattle.rows.specs.Reading.{reading_from, sound};
ghost use Rattle.splitting.specs.Spans.{starts_of, sizes_of};
ghost use Rattle.splitting.specs.Found.{SaysOf};
ghost use Rattle.reading.specs.Counted.{row_at, label_field_in, Puts};

use rows::Shape;
use splitting::Held;

// A row that was put: where its fields end, and where the next row begins.
#[derive(Clone, Copy)]
pub struct Placed {
    pub end: usize,
    pub next: usize,
}

// Puts a field's tag and the size of its content at a place.
pub fn put_head(circuit: &mut [u8], to: usize, tag: u8, size: usize)
    requires { to + 3 ≤ length circuit.old }
    ensures { circuit.new ≡ sets circuit.old to (tag ∷ bytes_of 2 size) }
{
    circuit[to] = tag;
    words::put_two(circuit, to + 1, size);
}

// Puts the field of a row's numbers at a place; answers where it ends.
fn put_field(held: &Held, shape: Shape, circuit: &mut [u8], to: usize) -> usize
    requires { to + (5 + 3 * shape.inputs + 4 * shape.parameters) ≤ length circuit.old }
    ensures { ((cells : List (List ℕ)) → SaysOf held.now.text.now held.now.spans cells → 3 + 2 * shape.inputs + shape.parameters ≤ length cells
        → circuit.new ≡ sets circuit.old to (field shape.tag (numbers_bytes (widths shape.inputs shape.parameters) (drop 1 cells))))
        × (result ≡ to + (5 + 3 * shape.inputs + 4 * shape.parameters)) }
{
    let size = 2 + 3 * shape.inputs + 4 * shape.parameters;
    put_head(circuit, to, shape.tag, size);
    held.put_numbers(circuit, to + 3, shape);
    to + 3 + size
}

// Puts the field of the label that cells j and j + 1 say, where they say one; answers where it ends.
fn put_label(held: &Held, j: usize, quoted: bool, circuit: &mut [u8], to: usize) -> usize
    requires few { j + 1 < 16 }
    requires room { to + length (label_field_in held.now.text.now (starts_of held.now.spans) (sizes_of held.now.spans) j quoted) ≤ length circuit.old }
    ensures { (circuit.new ≡ sets circuit.old to (label_field_in held.now.text.now (starts_of held.now.spans) (sizes_of held.now.spans) j quoted))
        × (result ≡ to + length (label_field_in held.now.text.now (starts_of held.now.spans) (sizes_of held.now.spans) j quoted)) }
{
    match held.number(j, 0, 1) {
        Some(mark) if mark.size == 1 => {
            let size = splitting::put_content(circuit, to + 3, held.text_of(j + 1), quoted);
            put_head(circuit, to, 0x20, size);
            to + 3 + size
        }
        _ => to,
    }
}

// Puts the fields of the row at a position, which has no fault.
fn put_row(held: &mut Held, at: usize, circuit: &mut [u8], to: usize) -> Placed
    requires place { at < length held.old.text.now }
    requires sound { row_number (row_at held.old.text.now at) ≡ 0 }
    requires room { to + length (fields_of (row_at held.old.text.now at)) ≤ length circuit.old }
    ensures text { held.new.text ≡ held.old.text }
    ensures puts { Puts held.old.text.now at to result circuit.old circuit.new }
{
    let row = held.split(at).unwrap();
    let shape = held.shape(row.count).unwrap();
    let mut end = put_field(held, shape, circuit, to);
    if shape.labelled {
        end = put_label(held, row.count - 2, row.quoted, circuit, end);
    }
    Placed {
        end,
        next: row.next,
    }
}

// Puts the fields of all rows behind the header; answers where they end. A `while`, as in the first pass.
pub fn fill(held: &mut Held, circuit: &mut [u8]) -> usize
    requires sound { reading_from 1 (rows_of held.old.text.now) ≡ sound }
    requires room { 6 + length (joined fields_of (rows_of held.old.text.now)) ≤ length circuit.old }
    ensures { (circuit.new ≡ sets circuit.old 6 (joined fields_of (rows_of held.old.text.now)))
        × (result ≡ 6 + length (joined fields_of (rows_of held.old.text.now))) }
{
    let mut at = 0;
    let mut to = 6;
    while at < held.text.len() {
        let placed = put_row(held, at, circuit, to);
        to = placed.end;
        at = placed.next;
    }
    to
}

// The header of a circuit of so many blocks.
pub fn put_header(circuit: &mut [u8], blocks: usize)
    requires { 6 ≤ length circuit.old }
    ensures { circuit.new ≡ sets circuit.old 0 (field 0x01 (1 ∷ bytes_of 2 blocks)) }
{
    put_head(circuit, 0, 0x01, 3);
    circuit[3] = 1;
    words::put_two(circuit, 4, blocks);
}
