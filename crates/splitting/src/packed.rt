// The numbers of a row: whether they fit, and their bytes in a field.
ghost use Rattle.std.specs.Prelude.{◌≡◌, List, ℕ, ◌+◌, ◌*◌, ◌≤◌, length, drop};
ghost use Rattle.std.proofs.lemmas.List.Edits.{sets};
ghost use Rattle.std.specs.Int.{w32};
ghost use Rattle.std.proofs.Common.{of_z};
ghost use Rattle.digits.specs.Numbers.{number_read, value_of};
ghost use Rattle.rows.specs.Columns.{packed, widths, numbers_fit, numbers_bytes};
ghost use Rattle.rows.specs.Widths.{width_at};
ghost use Rattle.splitting.specs.Found.{SaysOf};

use crate::Held;
use digits::Number;
use rows::Shape;

// The 32 bits of a number; 0 for none.
fn bits_of(number: Option<Number>) -> u32
    requires { (number_read number).size ≤ 2147483648 }
    ensures { result ≡ of_z w32 (value_of (number_read number)) }
{
    match number {
        Some(n) if n.negative => n.size.wrapping_neg(),
        Some(n) => n.size,
        None => 0,
    }
}

// Puts a number into one, two or four bytes; nothing at a width that no number has, for which `packed` has no bytes to put.
fn put_packed(circuit: &mut [u8], to: usize, width: usize, number: Option<Number>)
    requires room { to + width ≤ length circuit.old }
    requires small { (number_read number).size ≤ 2147483648 }
    ensures { (inputs j : ℕ) → width ≡ width_at inputs j → circuit.new ≡ sets circuit.old to (packed width (value_of (number_read number))) }
{
    let bits = bits_of(number);
    match width {
        4 => words::put_four(circuit, to, bits),
        2 => words::put_two(circuit, to, bits as usize),
        1 => circuit[to] = (bits & 255) as u8,
        _ => {}
    }
}

impl<'a> Held<'a> {
    // Whether each number behind the tag is one for its place.
    pub fn numbers_fit(&self, shape: Shape) -> bool
        ensures { (cells : List (List ℕ)) → SaysOf self.now.text.now self.now.spans cells → 3 + 2 * shape.inputs + shape.parameters ≤ length cells
            → result ≡ numbers_fit (widths shape.inputs shape.parameters) (drop 1 cells) }
    {
        for j in 0..rows::numbers_in(shape.inputs, shape.parameters) {
            if self.said(j + 1, rows::width_at(shape.inputs, j)).is_none() {
                return false;
            }
        }
        true
    }

    // Puts the numbers behind the tag at a place.
    pub fn put_numbers(&self, circuit: &mut [u8], to: usize, shape: Shape)
        requires { to + (2 + 3 * shape.inputs + 4 * shape.parameters) ≤ length circuit.old }
        ensures { (cells : List (List ℕ)) → SaysOf self.now.text.now self.now.spans cells → 3 + 2 * shape.inputs + shape.parameters ≤ length cells
            → circuit.new ≡ sets circuit.old to (numbers_bytes (widths shape.inputs shape.parameters) (drop 1 cells)) }
    {
        let mut place = to;
        for j in 0..rows::numbers_in(shape.inputs, shape.parameters) {
            let width = rows::width_at(shape.inputs, j);
            put_packed(circuit, place, width, self.said(j + 1, width));
            place += width;
        }
    }
}
