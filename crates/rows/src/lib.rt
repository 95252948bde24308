// What rows of cells mean. Definitions for the reader and the writer, and the shape of a row by the table of kinds.
#![tactic(auto)]

ghost use Rattle.std.specs.Prelude.{◌≡◌, ◌+◌, ◌*◌, ◌≤◌, ◌<◌};
ghost use Rattle.kinds.specs.Codes.{byte_of};
ghost use Rattle.rows.specs.Shape.{known_shape};
ghost use Rattle.rows.specs.Columns.{block_shape, output_shape, below_of, above_of};
ghost use Rattle.rows.specs.Widths.{width_at};

mod shape;

use kinds::Kind;
pub use shape::Shape;

// The shape of a block of a kind.
#[tactic(auto, using(kinds::proofs::Rows::small), unfolding(crate::specs::Columns::block_shape))]
pub fn block_shape(kind: Kind) -> Shape
    ensures { (known_shape result ≡ block_shape (byte_of kind)) × (result.inputs ≤ 4) × (2 * result.inputs + result.parameters ≤ 11) }
{
    Shape {
        tag: 0x10,
        inputs: kind.digital_inputs() + kind.analog_inputs(),
        parameters: kind.parameters(),
        labelled: true,
    }
}

// The shape of an output row.
#[tactic(auto, unfolding(crate::specs::Columns::output_shape))]
pub fn output_shape() -> Shape
    ensures { known_shape result ≡ output_shape }
{
    Shape {
        tag: 0x30,
        inputs: 1,
        parameters: 0,
        labelled: false,
    }
}

// How many numbers follow the tag. By the two counts and not by a `Shape`, as those who write the numbers walk over them by their place.
pub fn numbers_in(inputs: usize, parameters: usize) -> usize
    requires { 2 * inputs + parameters ≤ 11 }
    ensures { result ≡ 2 + 2 * inputs + parameters }
{
    2 + 2 * inputs + parameters
}

// How many bytes number j behind the tag takes, from 0. A number and not an enum: `below_of` and `above_of` answer for every width.
#[tactic(auto, unfolding(crate::specs::Widths::width_at))]
pub fn width_at(inputs: usize, j: usize) -> usize
    requires { inputs ≤ 4 }
    ensures { result ≡ width_at inputs j }
{
    if j < 2 {
        1
    } else if 2 + 2 * inputs <= j {
        4
    } else if j & 1 == 0 {
        1
    } else {
        2
    }
}

// How far below 0 a number of so many bytes goes.
#[tactic(auto, unfolding(crate::specs::Columns::below_of))]
pub fn below_of(width: usize) -> u32
    ensures { result ≡ below_of width }
{
    match width {
        4 => 2147483648,
        _ => 0,
    }
}

// How far above 0. Two functions with `below_of`, as there are two definitions.
#[tactic(auto, unfolding(crate::specs::Columns::above_of))]
pub fn above_of(width: usize) -> u32
    ensures { result ≡ above_of width }
{
    match width {
        4 => 2147483647,
        2 => 65535,
        _ => 255,
    }
}
