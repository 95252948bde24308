// The numbers of a field, each behind a comma. A size and a put for each part, as the root says.
ghost use Rattle.std.specs.Prelude.{◌≡◌, ◌+◌, ◌≤◌, length};
ghost use Rattle.std.proofs.lemmas.List.Edits.{sets};
ghost use Rattle.std.specs.Int.{w32};
ghost use Rattle.std.proofs.Common.{to_z};
ghost use Rattle.words.specs.Bytes.{number_at};
ghost use Rattle.writing.specs.Walked.{Wide, number_text, numbers_text, numbers_end};

use crate::Cursor;

// The number of 1, 2 or 4 bytes at a place.
fn number_at(bytes: &[u8], at: usize, width: usize) -> i32
    requires { (at + width ≤ length bytes.now) × Wide width }
    ensures { result ≡ to_z w32 (number_at width bytes.now at) }
{
    match width {
        1 => bytes[at] as i32,
        2 => words::two_at(bytes, at) as i32,
        _ => words::signed_four_at(bytes, at),
    }
}

// How many bytes the number takes with its comma.
#[tactic(auto, unfolding(crate::specs::Walked::number_text))]
fn number_size(bytes: &[u8], at: usize, width: usize) -> usize
    requires { (at + width ≤ length bytes.now) × Wide width }
    ensures { (result ≡ length (number_text (to_z w32 (number_at width bytes.now at)))) × (result ≤ 12) }
{
    1 + digits::signed_size(number_at(bytes, at, width))
}

// Puts it with its comma, and gives the place behind it.
#[tactic(auto, using(crate::proofs::Field::passed))]
fn put_number(bytes: &[u8], at: usize, width: usize, text: &mut [u8], to: usize) -> usize
    requires { (at + width ≤ length bytes.now) × Wide width
        × (to + length (number_text (to_z w32 (number_at width bytes.now at))) ≤ length text.old) }
    ensures { (result ≡ to + length (number_text (to_z w32 (number_at width bytes.now at))))
        × (text.new ≡ sets text.old to (number_text (to_z w32 (number_at width bytes.now at)))) }
{
    text[to] = b',';
    digits::put_signed(text, to + 1, number_at(bytes, at, width))
}

// How many bytes the numbers of a field take with their commas, and where they end.
pub fn numbers_size(bytes: &[u8], at: usize, inputs: usize, count: usize) -> Cursor
    requires { (inputs ≤ 4) × (count ≤ 13) × (numbers_end inputs count 0 at ≤ length bytes.now) }
    ensures { (result.to ≡ length (numbers_text inputs bytes.now count 0 at)) × (result.at ≡ numbers_end inputs count 0 at)
        × (result.to ≤ 156) }
{
    let mut size = 0;
    let mut place = at;
    for j in 0..count {
        let width = rows::width_at(inputs, j);
        size += number_size(bytes, place, width);
        place += width;
    }
    Cursor {
        to: size,
        at: place,
    }
}

// Puts them with their commas.
pub fn put_numbers(
    bytes: &[u8],
    at: usize,
    inputs: usize,
    count: usize,
    text: &mut [u8],
    to: usize,
) -> Cursor
    requires { (inputs ≤ 4) × (numbers_end inputs count 0 at ≤ length bytes.now)
        × (to + length (numbers_text inputs bytes.now count 0 at) ≤ length text.old) }
    ensures { (result.to ≡ to + length (numbers_text inputs bytes.now count 0 at)) × (result.at ≡ numbers_end inputs count 0 at)
        × (text.new ≡ sets text.old to (numbers_text inputs bytes.now count 0 at)) }
{
    let mut behind = to;
    let mut place = at;
    for j in 0..count {
        let width = rows::width_at(inputs, j);
        behind = put_number(bytes, place, width, text, behind);
        place += width;
    }
    Cursor {
        to: behind,
        at: place,
    }
}
