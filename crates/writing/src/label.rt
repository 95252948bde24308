// Mark and label of a block, where a label's field may stand. A size and a put for each part, as the root says.
ghost use Rattle.std.specs.Prelude.{◌≡◌, [], ◌∷◌, ◌+◌, ◌≤◌, ◌<◌, length};
ghost use Rattle.std.proofs.lemmas.List.Edits.{sets};
ghost use Rattle.cells.specs.Cells.{double, special, any_special, write_cell};
ghost use Rattle.words.specs.Bytes.{number_at};
ghost use Rattle.writing.specs.Walked.{between, tail_text, tail_end};

use crate::Cursor;

// Whether a byte makes its cell want quotes.
#[tactic(auto, unfolding(cells::specs::Cells::special))]
fn is_special(x: u8) -> bool
    ensures { result ≡ special x }
{
    matches!(x, b',' | b'"' | b'\r' | b'\n')
}

// Whether the bytes of a label want quotes.
#[tactic(auto, using(crate::proofs::Cell::any_steps))]
fn any_special(label: &[u8]) -> bool
    ensures { result ≡ any_special label.now }
{
    for x in label {
        if is_special(*x) {
            return true;
        }
    }
    false
}

// How many bytes they take between quotes.
#[tactic(auto, using(crate::proofs::Cell::double_sizes))]
fn double_size(label: &[u8]) -> usize
    requires { length label.now ≤ 65536 }
    ensures { (result ≡ length (double label.now)) × (result ≤ 131072) }
{
    let mut size = 0;
    for x in label {
        size += if *x == b'"' { 2 } else { 1 };
    }
    size
}

// How many bytes their cell takes.
#[tactic(auto, using(crate::proofs::Cell::cell_sizes))]
fn cell_size(label: &[u8]) -> usize
    requires { length label.now ≤ 65536 }
    ensures { (result ≡ length (write_cell label.now)) × (result ≤ 131074) }
{
    if any_special(label) {
        return double_size(label) + 2;
    }
    label.len()
}

// Puts a byte as it stands between quotes, and gives the place behind it.
#[tactic(auto, using(crate::proofs::Cell::doubles))]
fn put_byte(text: &mut [u8], to: usize, x: u8) -> usize
    requires { to + length (double (x ∷ [])) ≤ length text.old }
    ensures { (result ≡ to + length (double (x ∷ []))) × (text.new ≡ sets text.old to (double (x ∷ []))) }
{
    if x == b'"' {
        text[to] = x;
        text[to + 1] = x;
        return to + 2;
    }
    text[to] = x;
    to + 1
}

// Puts the bytes of a label as they stand between quotes.
fn put_double(label: &[u8], text: &mut [u8], to: usize) -> usize
    requires { to + length (double label.now) ≤ length text.old }
    ensures { (result ≡ to + length (double label.now)) × (text.new ≡ sets text.old to (double label.now)) }
{
    let mut behind = to;
    for x in label {
        behind = put_byte(text, behind, *x);
    }
    behind
}

// Puts their cell.
fn put_cell(label: &[u8], text: &mut [u8], to: usize) -> usize
    requires { to + length (write_cell label.now) ≤ length text.old }
    ensures { (result ≡ to + length (write_cell label.now)) × (text.new ≡ sets text.old to (write_cell label.now)) }
{
    if !any_special(label) {
        return put_double(label, text, to);
    }
    text[to] = b'"';
    let close = put_double(label, text, to + 1);
    text[close] = b'"';
    close + 1
}

// The label whose field stands at a place.
#[tactic(auto, using(crate::proofs::Field::lengths))]
fn label_at(bytes: &[u8], at: usize) -> &[u8]
    requires { (at + 3 ≤ length bytes.now) × (at + 3 + number_at 2 bytes.now (at + 1) ≤ length bytes.now) }
    ensures is { result.now ≡ between bytes.now (at + 3) (at + 3 + number_at 2 bytes.now (at + 1)) }
    ensures size { (length result.now ≡ number_at 2 bytes.now (at + 1)) × (length result.now < 65536) }
{
    let start = at + 3;
    &bytes[start..start + words::two_at(bytes, at + 1)]
}

// How many bytes mark and label take with their commas, and where the label's field ends.
pub fn tail_size(bytes: &[u8], at: usize, labelled: bool) -> Cursor
    requires { (at + 3 ≤ length bytes.now) × (tail_end labelled bytes.now at ≤ length bytes.now) }
    ensures { (result.to ≡ length (tail_text labelled bytes.now at)) × (result.at ≡ tail_end labelled bytes.now at)
        × (result.to ≤ 131077) }
{
    if !labelled {
        return Cursor { to: 0, at };
    }
    if bytes[at] != 0x20 {
        return Cursor { to: 3, at };
    }
    let label = label_at(bytes, at);
    Cursor {
        to: 3 + cell_size(label),
        at: at + 3 + label.len(),
    }
}

// Puts a mark between its commas, and gives the place behind it.
fn put_mark(text: &mut [u8], to: usize, mark: u8) -> usize
    requires { to + 3 ≤ length text.old }
    ensures { (result ≡ to + 3) × (text.new ≡ sets text.old to (44 ∷ mark ∷ 44 ∷ [])) }
{
    text[to] = b',';
    text[to + 1] = mark;
    text[to + 2] = b',';
    to + 3
}

// Puts mark and label with their commas.
pub fn put_tail(bytes: &[u8], at: usize, labelled: bool, text: &mut [u8], to: usize) -> Cursor
    requires { (at + 3 ≤ length bytes.now) × (tail_end labelled bytes.now at ≤ length bytes.now)
        × (to + length (tail_text labelled bytes.now at) ≤ length text.old) }
    ensures { (result.to ≡ to + length (tail_text labelled bytes.now at)) × (result.at ≡ tail_end labelled bytes.now at)
        × (text.new ≡ sets text.old to (tail_text labelled bytes.now at)) }
{
    if !labelled {
        return Cursor { to, at };
    }
    if bytes[at] != 0x20 {
        let bare = put_mark(text, to, b'0');
        return Cursor { to: bare, at };
    }
    let label = label_at(bytes, at);
    let cell = put_mark(text, to, b'1');
    let behind = put_cell(label, text, cell);
    Cursor {
        to: behind,
        at: at + 3 + label.len(),
    }
}
