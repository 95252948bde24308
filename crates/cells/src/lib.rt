// Cells of a text by RFC 4180, handed out as start and length. Knows nothing of numbers or circuits.
#![tactic(auto)]

ghost use Rattle.std.specs.Prelude.{◌≡◌, ℕ, List, ◌+◌, ◌≤◌, ◌<◌, ◌^◌, length, drop};
ghost use Rattle.cells.specs.Cells.{ending_of, cell_of, ending, ending_size, stops, plain_size, quoted_size, finish, closed, cell_at};

// How a cell ends: by the end of the text, a comma, LF, CRLF; or not at all. No `Option`: a broken cell has a start, a size and a next place too.
#[derive(Clone, Copy)]
pub enum Ending {
    Text,
    Comma,
    Lf,
    Crlf,
    Broken,
}

// Where the text of a cell starts and how many bytes it has; whether it stands in quotes; how the cell ends; where the next begins.
#[derive(Clone, Copy)]
pub struct Cell {
    pub start: usize,
    pub size: usize,
    pub quoted: bool,
    pub how: Ending,
    pub next: usize,
}

impl Ending {
    // How many bytes it takes.
    #[tactic(auto, unfolding(crate::specs::Cells::ending_size))]
    fn size(self) -> usize
        ensures { result ≡ ending_size (ending_of self) }
    {
        match self {
            Ending::Comma | Ending::Lf => 1,
            Ending::Crlf => 2,
            Ending::Text | Ending::Broken => 0,
        }
    }
}

// The bytes of a text from a place on.
fn bytes_from(text: &[u8], at: usize) -> &[u8]
    ensures { result.now ≡ drop at text.now }
{
    &text[at.min(text.len())..]
}

// How a cell ends whose text stands before these bytes.
#[tactic(auto, unfolding(crate::specs::Cells::ending, crate::specs::Cells::starts, crate::specs::Cells::none))]
fn ending_before(rest: &[u8]) -> Ending
    ensures { ending_of result ≡ ending rest.now }
{
    match rest {
        [] => Ending::Text,
        [b',', ..] => Ending::Comma,
        [b'\n', ..] => Ending::Lf,
        [b'\r', b'\n', ..] => Ending::Crlf,
        _ => Ending::Broken,
    }
}

// Whether a plain cell's text stops before these bytes.
#[tactic(auto, unfolding(crate::specs::Cells::stops, crate::specs::Cells::ending, crate::specs::Cells::starts, crate::specs::Cells::none))]
fn stops(rest: &[u8]) -> bool
    ensures { result ≡ stops rest.now }
{
    matches!(rest, [] | [b'"' | b',' | b'\n', ..] | [b'\r', b'\n', ..])
}

// How many bytes of text a plain cell has that these bytes begin with. Three bytes stop it, and CR may: what is behind is looked at there alone.
#[tactic(auto, using(crate::proofs::Laws::plain_steps, std::proofs::lemmas::List::take_rest))]
fn plain_size(rest: &[u8]) -> usize
    ensures { (result ≡ plain_size rest.now) × (result ≤ length rest.now) }
{
    for (i, b) in rest.iter().enumerate() {
        if *b == b',' || *b == b'"' || *b == b'\n' || *b == b'\r' && stops(&rest[i..]) {
            return i;
        }
    }
    rest.len()
}

// How many bytes of text a quoted cell has that these bytes begin with, behind its opening quote.
#[tactic(auto, using(crate::proofs::Laws::quoted_steps, std::proofs::lemmas::List::take_rest))]
fn quoted_size(rest: &[u8]) -> usize
    ensures { (result ≡ quoted_size rest.now) × (result ≤ length rest.now) }
{
    let mut size = 0;
    loop {
        match &rest[size..] {
            [b, ..] if *b != b'"' => size += 1,
            [b'"', b'"', ..] => size += 2,
            _ => return size,
        }
    }
}

// A cell whose text ends at e, before these bytes, with its ending.
#[tactic(auto, unfolding(crate::specs::Cells::finish), using(crate::proofs::Laws::ending_fits))]
fn finished(behind: &[u8], quoted: bool, start: usize, size: usize, e: usize) -> Cell
    requires { e + length behind.now < 2 ^ 64 }
    ensures { (text : List ℕ) → behind.now ≡ drop e text → cell_of result ≡ finish text quoted start size e }
{
    let how = ending_before(behind);
    Cell {
        start,
        size,
        quoted,
        how,
        next: e + how.size(),
    }
}

// The quoted cell whose text begins at `start`, with these bytes.
fn quoted_cell(rest: &[u8], start: usize) -> Cell
    requires { start + length rest.now < 2 ^ 64 }
    ensures { (text : List ℕ) → rest.now ≡ drop start text → cell_of result ≡ closed text start (quoted_size (drop start text)) }
{
    let size = quoted_size(rest);
    let e = start + size;
    match &rest[size..] {
        [b'"', behind @ ..] => finished(behind, true, start, size, e + 1),
        _ => Cell {
            start,
            size,
            quoted: true,
            how: Ending::Broken,
            next: e,
        },
    }
}

// The cell at a position.
fn cell_at(text: &[u8], at: usize) -> Cell
    ensures { cell_of result ≡ cell_at text.now at }
{
    let rest = bytes_from(text, at);
    match rest {
        [b'"', rest @ ..] => quoted_cell(rest, at + 1),
        _ => {
            let size = plain_size(rest);
            finished(&rest[size..], false, at, size, at + size)
        }
    }
}

// The caller's bytes and a position.
#[derive(Drop)]
pub struct Reader<'a> {
    pub text: &'a [u8],
    pub at: usize,
}

impl<'a> Reader<'a> {
    // A reader of a text, at a position.
    pub fn new(text: &'a [u8], at: usize) -> Self
        ensures { (result.text ≡ text.entry) × (result.at ≡ at) }
    {
        Reader { text, at }
    }

    // The cell at its position.
    pub fn next_cell(&self) -> Cell
        ensures { cell_of result ≡ cell_at self.now.text.now self.now.at }
    {
        cell_at(self.text, self.at)
    }

    // Its position.
    pub fn position(&self) -> usize
        ensures { result ≡ self.now.at }
    {
        self.at
    }

    // The reader of the same text at another position.
    pub fn moved(&self, at: usize) -> Self
        ensures { (result.text ≡ self.now.text) × (result.at ≡ at) }
    {
        Reader {
            text: self.text,
            at,
        }
    }
}

// The cell at a position of a text, for whoever holds no reader.
pub fn cell_from(text: &[u8], at: usize) -> Cell
    ensures { cell_of result ≡ cell_at text.now at }
{
    Reader::new(text, at).next_cell()
}
