// The cells that are held of a row, and what each says as a number.
ghost use Rattle.std.specs.Prelude.{◌≡◌, ℕ, ◌≤◌, ◌<◌, ◌+◌, length, cond, ltb, set};
ghost use Rattle.digits.specs.Numbers.{number_of, number_read};
ghost use Rattle.rows.specs.Columns.{said_in};
ghost use Rattle.splitting.specs.Spans.{starts_of, sizes_of, LiesIn};
ghost use Rattle.splitting.specs.Found.{text_at};

use cells::Cell;
use digits::Number;

// Where the text of a cell stands: its first byte, and how many bytes.
#[derive(Clone, Copy)]
pub struct Span {
    pub start: usize,
    pub size: usize,
}

// How many cells are held: no row that is taken has more. An array and the row's count beside it, as the archive has no heap.
const HELD: usize = 16;

// The first cells of a row of a text, each within the text.
#[derive(Drop)]
pub struct Held<'a> {
    pub text: &'a [u8],
    pub spans: [Span; 16],
    ghost long: { length spans ≡ 16 },
    ghost inside: { (j : ℕ) → LiesIn spans (length text.now) j },
}

impl<'a> Held<'a> {
    // Nothing is held of the text yet.
    pub fn new(text: &'a [u8]) -> Self
        ensures { result.text ≡ text.entry }
    {
        Held {
            text,
            spans: [Span { start: 0, size: 0 }; 16],
        }
    }

    // Holds cell k, if it is one of the first.
    pub fn hold(&mut self, k: usize, c: Cell)
        requires { c.start + c.size ≤ length self.old.text.now }
        ensures text { self.new.text ≡ self.old.text }
        ensures starts { starts_of self.new.spans ≡ cond (ltb k 16) (set (starts_of self.old.spans) k c.start) (starts_of self.old.spans) }
        ensures sizes { sizes_of self.new.spans ≡ cond (ltb k 16) (set (sizes_of self.old.spans) k c.size) (sizes_of self.old.spans) }
    {
        if k < HELD {
            self.spans[k] = Span {
                start: c.start,
                size: c.size,
            };
        }
    }

    // The text of cell j, as it stands.
    #[tactic(auto, using(crate::proofs::Spans::spans))]
    pub fn text_of(&self, j: usize) -> &[u8]
        requires { j < 16 }
        ensures { result.now ≡ text_at self.now.text.now self.now.spans j }
    {
        let span = self.spans[j];
        &self.text[span.start..span.start + span.size]
    }

    // The number from -below to above that it says.
    pub fn number(&self, j: usize, below: u32, above: u32) -> Option<Number>
        requires { j < 16 }
        ensures { number_read result ≡ number_of below above (text_at self.now.text.now self.now.spans j) }
    {
        digits::number_of(self.text_of(j), below, above)
    }

    // The number that it says for a place of so many bytes.
    #[tactic(auto, unfolding(rows::specs::Columns::said_in))]
    pub fn said(&self, j: usize, width: usize) -> Option<Number>
        requires { j < 16 }
        ensures { number_read result ≡ said_in width (text_at self.now.text.now self.now.spans j) }
    {
        self.number(j, rows::below_of(width), rows::above_of(width))
    }
}
