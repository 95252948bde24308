// A row split to its end, and its shape.
ghost use Rattle.std.specs.Prelude.{◌≡◌, List, ℕ, ◌<◌, length};
ghost use Rattle.rows.specs.Columns.{shape_of};
ghost use Rattle.rows.specs.Shape.{shape_said};
ghost use Rattle.splitting.specs.Spans.{starts_of, sizes_of};
ghost use Rattle.splitting.specs.Found.{found_of, SaysOf, Finds};

use crate::Held;
use cells::Ending;
use kinds::Kind;
use rows::Shape;

// A whole row: how many cells it has, whether the last stands in quotes, and where the next row begins.
#[derive(Clone, Copy)]
pub struct Row {
    pub count: usize,
    pub quoted: bool,
    pub next: usize,
}

impl<'a> Held<'a> {
    // Splits the row at a position to its end, if it is whole, and holds its cells.
    pub fn split(&mut self, at: usize) -> Option<Row>
        requires { at < length self.old.text.now }
        ensures text { self.new.text ≡ self.old.text }
        ensures finds { Finds self.old.text.now at (found_of result) (starts_of self.new.spans) (sizes_of self.new.spans) }
    {
        let mut count = 0;
        let mut cursor = at;
        loop {
            let cell = cells::cell_from(self.text, cursor);
            self.hold(count, cell);
            count += 1;
            match cell.how {
                Ending::Comma => cursor = cell.next,
                Ending::Broken => return None,
                _ => {
                    return Some(Row {
                        count,
                        quoted: cell.quoted,
                        next: cell.next,
                    });
                }
            }
        }
    }

    // The shape of a row of `count` cells, by its tag and its kind; none where one is unknown.
    pub fn shape(&self, count: usize) -> Option<Shape>
        requires { 0 < count }
        ensures { (cells : List (List ℕ)) → SaysOf self.now.text.now self.now.spans cells → count ≡ length cells → shape_said result ≡ shape_of cells }
    {
        match self.said(0, 1)?.size {
            0x30 => Some(rows::output_shape()),
            0x10 if 2 <= count => {
                let kind = Kind::try_from(self.said(1, 1)?.size as u8).ok()?;
                Some(rows::block_shape(kind))
            }
            _ => None,
        }
    }
}
