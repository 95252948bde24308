ghost use Rattle.std.specs.Prelude.{◌≡◌, ◌<◌, get_or};
ghost use Rattle.decoding.specs.Decoded.{block_at};
ghost use Rattle.lines.specs.Lines.{line_of, line_said};
ghost use Rattle.record.specs.Written.{Stand};

use lines::Line;

// The blocks of a circuit: its bytes, and where each of the n stands in them.
#[derive(Clone, Copy)]
pub struct Plan<'a> {
    pub bytes: &'a [u8],
    pub offsets: &'a [usize; 400],
    pub n: usize,
    ghost stand: { Stand bytes.now n offsets.now },
}

impl<'a> Plan<'a> {
    // The line of the block behind the first d.
    pub fn line(&self, d: usize) -> Line
        requires { d < self.now.n }
        ensures { line_said result ≡ line_of (block_at self.now.bytes.now (get_or self.now.offsets.now d 0)) }
    {
        lines::line_at(self.bytes, self.offsets[d])
    }
}
