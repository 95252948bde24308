ghost use Rattle.std.specs.Prelude.{◌≡◌, ◌≤◌, length};
ghost use Rattle.circuit.specs.Read.{Reads};

use refusals::{Field, Refusal};

// The fields of a circuit from a place on.
#[derive(Clone, Copy)]
pub struct Fields<'a> {
    bytes: &'a [u8],
    at: usize,
    ghost within: { at ≤ length bytes.now },
}

impl<'a> Fields<'a> {
    // All of them.
    pub fn new(bytes: &'a [u8]) -> Self
        ensures { (result.bytes.now ≡ bytes.now) × (result.at ≡ 0) }
    {
        Fields { bytes, at: 0 }
    }

    // Where the next one begins.
    pub fn place(&self) -> usize
        ensures { result ≡ self.now.at }
    {
        self.at
    }

    // The next one, unless the bytes end inside it.
    pub fn read(&mut self) -> Result<Field<'a>, Refusal>
        ensures same { self.new.bytes.now ≡ self.old.bytes.now }
        ensures reads { Reads self.old.bytes.now self.old.at result self.new.at }
    {
        let left = self.bytes.len() - self.at;
        if left < 3 {
            return Err(Refusal::CutShort);
        }
        let size = words::two_at(self.bytes, self.at + 1);
        if left - 3 < size {
            return Err(Refusal::CutShort);
        }
        let field = Field {
            bytes: self.bytes,
            at: self.at,
            size,
        };
        self.at = field.end();
        Ok(field)
    }
}
