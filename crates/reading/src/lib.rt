// Reads a supplier's rows as a circuit: all rows are judged first, then their fields are written. Each pass splits a row once.
#![tactic(auto)]

mod first_pass;
mod second_pass;

ghost use Rattle.std.specs.Prelude.{◌≡◌, length};
ghost use Rattle.refusals.specs.Answers.{answer_of};
ghost use Rattle.rows.specs.Reading.{read_answer, circuit_after};

use first_pass::survey;
pub use first_pass::{Counted, Judged};
use refusals::{Answer, Refusal, Refused};
pub use second_pass::Placed;
use second_pass::{fill, put_head, put_header};
use splitting::Held;

// Judges a text and puts its circuit; tells how many bytes were written and how many rows read.
fn read(text: &[u8], circuit: &mut [u8]) -> Result<(usize, usize), Refused>
    ensures answer { answer_of result ≡ read_answer text.now (length circuit.old) }
    ensures circuit { circuit.new ≡ circuit_after text.now circuit.old }
{
    let mut held = Held::new(text);
    let counted = survey(&mut held, circuit.len())?;
    let are_too_many = 400 < counted.blocks;
    if are_too_many {
        return Err(Refusal::TooManyBlocks.into());
    }
    if counted.left.is_none() {
        return Err(Refusal::NoRoom.into());
    }
    put_header(circuit, counted.blocks);
    let end = fill(&mut held, circuit);
    put_head(circuit, end, 0x7F, 0);
    Ok((end + 3, counted.rows))
}

// The answer to a text. Where it is accepted, the lent slice begins with the circuit.
pub fn read_rows(text: &[u8], circuit: &mut [u8]) -> Answer
    ensures { (result ≡ read_answer text.now (length circuit.old))
        × (circuit.new ≡ circuit_after text.now circuit.old) }
{
    Answer::from(read(text, circuit))
}
