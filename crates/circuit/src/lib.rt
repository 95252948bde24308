// Judges the bytes of a circuit in one pass.
#![tactic(auto)]

ghost use Rattle.std.specs.Prelude.{◌≡◌};
ghost use Rattle.refusals.specs.Limited.{older};
ghost use Rattle.refusals.specs.Stages.{ended, stage_of};
ghost use Rattle.refusals.specs.Modest.{Modest};
ghost use Rattle.refusals.specs.Answers.{answer_of as result_answer};
ghost use Rattle.decoding.specs.Held.{Sound, head_of, seen, judged};
ghost use Rattle.circuit.specs.Circuit.{answer_at, answer_of};
ghost use Rattle.circuit.specs.Judged.{Answers, Says};

mod cursor;

use cursor::Fields;
use decoding::Known;
use refusals::{Answer, Limits, OLDER, OURS, Refusal, Refused, Stage};

// Takes the next field, by its tag. `known` and not an iterator: what comes next differs from field to field, and the end is a state and no length.
fn take_next(limits: &Limits, fields: &mut Fields, known: &mut Known) -> Result<(), Refusal>
    requires { Sound (head_of known.old) fields.old.at × Modest limits.now × (stage_of known.old.stage ≡ ended → ⊥) }
    ensures same { fields.new.bytes.now ≡ fields.old.bytes.now }
    ensures answers { Answers limits.now fields.old.bytes.now fields.old.at (seen known.old) (judged result fields.new.at (seen known.new)) }
{
    let field = fields.read()?;
    let tag = field.bytes[field.at];
    match tag {
        0x01 => known.header(limits, &field),
        0x10 => known.block(limits, &field),
        0x20 => known.label(&field),
        0x30 => known.row(limits, &field),
        0x7F => known.end(&field),
        _ => Err(Refusal::TagOrLength),
    }
}

// Judges a circuit. Where it is accepted, `known` then has what it is made of. For the crates above; not a call.
pub fn judge(limits: Limits, circuit: &[u8], known: &mut Known) -> Result<(), Refused>
    requires { Modest limits }
    ensures { Says limits circuit.now result known.new }
{
    known.begin();
    let mut fields = Fields::new(circuit);
    while known.stage != Stage::Ended {
        let place = fields.place();
        if let Err(refusal) = take_next(&limits, &mut fields, known) {
            return Err(refusal.at(place));
        }
    }
    let place = fields.place();
    if place < circuit.len() {
        return Err(Refusal::SurplusBytes.at(place));
    }
    Ok(())
}

// How many blocks and rows an accepted circuit has.
pub fn counts(limits: Limits, circuit: &[u8]) -> Result<(usize, usize), Refused>
    requires { Modest limits }
    ensures { result_answer result ≡ answer_at limits circuit.now }
{
    let mut known = Known::new();
    judge(limits, circuit, &mut known)?;
    Ok((known.n, known.rows))
}

// The same of `check`, which answers just this.
pub fn counts_of(circuit: &[u8]) -> Result<(usize, usize), Refused>
    ensures { result_answer result ≡ answer_of circuit.now }
{
    counts(OURS, circuit)
}

// The same of `check_profile`.
pub fn profile_counts_of(circuit: &[u8]) -> Result<(usize, usize), Refused>
    ensures { result_answer result ≡ answer_at older circuit.now }
{
    counts(OLDER, circuit)
}

// The answer to a circuit: refusal number and place, or blocks and rows.
pub fn check(circuit: &[u8]) -> Answer
    ensures { result ≡ answer_of circuit.now }
{
    Answer::from(counts_of(circuit))
}

// The same, at the limits of the series 0BA6.
pub fn check_profile(circuit: &[u8]) -> Answer
    ensures { result ≡ answer_at older circuit.now }
{
    Answer::from(profile_counts_of(circuit))
}
