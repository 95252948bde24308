ghost use Rattle.std.specs.Prelude.{◌≡◌, not, ◌&&◌, [], ◌∷◌, eqb, ◌-◌, length};
ghost use Rattle.refusals.specs.Faults.{◌when◌, lowest};
ghost use Rattle.refusals.specs.Answers.{answer_of};
ghost use Rattle.refusals.specs.Refusals.{number_in};
ghost use Rattle.record.specs.Places.{size_of};
ghost use Rattle.record.specs.Sound.{sound, in_scan};
ghost use Rattle.record.specs.Written.{lines_at};
ghost use Rattle.steps.specs.Steps.{done_of};
ghost use Rattle.calls.specs.Calls.{cold_start, warm_start, latch as latch_call, run as run_call, publish as publish_call, is_reading, answer_after, record_after, outputs_after};
ghost use Rattle.scan.specs.Opened.{Opens};

use decoding::Known;
use destinations::OUTPUTS;
use record::Plan;
use refusals::{OURS, Refusal, Refused};

// A reading: 24 bits, then 8 values; the greatest value, and the greatest e.
const READING: usize = 32;

const BITS: usize = 24;

const GREATEST_VALUE: i32 = 1000;

const GREATEST_E: i32 = 65535;

// Judges a record by its circuit.
fn judge_record(plan: &Plan, rec: &[i32]) -> Result<(), Refusal>
    ensures { let lines = lines_at plan.now.bytes.now plan.now.n plan.now.offsets.now in
        number_in result ≡ lowest (20 when not (eqb (length rec.now) (size_of plan.now.n)) ∷ 21 when not (sound lines rec.now) ∷ []) }
{
    if rec.len() != record::size_of(plan.n) {
        return Err(Refusal::RecordLength);
    }
    if !record::is_sound(plan, rec) {
        return Err(Refusal::RecordNotSound);
    }
    Ok(())
}

// Judges circuit and record. Where they are accepted, `known` then has what the circuit is made of.
fn open(circuit: &[u8], rec: &[i32], known: &mut Known) -> Result<(), Refused>
    ensures { Opens circuit.now rec.now result known.new }
{
    circuit::judge(OURS, circuit, known)?;
    let plan = Plan {
        bytes: circuit,
        offsets: &known.offsets,
        n: known.n,
    };
    judge_record(&plan, rec)?;
    Ok(())
}

// Whether 32 words and e are a reading.
fn is_reading(inputs: &[i32], e: i32) -> bool
    ensures { result ≡ is_reading inputs.now e }
{
    if inputs.len() != READING {
        return false;
    }
    let (bits, values) = inputs.split_at(BITS);
    record::are_within(bits, 0, 1)
        & (record::are_within(values, 0, GREATEST_VALUE) & record::is_within(e, 0, GREATEST_E))
}

// Whether a scan has no blocks to go.
fn is_finished(rec: &[i32], n: usize) -> bool
    ensures { result ≡ (in_scan rec.now && eqb (n - done_of rec.now) 0) }
{
    record::in_scan(rec) & (n <= record::done_of(rec))
}

// ---- the calls: first and second of the answer, or why it is refused. Each holds what is known and lends it: by value its 3.8 KB would be copied

pub fn cold_start(circuit: &[u8], rec: &mut [i32]) -> Result<(usize, usize), Refused>
    ensures { (answer_of result ≡ answer_after circuit.now cold_start rec.old)
        × (rec.new ≡ record_after circuit.now cold_start rec.old) }
{
    let mut known = Known::new();
    circuit::judge(OURS, circuit, &mut known)?;
    if rec.len() != record::size_of(known.n) {
        return Err(Refusal::RecordLength.into());
    }
    effects::cold_words(rec);
    Ok((0, 0))
}

pub fn warm_start(circuit: &[u8], rec: &mut [i32]) -> Result<(usize, usize), Refused>
    ensures { (answer_of result ≡ answer_after circuit.now warm_start rec.old)
        × (rec.new ≡ record_after circuit.now warm_start rec.old) }
{
    let mut known = Known::new();
    open(circuit, rec, &mut known)?;
    if record::in_scan(rec) {
        return Err(Refusal::WrongPhase.into());
    }
    let plan = Plan {
        bytes: circuit,
        offsets: &known.offsets,
        n: known.n,
    };
    effects::warm_words(&plan, rec);
    Ok((0, 0))
}

pub fn latch(
    circuit: &[u8],
    rec: &mut [i32],
    inputs: &[i32],
    e: i32,
) -> Result<(usize, usize), Refused>
    ensures { (answer_of result ≡ answer_after circuit.now (latch_call inputs.now e) rec.old)
        × (rec.new ≡ record_after circuit.now (latch_call inputs.now e) rec.old) }
{
    let mut known = Known::new();
    open(circuit, rec, &mut known)?;
    if record::in_scan(rec) {
        return Err(Refusal::WrongPhase.into());
    }
    if !is_reading(inputs, e) {
        return Err(Refusal::InputWords.into());
    }
    effects::latch_words(rec, inputs, e);
    Ok((0, 0))
}

pub fn run(circuit: &[u8], rec: &mut [i32], c: u32) -> Result<(usize, usize), Refused>
    ensures { (answer_of result ≡ answer_after circuit.now (run_call c) rec.old)
        × (rec.new ≡ record_after circuit.now (run_call c) rec.old) }
{
    let mut known = Known::new();
    open(circuit, rec, &mut known)?;
    if !record::in_scan(rec) {
        return Err(Refusal::WrongPhase.into());
    }
    let plan = Plan {
        bytes: circuit,
        offsets: &known.offsets,
        n: known.n,
    };
    let done = steps::turn(&plan, rec, c);
    Ok((done.worked, done.left))
}

pub fn publish(circuit: &[u8], rec: &mut [i32], outs: &mut [i32]) -> Result<(usize, usize), Refused>
    ensures { (answer_of result ≡ answer_after circuit.now (publish_call (length outs.old)) rec.old)
        × (rec.new ≡ record_after circuit.now (publish_call (length outs.old)) rec.old)
        × (outs.new ≡ outputs_after circuit.now (publish_call (length outs.old)) rec.old outs.old) }
{
    let mut known = Known::new();
    open(circuit, rec, &mut known)?;
    if !is_finished(rec, known.n) {
        return Err(Refusal::WrongPhase.into());
    }
    if outs.len() != OUTPUTS {
        return Err(Refusal::OutputWords.into());
    }
    destinations::publish_words(circuit, known.start, known.rows, rec, outs);
    Ok((0, 0))
}
