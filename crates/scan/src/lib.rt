// The calls on a record. Each judges circuit and record first, in the order of the numbers, and then has its one effect.
#![tactic(auto)]

ghost use Rattle.std.specs.Prelude.{◌≡◌, length};
ghost use Rattle.calls.specs.Calls.{cold_start, warm_start, latch as latch_call, run as run_call, publish as publish_call, answer_after, record_after, outputs_after};

mod judged;

use refusals::Answer;

// "Cold start zeroes all but M8 and the mark, which become 1."
pub fn cold_start(circuit: &[u8], rec: &mut [i32]) -> Answer
    ensures { (result ≡ answer_after circuit.now cold_start rec.old)
        × (rec.new ≡ record_after circuit.now cold_start rec.old) }
{
    judged::cold_start(circuit, rec).into()
}

// "Warm start does that and keeps the three words of retentive blocks."
pub fn warm_start(circuit: &[u8], rec: &mut [i32]) -> Answer
    ensures { (result ≡ answer_after circuit.now warm_start rec.old)
        × (rec.new ≡ record_after circuit.now warm_start rec.old) }
{
    judged::warm_start(circuit, rec).into()
}

// "Latch stores e and 32 input words (I, then analog) and makes the phase 1."
pub fn latch(circuit: &[u8], rec: &mut [i32], inputs: &[i32], e: i32) -> Answer
    ensures { (result ≡ answer_after circuit.now (latch_call inputs.now e) rec.old)
        × (rec.new ≡ record_after circuit.now (latch_call inputs.now e) rec.old) }
{
    judged::latch(circuit, rec, inputs, e).into()
}

// "Run up to c blocks": the next ones, as many as asked or as remain.
pub fn run(circuit: &[u8], rec: &mut [i32], c: u32) -> Answer
    ensures { (result ≡ answer_after circuit.now (run_call c) rec.old)
        × (rec.new ≡ record_after circuit.now (run_call c) rec.old) }
{
    judged::run(circuit, rec, c).into()
}

// "Publish writes 28 output words .. and all flags at once from the rows."
pub fn publish(circuit: &[u8], rec: &mut [i32], outs: &mut [i32]) -> Answer
    ensures { (result ≡ answer_after circuit.now (publish_call (length outs.old)) rec.old)
        × (rec.new ≡ record_after circuit.now (publish_call (length outs.old)) rec.old)
        × (outs.new ≡ outputs_after circuit.now (publish_call (length outs.old)) rec.old outs.old) }
{
    judged::publish(circuit, rec, outs).into()
}
