// The C interface: one line a call, over the calls. include/serifdove.h has the promises in plain words.
#![tactic(auto)]

ghost use Rattle.std.specs.Prelude.{◌≡◌, length};
ghost use Rattle.refusals.specs.Limited.{older};
ghost use Rattle.circuit.specs.Circuit.{answer_at, answer_of};
ghost use Rattle.rows.specs.Reading.{read_answer, circuit_after};
ghost use Rattle.rows.specs.Writing.{write_answer, text_after};
ghost use Rattle.calls.specs.Calls.{cold_start, warm_start, latch, run, publish, answer_after, record_after, outputs_after};

use refusals::Answer;

// The answer to a circuit: refusal number and place, or blocks and rows.
#[unsafe(no_mangle)]
pub extern "C" fn serifdove_check(circuit: &[u8]) -> Answer
    ensures { result ≡ answer_of circuit.now }
{
    circuit::check(circuit)
}

// The same, at the limits of the series 0BA6.
#[unsafe(no_mangle)]
pub extern "C" fn serifdove_check_profile(circuit: &[u8]) -> Answer
    ensures { result ≡ answer_at older circuit.now }
{
    circuit::check_profile(circuit)
}

// A record as it is before the first scan.
#[unsafe(no_mangle)]
pub extern "C" fn serifdove_cold_start(circuit: &[u8], rec: &mut [i32]) -> Answer
    ensures { (result ≡ answer_after circuit.now cold_start rec.old)
        × (rec.new ≡ record_after circuit.now cold_start rec.old) }
{
    scan::cold_start(circuit, rec)
}

// The same, with the words of retentive blocks kept.
#[unsafe(no_mangle)]
pub extern "C" fn serifdove_warm_start(circuit: &[u8], rec: &mut [i32]) -> Answer
    ensures { (result ≡ answer_after circuit.now warm_start rec.old)
        × (rec.new ≡ record_after circuit.now warm_start rec.old) }
{
    scan::warm_start(circuit, rec)
}

// Opens a scan on one reading of the inputs.
#[unsafe(no_mangle)]
pub extern "C" fn serifdove_latch(circuit: &[u8], rec: &mut [i32], inputs: &[i32], e: i32) -> Answer
    ensures { (result ≡ answer_after circuit.now (latch inputs.now e) rec.old)
        × (rec.new ≡ record_after circuit.now (latch inputs.now e) rec.old) }
{
    scan::latch(circuit, rec, inputs, e)
}

// Works out the next blocks, up to c: how many were worked out, how many are to go.
#[unsafe(no_mangle)]
pub extern "C" fn serifdove_run(circuit: &[u8], rec: &mut [i32], c: u32) -> Answer
    ensures { (result ≡ answer_after circuit.now (run c) rec.old)
        × (rec.new ≡ record_after circuit.now (run c) rec.old) }
{
    scan::run(circuit, rec, c)
}

// Closes a scan: outputs and flags at once.
#[unsafe(no_mangle)]
pub extern "C" fn serifdove_publish(circuit: &[u8], rec: &mut [i32], outs: &mut [i32]) -> Answer
    ensures { (result ≡ answer_after circuit.now (publish (length outs.old)) rec.old)
        × (rec.new ≡ record_after circuit.now (publish (length outs.old)) rec.old)
        × (outs.new ≡ outputs_after circuit.now (publish (length outs.old)) rec.old outs.old) }
{
    scan::publish(circuit, rec, outs)
}

// Reads a supplier's rows as a circuit.
#[unsafe(no_mangle)]
pub extern "C" fn serifdove_read_rows(text: &[u8], circuit: &mut [u8]) -> Answer
    ensures { (result ≡ read_answer text.now (length circuit.old))
        × (circuit.new ≡ circuit_after text.now circuit.old) }
{
    reading::read_rows(text, circuit)
}

// Writes an accepted circuit as rows.
#[unsafe(no_mangle)]
pub extern "C" fn serifdove_write_rows(circuit: &[u8], text: &mut [u8]) -> Answer
    ensures { (result ≡ write_answer circuit.now (length text.old))
        × (text.new ≡ text_after circuit.now text.old) }
{
    writing::write_rows(circuit, text)
}
