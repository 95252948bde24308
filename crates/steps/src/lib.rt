// The inputs of a block, resolved together, its step, and the steps of a turn.
#![tactic(auto)]

ghost use Rattle.std.specs.Prelude.{◌≡◌, ◌+◌, ◌-◌, ◌≤◌, ◌<◌, get_or};
ghost use Rattle.blocks.specs.Fit.{Sixteen};
ghost use Rattle.decoding.specs.Decoded.{block_at};
ghost use Rattle.lines.specs.Lines.{input_said, line_of, line_said};
ghost use Rattle.record.specs.Places.{put_words};
ghost use Rattle.record.specs.Written.{lines_at};
ghost use Rattle.steps.specs.Steps.{read_from, value_from, plain_bit, bit_from, bits_of, values_of, becomes as becomes_of, steps_from, to_go, turn_of, turned};
ghost use Rattle.steps.specs.Wired.{source_said, named, plain_named, Fine, Next, Runs};

use connectors::Class;
use lines::{Input, Line};
use record::{Place, Plan};
use rules::BlockWords;

// What a turn worked out, and what is to go then.
#[derive(Clone, Copy)]
pub struct Progress {
    pub worked: usize,
    pub left: usize,
}

// The place that a class and a number name, where they name one.
fn place_of(class: Class, number: u16) -> Option<Place>
    ensures { source_said result ≡ named class number }
{
    match class {
        Class::Input => Some(Place::Input(number)),
        Class::Flag => Some(Place::Flag(number)),
        Class::AnalogInput => Some(Place::Analog(number)),
        Class::AnalogFlag => Some(Place::AnalogFlag(number)),
        Class::Block | Class::AnalogBlock => Some(Place::Output(number)),
        Class::Unused | Class::Low | Class::High => None,
    }
}

// The word that they name; 0 where they name none.
fn word_of(rec: &[i32], class: Class, number: u16) -> i32
    ensures { result ≡ read_from rec.now (named class number) }
{
    match place_of(class, number) {
        Some(place) => record::word(rec, place),
        None => 0,
    }
}

// The word that a connector reads; 0 where it reads none.
pub fn value_from(rec: &[i32], input: Input) -> i32
    ensures { result ≡ value_from rec.now (input_said input) }
{
    match Class::try_from(input.class & 127) {
        Ok(class) => word_of(rec, class, input.number),
        Err(_) => 0,
    }
}

// The bit that they name: unused as it is said to count, lo 0, hi 1.
fn bit_of(rec: &[i32], unused: bool, class: Class, number: u16) -> bool
    ensures { result ≡ plain_named rec.now unused class number }
{
    match class {
        Class::Unused => unused,
        Class::Low => false,
        Class::High => true,
        _ => word_of(rec, class, number) != 0,
    }
}

// A digital connector before it is inverted.
fn plain_bit(rec: &[i32], unused: bool, input: Input) -> bool
    ensures { result ≡ plain_bit rec.now unused (input_said input) }
{
    match Class::try_from(input.class & 127) {
        Ok(class) => bit_of(rec, unused, class, input.number),
        Err(_) => false,
    }
}

// A digital connector.
#[tactic(auto, unfolding(crate::specs::Steps::bit_from))]
pub fn bit_from(rec: &[i32], unused: bool, input: Input) -> bool
    ensures { result ≡ bit_from rec.now unused (input_said input) }
{
    (128 <= input.class) ^ plain_bit(rec, unused, input)
}

// The four digital inputs of a line. Four calls: the clause of `map` speaks of runs of its closure, and is no plainer.
fn bits_of(rec: &[i32], line: &Line) -> [bool; 4]
    requires { Fine (line_said line.now) }
    ensures { result ≡ bits_of rec.now (line_said line.now) }
{
    let unused = line.kind.unused_counts();
    [
        bit_from(rec, unused, line.inputs[0]),
        bit_from(rec, unused, line.inputs[1]),
        bit_from(rec, unused, line.inputs[2]),
        bit_from(rec, unused, line.inputs[3]),
    ]
}

// The two analog ones.
#[tactic(auto, unfolding(crate::specs::Steps::values_of))]
fn values_of(rec: &[i32], line: &Line) -> [i32; 2]
    requires { Fine (line_said line.now) }
    ensures { result ≡ values_of rec.now (line_said line.now) }
{
    [
        value_from(rec, line.inputs[0]),
        value_from(rec, line.inputs[1]),
    ]
}

// What the three words of block k become.
#[tactic(auto, unfolding(crate::specs::Steps::becomes))]
fn becomes(rec: &[i32], k: u16, line: &Line) -> BlockWords
    requires { Fine (line_said line.now) × Sixteen (values_of rec.now (line_said line.now)) }
    ensures { result ≡ becomes_of rec.now k (line_said line.now) }
{
    let bits = bits_of(rec, line);
    let values = values_of(rec, line);
    let was = record::words_of(rec, k);
    let e = record::elapsed_of(rec);
    blocks::worked_out(line.kind.code(), bits, values, line.prepared, was, e)
}

// Works out block k: its three words, and no other.
pub fn step(rec: &mut [i32], k: u16, line: &Line)
    requires { Fine (line_said line.now) × Sixteen (values_of rec.old (line_said line.now)) }
    ensures { rec.new ≡ put_words rec.old k (becomes_of rec.old k (line_said line.now)) }
{
    let w = becomes(rec, k, line);
    record::put_words(rec, k, w);
}

// Works out the block behind the first d.
fn step_at(plan: &Plan, rec: &mut [i32], d: usize)
    requires { Next plan.now.bytes.now plan.now.offsets.now d rec.old × (d < plan.now.n) }
    ensures { rec.new ≡ put_words rec.old (d + 1) (becomes_of rec.old (d + 1) (line_of (block_at plan.now.bytes.now (get_or plan.now.offsets.now d 0)))) }
{
    step(rec, (d + 1) as u16, &plan.line(d));
}

// Works out the m blocks behind the first d.
fn steps_from(plan: &Plan, rec: &mut [i32], d: usize, m: usize)
    requires { Runs plan.now.bytes.now plan.now.n plan.now.offsets.now rec.old × (d + m ≤ plan.now.n) }
    ensures { rec.new ≡ steps_from (lines_at plan.now.bytes.now plan.now.n plan.now.offsets.now) d m rec.old }
{
    for i in 0..m {
        step_at(plan, rec, d + i);
    }
}

// Works out up to c of the blocks to go, and tells how many were worked out and how many are to go then.
pub fn turn(plan: &Plan, rec: &mut [i32], c: u32) -> Progress
    requires { Runs plan.now.bytes.now plan.now.n plan.now.offsets.now rec.old }
    ensures { let lines = lines_at plan.now.bytes.now plan.now.n plan.now.offsets.now in
        (result.worked ≡ turn_of lines c rec.old)
        × (result.left ≡ to_go lines rec.old - result.worked)
        × (rec.new ≡ turned lines c rec.old) }
{
    let d = record::done_of(rec);
    let left = plan.n - d;
    let worked = (c as usize).min(left);
    steps_from(plan, rec, d, worked);
    record::put(rec, Place::Done, (d + worked) as i32);
    Progress {
        worked,
        left: left - worked,
    }
}
