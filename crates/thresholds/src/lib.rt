// What a block becomes that takes an actual value: kinds 13, 14, 16 and 19.
#![tactic(auto)]

ghost use Rattle.std.specs.Prelude.{◌≡◌, pos};
ghost use Rattle.std.specs.Int.Signed.{quot_z};
ghost use Rattle.words.specs.Signed.{Between, minus};
ghost use Rattle.kinds.specs.Kinds.{In, sixteen, parameter};
ghost use Rattle.rules.specs.Rules.{held_to, actual_of, triggers_on, triggered, threshold_trigger, compared, with_off, amplified};
ghost use Rattle.rules.specs.Scaled.{Scaled};

use rules::BlockWords;

// The ends of an actual value.
const LEAST: i32 = -32768;

const GREATEST: i32 = 32767;

// A number held to 16 bits: below them the least, above them the greatest.
fn held(x: i32) -> i32
    ensures { result ≡ held_to sixteen x }
{
    x.clamp(LEAST, GREATEST)
}

// A number by 100 is number · MULTIPLIER, shifted down by SHIFT, and below zero one more.
const MULTIPLIER: i64 = 1374389535;

const SHIFT: i64 = 37;

// A number by 100, toward zero, in the same steps for every number. Not `x / 100`: the archive's code has no division.
fn hundredth(x: i32) -> i32
    ensures { result ≡ quot_z x (pos 100) }
{
    let below = (x < 0) as i32;
    ((x as i64 * MULTIPLIER) >> SHIFT) as i32 + below
}

// The actual value of an analog input: input · A / 100 toward zero, plus B, then held.
#[tactic(auto, unfolding(rules::specs::Rules::actual_of, rules::specs::Rules::unheld_of))]
pub fn actual(input: i32, gain: i32, offset: i32) -> i32
    requires { Scaled input gain offset }
    ensures { (result ≡ actual_of input gain offset) × In sixteen result }
{
    held(hundredth(input * gain) + offset)
}

// Q of a block that triggers on a value, by On, Off and Q of the last scan.
#[tactic(auto, unfolding(rules::specs::Rules::triggers_on))]
pub fn triggers(value: i32, on: i32, off: i32, q: bool) -> bool
    ensures { result ≡ triggers_on value on off q }
{
    if on < off {
        (on <= value) & (value < off)
    } else {
        (on < value) | ((off < value) & q)
    }
}

// The words of a block that triggers on a value.
fn triggered_by(value: i32, params: [i32; 4], q: bool) -> BlockWords
    ensures { result ≡ triggered value params q }
{
    BlockWords::shown(triggers(value, params[2], params[3], q))
}

// Kind 13, analog threshold trigger: on actual Ax. Kind 16 too, its Off worked out.
#[tactic(auto, unfolding(rules::specs::Rules::threshold_trigger))]
pub fn threshold_trigger(ax: i32, params: [i32; 4], q: bool) -> BlockWords
    requires { Scaled ax (parameter params 0) (parameter params 1) }
    ensures { result ≡ threshold_trigger ax params q }
{
    triggered_by(actual(ax, params[0], params[1]), params, q)
}

// Kind 14, comparator: on actual Ax minus actual Ay.
#[tactic(auto, using(crate::proofs::Apart::held_apart))]
pub fn comparator(ax: i32, ay: i32, params: [i32; 4], q: bool) -> BlockWords
    requires { Scaled ax (parameter params 0) (parameter params 1) × Scaled ay (parameter params 0) (parameter params 1) }
    ensures { result ≡ compared ax ay params q }
{
    let x = actual(ax, params[0], params[1]);
    let y = actual(ay, params[0], params[1]);
    triggered_by(x - y, params, q)
}

// Kind 19, analog amplifier: its output is actual Ax.
#[tactic(auto, unfolding(rules::specs::Rules::amplified))]
pub fn amplifier(ax: i32, params: [i32; 4]) -> BlockWords
    requires { Scaled ax (parameter params 0) (parameter params 1) }
    ensures { result ≡ amplified ax params }
{
    BlockWords::analog(actual(ax, params[0], params[1]))
}

// Kind 16, differential trigger: its parameters as kind 13 takes them, with Off for Δ.
pub fn with_off(params: [i32; 4]) -> [i32; 4]
    requires { Between (minus 20000) (pos 20000) (parameter params 2) × Between (minus 20000) (pos 20000) (parameter params 3) }
    ensures { result ≡ with_off params }
{
    let [a, b, on, delta] = params;
    [a, b, on, on + delta]
}
