// One block: its parameters made ready, and what its three words become, by kind.
#![tactic(auto)]

ghost use Rattle.std.specs.Prelude.{◌≡◌, true, ◌≤◌, ◌<◌, ◌^◌, pos};
ghost use Rattle.words.specs.Signed.{Between, over};
ghost use Rattle.kinds.specs.Kinds.{kind_of, parameter, allowed};
ghost use Rattle.kinds.specs.Codes.{byte_of, Decodes};
ghost use Rattle.kinds.specs.Time.{ticks};
ghost use Rattle.rules.specs.Rules.{three, bit, on_delay, off_delay, latching_relay, shift_register, threshold_trigger, compared, multiplexed, amplified, up_down_counter, stairway_switch};
ghost use Rattle.blocks.specs.Blocks.{time_of, prepared, was_bit, was_on, was_pressed, was_running, was_number, worked_out};
ghost use Rattle.blocks.specs.Fit.{Fit, Sixteen, Scaling};

use kinds::{Kind, Setting, Ticks, UnknownKind};
use rules::{BlockWords, Run};
use stairway::Times;

// A block's parameters, made ready: its settings T, T! and T!L in ticks, Off worked out.
#[derive(Clone, Copy)]
pub struct Prepared {
    pub time: Ticks,
    pub warning: Ticks,
    pub dark: Ticks,
    pub params: [i32; 4],
}

// The ticks that setting j, from 1, of a block sets.
fn time_of(kind: Kind, j: usize, params: [i32; 4]) -> Ticks
    requires { (allowed (byte_of kind) params ≡ true) × (1 ≤ j) }
    ensures { result ≡ time_of (kind_of (byte_of kind)).times j params }
{
    if j <= kind.times() {
        Setting::new(params[0], params[j]).into()
    } else {
        Ticks(0)
    }
}

// A block's parameters, made ready.
#[tactic(auto, using(crate::proofs::Ready::differences), unfolding(crate::specs::Blocks::prepared))]
pub fn prepare(kind: Kind, params: [i32; 4]) -> Prepared
    requires { allowed (byte_of kind) params ≡ true }
    ensures { result ≡ prepared (byte_of kind) params }
{
    Prepared {
        time: time_of(kind, 1, params),
        warning: time_of(kind, 2, params),
        dark: time_of(kind, 3, params),
        params: match kind {
            Kind::DifferentialTrigger => thresholds::with_off(params),
            _ => params,
        },
    }
}

// The remembered bit.
fn was_bit(was: BlockWords) -> bool
    ensures { result ≡ was_bit was }
{
    was.remembered != 0
}

// Q of the last scan.
fn was_on(was: BlockWords) -> bool
    ensures { result ≡ was_on was }
{
    was.output != 0
}

// The remembered word as a number: 0 to 3 of a stairway switch.
fn was_held(was: BlockWords) -> u32
    ensures { result ≡ over was.remembered }
{
    was.remembered.max(0) as u32
}

// Trg of the last scan, of a stairway switch.
fn was_pressed(was: BlockWords) -> bool
    ensures { result ≡ was_pressed was }
{
    let held = was_held(was);
    (held == 1) | (held == 3)
}

// Whether it ran.
fn was_running(was: BlockWords) -> bool
    ensures { result ≡ was_running was }
{
    2 <= was_held(was)
}

// The number: Ta, the register, or the count.
fn was_number(was: BlockWords) -> u32
    ensures { (result ≡ was_number was) × (result < 2 ^ 31) }
{
    was.number.max(0) as u32
}

// The time of a block that runs.
fn run_of(p: Prepared, was: BlockWords, e: Ticks) -> Run
    requires { (p.time.0 < 2 ^ 31) × (e.0 < 2 ^ 31) }
    ensures { (result.ta ≡ ticks (was_number was)) × (result.t ≡ p.time) × (result.e ≡ e) }
{
    Run {
        ta: Ticks(was_number(was)),
        t: p.time,
        e,
    }
}

// A block of kind 9: Trg.
fn on_block(bits: [bool; 4], p: Prepared, was: BlockWords, e: Ticks) -> BlockWords
    requires { (p.time.0 < 2 ^ 31) × (e.0 < 2 ^ 31) }
    ensures { result ≡ on_delay (bit bits 0) (was_bit was) (ticks (was_number was)) p.time e }
{
    rules::on_delay(bits[0], was_bit(was), run_of(p, was, e))
}

// A block of kind 10: Trg, R.
fn off_block(bits: [bool; 4], p: Prepared, was: BlockWords, e: Ticks) -> BlockWords
    requires { (p.time.0 < 2 ^ 31) × (e.0 < 2 ^ 31) }
    ensures { result ≡ off_delay (bit bits 1) (bit bits 0) (was_bit was) (was_on was) (ticks (was_number was)) p.time e }
{
    let run = run_of(p, was, e);
    rules::off_delay(bits[1], bits[0], was_bit(was), was_on(was), run)
}

// A block of kind 12: In, Trg, Dir.
fn shift_block(bits: [bool; 4], p: Prepared, was: BlockWords) -> BlockWords
    requires { Between (pos 1) (pos 8) (parameter p.params 1) }
    ensures { result ≡ shift_register (bit bits 0) (bit bits 1) (bit bits 2) (was_bit was) (was_number was) (over (parameter p.params 1)) }
{
    rules::shift_register(
        bits[0],
        bits[1],
        bits[2],
        was_bit(was),
        was_number(was),
        p.params[1] as u32,
    )
}

// A block of kind 11: S, R.
fn relay_block(bits: [bool; 4], was: BlockWords) -> BlockWords
    ensures { result ≡ latching_relay (bit bits 1) (bit bits 0) (was_on was) }
{
    rules::latching_relay(bits[1], bits[0], was_on(was))
}

// A block of kind 13 or 16: Ax.
fn trigger_block(analog: [i32; 2], p: Prepared, was: BlockWords) -> BlockWords
    requires { Sixteen analog × Scaling p }
    ensures { result ≡ threshold_trigger (parameter analog 0) p.params (was_on was) }
{
    thresholds::threshold_trigger(analog[0], p.params, was_on(was))
}

// A block of kind 14: Ax, Ay.
fn compare_block(analog: [i32; 2], p: Prepared, was: BlockWords) -> BlockWords
    requires { Sixteen analog × Scaling p }
    ensures { result ≡ compared (parameter analog 0) (parameter analog 1) p.params (was_on was) }
{
    thresholds::comparator(analog[0], analog[1], p.params, was_on(was))
}

// A block of kind 15: En, S1, S2.
fn choice_block(bits: [bool; 4], p: Prepared) -> BlockWords
    ensures { result ≡ multiplexed (bit bits 0) (bit bits 1) (bit bits 2) p.params }
{
    rules::multiplexer(bits[0], bits[1], bits[2], p.params)
}

// A block of kind 17: R, Cnt, Dir.
fn count_block(bits: [bool; 4], p: Prepared, was: BlockWords) -> BlockWords
    ensures { result ≡ up_down_counter (bit bits 0) (bit bits 1) (bit bits 2) (was_bit was) (was_on was) (was_number was) p.params }
{
    counter::up_down_counter(
        bits[0],
        bits[1],
        bits[2],
        was_bit(was),
        was_on(was),
        was_number(was),
        p.params,
    )
}

// A block of kind 18: Trg.
fn stairs_block(bits: [bool; 4], p: Prepared, was: BlockWords, e: Ticks) -> BlockWords
    requires { (p.time.0 < 2 ^ 31) × (p.warning.0 ≤ p.time.0) × (p.dark.0 ≤ p.time.0) × (e.0 < 2 ^ 31) }
    ensures { result ≡ stairway_switch (bit bits 0) (was_pressed was) (was_running was) (ticks (was_number was)) p.time p.warning p.dark e }
{
    let times = Times {
        run: run_of(p, was, e),
        warning: p.warning,
        dark: p.dark,
    };
    stairway::stairway_switch(bits[0], was_pressed(was), was_running(was), times)
}

// A block of kind 19: Ax.
fn amplify_block(analog: [i32; 2], p: Prepared) -> BlockWords
    requires { Sixteen analog × Scaling p }
    ensures { result ≡ amplified (parameter analog 0) p.params }
{
    thresholds::amplifier(analog[0], p.params)
}

// The kind that a number is.
#[tactic(auto, using(kinds::proofs::Codes::known_is))]
fn kind_from(number: usize) -> Result<Kind, UnknownKind>
    ensures { Decodes number result }
{
    match u8::try_from(number) {
        Ok(byte) => Kind::try_from(byte),
        Err(_) => Err(UnknownKind),
    }
}

// What the three words of a block of a kind become.
#[tactic(auto, using(crate::proofs::Ready::by_register), unfolding(crate::specs::Blocks::worked_out, crate::specs::Blocks::rules))]
fn by_kind(
    kind: Kind,
    bits: [bool; 4],
    analog: [i32; 2],
    p: Prepared,
    was: BlockWords,
    e: Ticks,
) -> BlockWords
    requires { Fit (byte_of kind) p × Sixteen analog × (e.0 < 2 ^ 31) }
    ensures { result ≡ worked_out (byte_of kind) bits analog p was e }
{
    match kind {
        Kind::And => rules::and_gate(bits),
        Kind::AndEdge => rules::and_edge(bits, was_bit(was)),
        Kind::Nand => rules::nand_gate(bits),
        Kind::NandEdge => rules::nand_edge(bits, was_bit(was)),
        Kind::Or => rules::or_gate(bits),
        Kind::Nor => rules::nor_gate(bits),
        Kind::Xor => rules::xor_gate(bits),
        Kind::Not => rules::not_gate(bits),
        Kind::OnDelay => on_block(bits, p, was, e),
        Kind::OffDelay => off_block(bits, p, was, e),
        Kind::LatchingRelay => relay_block(bits, was),
        Kind::ShiftRegister => shift_block(bits, p, was),
        Kind::ThresholdTrigger => trigger_block(analog, p, was),
        Kind::Comparator => compare_block(analog, p, was),
        Kind::Multiplexer => choice_block(bits, p),
        Kind::DifferentialTrigger => trigger_block(analog, p, was),
        Kind::UpDownCounter => count_block(bits, p, was),
        Kind::StairwaySwitch => stairs_block(bits, p, was, e),
        Kind::Amplifier => amplify_block(analog, p),
    }
}

// What a block's three words become, by its kind: from its digital and analog inputs, resolved together, its parameters, its words and e.
// Three zeros for a number that is no kind.
pub fn worked_out(
    kind: usize,
    bits: [bool; 4],
    analog: [i32; 2],
    p: Prepared,
    was: BlockWords,
    e: Ticks,
) -> BlockWords
    requires { Fit kind p × Sixteen analog × (e.0 < 2 ^ 31) }
    ensures { result ≡ worked_out kind bits analog p was e }
{
    match kind_from(kind) {
        Ok(kind) => by_kind(kind, bits, analog, p, was, e),
        Err(_) => rules::three_of(0, 0, 0),
    }
}
