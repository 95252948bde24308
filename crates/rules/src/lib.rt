// What a block's output and memory become, on plain values: the words of kinds 1 to 12, and of kind 15.
#![tactic(auto)]

ghost use Rattle.std.specs.Prelude.{◌≡◌, ◌≤◌, ◌<◌, ◌^◌, pos};
ghost use Rattle.rules.specs.Rules.{three, gives, shows, latching_relay, shifted, stepped, shift_register, multiplexed};

mod delays;
mod gates;

pub use delays::{Run, grown_to, off_delay, on_delay};
pub use gates::{
    All, Any, Gate, Opposite, and_edge, and_gate, nand_edge, nand_gate, nor_gate, not_gate,
    or_gate, xor_gate,
};

// A block's three words.
#[derive(Clone, Copy)]
pub struct BlockWords {
    pub output: i32,
    pub remembered: i32,
    pub number: i32,
}

impl BlockWords {
    // Those of a digital block: Q, the bit that it remembers, its number. That a number fits a word is asked by a clause, here and
    // wherever one is counted on: a type for it would be opened and made anew at each sum, and read no plainer.
    pub fn digital(q: bool, held: bool, number: u32) -> Self
        requires { number < 2 ^ 31 }
        ensures { result ≡ gives q held number }
    {
        BlockWords {
            output: q as i32,
            remembered: held as i32,
            number: number as i32,
        }
    }

    // Those of a digital block that has no memory.
    pub fn shown(q: bool) -> Self
        ensures { result ≡ shows q }
    {
        BlockWords::digital(q, false, 0)
    }

    // Those of an analog block.
    pub fn analog(output: i32) -> Self
        ensures { result ≡ three output (pos 0) (pos 0) }
    {
        three_of(output, 0, 0)
    }
}

// Three words put together. It stands beside the methods, as definitions and pages name it.
pub fn three_of(output: i32, remembered: i32, number: i32) -> BlockWords
    ensures { result ≡ three output remembered number }
{
    BlockWords {
        output,
        remembered,
        number,
    }
}

// ---- the memories

// Kind 11, latching relay: 0 if R, else 1 if S, else as before.
#[tactic(auto, unfolding(crate::specs::Rules::latching_relay))]
pub fn latching_relay(r: bool, s: bool, q: bool) -> BlockWords
    ensures { result ≡ latching_relay r s q }
{
    BlockWords::shown(!r & (s | q))
}

// The register moved by one bit.
fn shifted_by(down: bool, input: bool, register: u32) -> u32
    requires { register < 2 ^ 31 }
    ensures { (result ≡ shifted down input register) × (result < 2 ^ 31) }
{
    if down {
        (register >> 1) + 128 * input as u32
    } else {
        (2 * register + input as u32) & 255
    }
}

// The register after the scan.
fn stepped_to(rises: bool, down: bool, input: bool, register: u32) -> u32
    requires { register < 2 ^ 31 }
    ensures { (result ≡ stepped rises down input register) × (result < 2 ^ 31) }
{
    if rises {
        shifted_by(down, input, register)
    } else {
        register
    }
}

// Kind 12, shift register: bit j after the step.
#[tactic(auto, unfolding(crate::specs::Rules::shift_register))]
pub fn shift_register(
    input: bool,
    trg: bool,
    down: bool,
    was: bool,
    register: u32,
    j: u32,
) -> BlockWords
    requires { (register < 2 ^ 31) × (1 ≤ j) × (j ≤ 8) }
    ensures { result ≡ shift_register input trg down was register j }
{
    let next = stepped_to(trg & !was, down, input, register);
    let place = j - 1;
    BlockWords::digital((next >> place) & 1 == 1, trg, next)
}

// Kind 15, multiplexer: 0 without En, else V1 to V4 by S1 and S2.
#[tactic(auto, unfolding(crate::specs::Rules::multiplexed))]
pub fn multiplexer(en: bool, s1: bool, s2: bool, params: [i32; 4]) -> BlockWords
    ensures { result ≡ multiplexed en s1 s2 params }
{
    BlockWords::analog(if en {
        params[2 * s1 as usize + s2 as usize]
    } else {
        0
    })
}
