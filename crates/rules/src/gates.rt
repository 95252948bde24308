// Kinds 1 to 8: gates and edges.
ghost use Rattle.std.specs.Prelude.{◌≡◌, Bool, List, not, ◌&&◌};
ghost use Rattle.rules.specs.Rules.{gives, shows, all_of, some_of, and_gate, and_edge, nand_gate, nand_edge, or_gate, nor_gate, xor_gate, not_gate};

use crate::BlockWords;
use std::marker::PhantomData;

// What a gate asks of its four inputs, and what it shows of that.
pub trait Gate {
    ghost asked: { List Bool → Bool };

    ghost shown: { Bool → Bool };

    fn is_met(bits: [bool; 4]) -> bool
        ensures { result ≡ asked bits };

    fn q(met: bool) -> bool
        ensures { result ≡ shown met };
}

// All are 1.
pub struct All;

impl Gate for All {
    ghost asked = { all_of };

    ghost shown = { λ met. met };

    fn is_met(bits: [bool; 4]) -> bool {
        bits.iter().all(|bit| *bit)
    }

    fn q(met: bool) -> bool {
        met
    }
}

// Some is 1.
pub struct Any;

impl Gate for Any {
    ghost asked = { some_of };

    ghost shown = { λ met. met };

    fn is_met(bits: [bool; 4]) -> bool {
        bits.iter().any(|bit| *bit)
    }

    fn q(met: bool) -> bool {
        met
    }
}

// The opposite of what a gate shows.
pub struct Opposite<G>(PhantomData<G>);

impl<G: Gate> Gate for Opposite<G> {
    ghost asked = { G.asked };

    ghost shown = { λ met. not (G.shown met) };

    fn is_met(bits: [bool; 4]) -> bool {
        G::is_met(bits)
    }

    fn q(met: bool) -> bool {
        !G::q(met)
    }
}

// Q of a gate.
fn level<G: Gate>(bits: [bool; 4]) -> BlockWords
    ensures { result ≡ shows (G.shown (G.asked bits)) }
{
    BlockWords::shown(G::q(G::is_met(bits)))
}

// Q where the gate shows 1 now and did not in the last scan; it remembers whether what the gate asks was met.
fn edge<G: Gate>(bits: [bool; 4], was: bool) -> BlockWords
    ensures { result ≡ gives (G.shown (G.asked bits) && not (G.shown was)) (G.asked bits) 0 }
{
    let met = G::is_met(bits);
    BlockWords::digital(G::q(met) & !G::q(was), met, 0)
}

// Kind 1, AND: all are 1.
#[tactic(auto, unfolding(crate::specs::Rules::and_gate))]
pub fn and_gate(bits: [bool; 4]) -> BlockWords
    ensures { result ≡ and_gate bits }
{
    level::<All>(bits)
}

// Kind 2, AND edge: all are 1 now and were not in the last scan.
#[tactic(auto, unfolding(crate::specs::Rules::and_edge))]
pub fn and_edge(bits: [bool; 4], was: bool) -> BlockWords
    ensures { result ≡ and_edge bits was }
{
    edge::<All>(bits, was)
}

// Kind 3, NAND: not all are 1.
#[tactic(auto, unfolding(crate::specs::Rules::nand_gate))]
pub fn nand_gate(bits: [bool; 4]) -> BlockWords
    ensures { result ≡ nand_gate bits }
{
    level::<Opposite<All>>(bits)
}

// Kind 4, NAND edge: not all are 1 now and all were in the last scan.
#[tactic(auto, unfolding(crate::specs::Rules::nand_edge))]
pub fn nand_edge(bits: [bool; 4], was: bool) -> BlockWords
    ensures { result ≡ nand_edge bits was }
{
    edge::<Opposite<All>>(bits, was)
}

// Kind 5, OR: some is 1.
#[tactic(auto, unfolding(crate::specs::Rules::or_gate))]
pub fn or_gate(bits: [bool; 4]) -> BlockWords
    ensures { result ≡ or_gate bits }
{
    level::<Any>(bits)
}

// Kind 6, NOR: none is 1.
#[tactic(auto, unfolding(crate::specs::Rules::nor_gate))]
pub fn nor_gate(bits: [bool; 4]) -> BlockWords
    ensures { result ≡ nor_gate bits }
{
    level::<Opposite<Any>>(bits)
}

// Kind 7, XOR: the two differ.
#[tactic(auto, unfolding(crate::specs::Rules::xor_gate))]
pub fn xor_gate(bits: [bool; 4]) -> BlockWords
    ensures { result ≡ xor_gate bits }
{
    BlockWords::shown(bits[0] ^ bits[1])
}

// Kind 8, NOT: the opposite.
#[tactic(auto, unfolding(crate::specs::Rules::not_gate))]
pub fn not_gate(bits: [bool; 4]) -> BlockWords
    ensures { result ≡ not_gate bits }
{
    BlockWords::shown(!bits[0])
}
