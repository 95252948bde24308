ghost use Rattle.std.specs.Prelude.{◌≡◌, not, cond, ◌+◌, ◌*◌, ◌%◌, ◌≤◌, length};
ghost use Rattle.std.specs.Result.{IfOk};
ghost use Rattle.refusals.specs.Refusals.{number_in};
ghost use Rattle.connectors.specs.Codes.{class_code, spot_code};
ghost use Rattle.connectors.specs.Connectors.{connector_at, connectors_at, misfits, wrong, later, any_of};
ghost use Rattle.connectors.specs.Named.{six_or_seven};

use crate::class::{Class, Spot};
use refusals::{Limits, Refusal};

// What one connector is judged by: the limits, the number of blocks that the header says, the number of its own block (in a row one above
// all blocks), and which of the blocks before that are analog.
#[derive(Clone, Copy)]
pub struct Scope<'a> {
    pub limits: &'a Limits,
    pub n: usize,
    pub own: usize,
    // all of the array: `wrong` speaks of a list of which those before the own number count
    pub sorts: &'a [bool; 400],
    ghost in_sorts: { own ≤ 401 },
}

impl Scope<'_> {
    // Whether a class is allowed at a spot, with this byte and this number. The byte tells the inversion alone, so a flag for it is no plainer.
    #[tactic(auto, unfolding(crate::specs::Connectors::misfits))]
    fn allows(&self, spot: Spot, class: Class, byte: u8, number: usize) -> bool
        requires { class_code class ≡ byte % 128 }
        ensures { result ≡ not (misfits self.now.limits.now (spot_code spot) self.now.n (record { class = byte; number = number })) }
    {
        spot.takes(class)
            && (byte < 128 || class.inverts())
            && class.least() <= number
            && number <= class.greatest(self.limits, self.n)
    }

    // A connector's class byte and number.
    #[tactic(auto, unfolding(crate::specs::Named::six_or_seven, crate::specs::Connectors::wrong, crate::specs::Connectors::wrong_sort, crate::specs::Connectors::later))]
    fn judge_parts(&self, spot: Spot, byte: u8, number: usize) -> Result<(), Refusal>
        ensures { number_in result ≡ six_or_seven (wrong self.now.limits.now (spot_code spot) self.now.own self.now.n self.now.sorts.now (record { class = byte; number = number })) (later self.now.own (record { class = byte; number = number })) }
    {
        let class = Class::try_from(byte & 127)?;
        if !self.allows(spot, class, byte, number) {
            return Err(Refusal::Connector);
        }
        if !class.names_block() {
            return Ok(());
        }
        if self.own <= number {
            return Err(Refusal::OwnOrLaterBlock);
        }
        if !spot.has_sort() {
            return Ok(());
        }
        if self.sorts[number - 1] != class.names_analog() {
            return Err(Refusal::Connector);
        }
        Ok(())
    }

    // The connector at a place of the bytes.
    pub fn judge(&self, bytes: &[u8], at: usize, spot: Spot) -> Result<(), Refusal>
        requires { at + 3 ≤ length bytes.now }
        ensures { number_in result ≡ six_or_seven (wrong self.now.limits.now (spot_code spot) self.now.own self.now.n self.now.sorts.now (connector_at bytes.now at)) (later self.now.own (connector_at bytes.now at)) }
    {
        self.judge_parts(spot, bytes[at], words::two_at(bytes, at + 1))
    }

    // Of a block's inputs of one sort, `count` connectors from a place on: whether one names the own or a later block.
    #[tactic(auto, using(crate::proofs::Laws::six_ends))]
    pub fn judge_inputs(
        &self,
        bytes: &[u8],
        at: usize,
        count: usize,
        spot: Spot,
    ) -> Result<bool, Refusal>
        requires { at + 3 * count ≤ length bytes.now }
        ensures number { number_in result ≡ cond (any_of (wrong self.now.limits.now (spot_code spot) self.now.own self.now.n self.now.sorts.now) (connectors_at bytes.now at count)) 6 0 }
        ensures later { IfOk result (λ is_later. is_later ≡ any_of (later self.now.own) (connectors_at bytes.now at count)) }
    {
        let mut is_later = false;
        for j in 0..count {
            if let Err(refusal) = self.judge(bytes, at + 3 * j, spot) {
                match refusal {
                    Refusal::OwnOrLaterBlock => is_later = true,
                    _ => return Err(refusal),
                }
            }
        }
        Ok(is_later)
    }
}
