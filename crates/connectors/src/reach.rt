ghost use Rattle.std.specs.Prelude.{◌≡◌, cond, ◌+◌, ◌*◌, ◌≤◌, length};
ghost use Rattle.std.specs.Result.{IfOk};
ghost use Rattle.refusals.specs.Refusals.{number_in};
ghost use Rattle.connectors.specs.Codes.{spot_code};
ghost use Rattle.connectors.specs.Connectors.{connector_at, connectors_at, wrong, later, any_of};
ghost use Rattle.connectors.specs.Named.{six_or_seven};

use crate::class::Spot;
use crate::scope::Scope;
use refusals::{Limits, Refusal};

// What a connector is judged by: the limits, the number of blocks that the header says, how many stand before the connector's block or
// row, and which of these are analog.
#[derive(Clone, Copy)]
pub struct Reach<'a> {
    pub limits: Limits,
    pub n: usize,
    pub blocks: usize,
    // all of the array: `wrong` speaks of a list of which the first `blocks` count
    pub sorts: &'a [bool; 400],
    ghost in_sorts: { blocks ≤ 400 },
}

impl Reach<'_> {
    // What its connectors are judged by: the own number is one above the blocks before.
    fn scope(&self) -> Scope<'_>
        ensures limits { result.limits.now ≡ self.now.limits }
        ensures n { result.n ≡ self.now.n }
        ensures own { result.own ≡ self.now.blocks + 1 }
        ensures sorts { result.sorts.now ≡ self.now.sorts.now }
    {
        Scope {
            limits: &self.limits,
            n: self.n,
            own: self.blocks + 1,
            sorts: self.sorts,
        }
    }

    // The connector at a place of the bytes.
    pub fn judge(&self, bytes: &[u8], at: usize, spot: Spot) -> Result<(), Refusal>
        requires { at + 3 ≤ length bytes.now }
        ensures { number_in result ≡ six_or_seven (wrong self.now.limits (spot_code spot) (self.now.blocks + 1) self.now.n self.now.sorts.now (connector_at bytes.now at)) (later (self.now.blocks + 1) (connector_at bytes.now at)) }
    {
        self.scope().judge(bytes, at, spot)
    }

    // Of a block's inputs of one sort, `count` connectors from a place on: whether one names the own or a later block.
    pub fn judge_inputs(
        &self,
        bytes: &[u8],
        at: usize,
        count: usize,
        spot: Spot,
    ) -> Result<bool, Refusal>
        requires { at + 3 * count ≤ length bytes.now }
        ensures number { number_in result ≡ cond (any_of (wrong self.now.limits (spot_code spot) (self.now.blocks + 1) self.now.n self.now.sorts.now) (connectors_at bytes.now at count)) 6 0 }
        ensures later { IfOk result (λ is_later. is_later ≡ any_of (later (self.now.blocks + 1)) (connectors_at bytes.now at count)) }
    {
        self.scope().judge_inputs(bytes, at, count, spot)
    }
}
