ghost use Rattle.std.specs.Prelude.{◌≡◌, ◌<◌, cond};
ghost use Rattle.std.specs.Result.{IfOk};
ghost use Rattle.refusals.specs.Modest.{Modest};
ghost use Rattle.refusals.specs.Refusals.{number_in};
ghost use Rattle.connectors.specs.Codes.{spot_code};
ghost use Rattle.fields.specs.Codes.{class_code, Decodes};
ghost use Rattle.fields.specs.Fields.{limit_of, spot_of, unknown};
ghost use Rattle.fields.specs.Marks.{base, mark, base_in_bits, spot_in_bits};

use connectors::Spot;
use refusals::{Limits, Refusal};

// The class of what a row goes to.
#[derive(Clone, Copy, PartialEq, Eq)]
pub enum Destination {
    Output = 1,
    Flag = 2,
    AnalogOutput = 3,
    AnalogFlag = 4,
}

impl TryFrom<u8> for Destination {
    type Error = Refusal;

    ghost try_from_gives = { Decodes };

    fn try_from(code: u8) -> Result<Self, Refusal> {
        match code {
            1 => Ok(Destination::Output),
            2 => Ok(Destination::Flag),
            3 => Ok(Destination::AnalogOutput),
            4 => Ok(Destination::AnalogFlag),
            _ => Err(Refusal::Destination),
        }
    }
}

impl Destination {
    // The greatest number.
    #[tactic(auto, unfolding(crate::specs::Fields::limit_of))]
    pub fn limit(self, limits: &Limits) -> usize
        ensures { result ≡ limit_of limits.now (class_code self) }
    {
        match self {
            Destination::Output => limits.q,
            Destination::Flag => limits.m,
            Destination::AnalogOutput => limits.aq,
            Destination::AnalogFlag => limits.am,
        }
    }

    // The spot of the connector of its row.
    // `bits`: as the table `spot_in_bits` says, whose law (`spot-bits`) so holds this code.
    #[tactic(auto, using(crate::proofs::Bits::spot_told), unfolding(crate::specs::Fields::spot_of))]
    pub(crate) fn spot(self) -> Spot
        ensures is { spot_code result ≡ spot_of (class_code self) }
        ensures bits { spot_code result ≡ spot_in_bits (class_code self) }
    {
        match self {
            Destination::Output | Destination::Flag => Spot::DigitalRow,
            Destination::AnalogOutput | Destination::AnalogFlag => Spot::AnalogRow,
        }
    }

    // How many marks stand before those of this class.
    // `bits`: as the table `base_in_bits` says, whose law (`base-bits`) so holds this code.
    #[tactic(auto, using(crate::proofs::Bits::base_told), unfolding(crate::specs::Marks::base))]
    fn base(self) -> usize
        ensures is { result ≡ base (class_code self) }
        ensures bits { result ≡ base_in_bits (class_code self) }
    {
        match self {
            Destination::Output => 0,
            Destination::Flag => 20,
            Destination::AnalogOutput => 84,
            Destination::AnalogFlag => 92,
        }
    }

    // The mark of a number, which no other destination has; refused where there is no such destination.
    pub(crate) fn mark(self, limits: &Limits, number: usize) -> Result<usize, Refusal>
        requires { Modest limits.now }
        ensures number { number_in result ≡ cond (unknown limits.now (class_code self) number) 9 0 }
        ensures mark { IfOk result (λ m. (m ≡ mark (class_code self) number) × (m < 156)) }
    {
        if number == 0 {
            return Err(Refusal::Destination);
        }
        if self.limit(limits) < number {
            return Err(Refusal::Destination);
        }
        Ok(self.base() + number - 1)
    }
}

// The spot of the connector of a row, by the code of its destination's class: the connector of an unknown class is judged before the class is refused.
pub(crate) fn spot_at(code: u8) -> Spot
    ensures { spot_code result ≡ spot_of code }
{
    match Destination::try_from(code) {
        Ok(class) => class.spot(),
        Err(_) => Spot::UnknownRow,
    }
}

// The mark of a destination, by the code of its class and its number; refused where there is no such destination.
pub(crate) fn mark_at(limits: &Limits, code: u8, number: usize) -> Result<usize, Refusal>
    requires { Modest limits.now }
    ensures number { number_in result ≡ cond (unknown limits.now code number) 9 0 }
    ensures mark { IfOk result (λ m. (m ≡ mark code number) × (m < 156)) }
{
    Destination::try_from(code)?.mark(limits, number)
}

// The greatest number of a destination class, by the class's number; 0 where it is no class.
pub fn limit_of(limits: Limits, class: usize) -> usize
    ensures { result ≡ limit_of limits class }
{
    let Ok(code) = u8::try_from(class) else {
        return 0;
    };
    match Destination::try_from(code) {
        Ok(class) => class.limit(&limits),
        Err(_) => 0,
    }
}
