ghost use Rattle.std.specs.Prelude.{◌≡◌, not, [], ◌∷◌, eqb};
ghost use Rattle.connectors.specs.Connectors.{member, takes, inverts, least, greatest, names_block, names_analog, unknown_row};
ghost use Rattle.connectors.specs.Codes.{class_code, spot_code, Decodes};
ghost use Rattle.connectors.specs.Named.{takes_in_bits, plain_in_bits, least_in_bits};

use refusals::{Limits, Refusal};

// What a connector is joined to.
#[derive(Clone, Copy, PartialEq, Eq)]
pub enum Class {
    Unused = 0,
    Input = 1,
    Low = 2,
    High = 3,
    Flag = 4,
    Block = 6,
    AnalogInput = 7,
    AnalogFlag = 8,
    AnalogBlock = 9,
}

// The class of a code, which is a class byte without its highest bit.
impl TryFrom<u8> for Class {
    type Error = Refusal;

    ghost try_from_gives = { Decodes };

    fn try_from(code: u8) -> Result<Self, Refusal> {
        match code {
            0 => Ok(Class::Unused),
            1 => Ok(Class::Input),
            2 => Ok(Class::Low),
            3 => Ok(Class::High),
            4 => Ok(Class::Flag),
            6 => Ok(Class::Block),
            7 => Ok(Class::AnalogInput),
            8 => Ok(Class::AnalogFlag),
            9 => Ok(Class::AnalogBlock),
            _ => Err(Refusal::Connector),
        }
    }
}

impl Class {
    // Whether its signal is an analog one.
    #[tactic(auto, unfolding(crate::specs::Connectors::member))]
    fn is_analog(self) -> bool
        ensures { result ≡ member (class_code self) (7 ∷ 8 ∷ 9 ∷ []) }
    {
        matches!(
            self,
            Class::AnalogInput | Class::AnalogFlag | Class::AnalogBlock
        )
    }

    // Whether it can be inverted.
    // `bits`: as the table `plain_in_bits` of bits says, whose law (`plain-bits`) so holds this code.
    #[tactic(auto, using(crate::proofs::Bits::plain_told), unfolding(crate::specs::Connectors::inverts, crate::specs::Connectors::member))]
    pub(crate) fn inverts(self) -> bool
        ensures is { result ≡ inverts (class_code self) }
        ensures bits { plain_in_bits (class_code self) ≡ not result }
    {
        matches!(
            self,
            Class::Input | Class::Low | Class::High | Class::Flag | Class::Block
        )
    }

    // Whether it names a block.
    #[tactic(auto, unfolding(crate::specs::Connectors::names_block))]
    pub(crate) fn names_block(self) -> bool
        ensures { result ≡ names_block (class_code self) }
    {
        matches!(self, Class::Block | Class::AnalogBlock)
    }

    // Whether it names a block whose output is analog.
    pub(crate) fn names_analog(self) -> bool
        ensures { result ≡ names_analog (class_code self) }
    {
        matches!(self, Class::AnalogBlock)
    }

    // The least number.
    // `bits`: as the table `least_in_bits` of bits says, whose law (`least-bits`) so holds this code.
    #[tactic(auto, using(crate::proofs::Bits::least_told), unfolding(crate::specs::Connectors::least))]
    pub(crate) fn least(self) -> usize
        ensures is { result ≡ least (class_code self) }
        ensures bits { result ≡ least_in_bits (class_code self) }
    {
        match self {
            Class::Unused | Class::Low | Class::High => 0,
            _ => 1,
        }
    }

    // The greatest number, in a circuit of n blocks.
    #[tactic(auto, unfolding(crate::specs::Connectors::greatest))]
    pub(crate) fn greatest(self, limits: &Limits, n: usize) -> usize
        ensures { result ≡ greatest limits.now n (class_code self) }
    {
        match self {
            Class::Unused | Class::Low | Class::High => 0,
            Class::Input => 24,
            Class::Flag => limits.m,
            Class::AnalogInput => 8,
            Class::AnalogFlag => limits.am,
            Class::Block | Class::AnalogBlock => n,
        }
    }
}

// Where a connector stands: in a digital or an analog input of a block, in a row of a digital, an analog or an unknown destination.
#[derive(Clone, Copy, PartialEq, Eq)]
pub enum Spot {
    DigitalInput,
    AnalogInput,
    DigitalRow,
    AnalogRow,
    UnknownRow,
}

impl Spot {
    // Whether it takes a class.
    // `bits`: as the table `takes_in_bits` of bits says, whose law (`takes-bits`) so holds this code.
    #[tactic(auto, using(crate::proofs::Bits::takes_told), unfolding(crate::specs::Connectors::takes, crate::specs::Connectors::member))]
    pub(crate) fn takes(self, class: Class) -> bool
        ensures is { result ≡ member (class_code class) (takes (spot_code self)) }
        ensures bits { result ≡ takes_in_bits (spot_code self) (class_code class) }
    {
        match self {
            Spot::DigitalInput => !class.is_analog(),
            Spot::DigitalRow => !class.is_analog() && class != Class::Unused,
            Spot::AnalogInput | Spot::AnalogRow => class.is_analog(),
            Spot::UnknownRow => class != Class::Unused,
        }
    }

    // Whether a block that is named there has to be of the sort that the class says.
    pub(crate) fn has_sort(self) -> bool
        ensures { result ≡ not (eqb (spot_code self) unknown_row) }
    {
        !matches!(self, Spot::UnknownRow)
    }
}
