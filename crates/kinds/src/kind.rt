// The kinds of block, and what follows from a kind.
ghost use Rattle.std.specs.Prelude.{◌≡◌, ◌+◌, ◌≤◌, ◌<◌, length, pos};
ghost use Rattle.std.specs.Int.Signed.{le_z};
ghost use Rattle.kinds.specs.Kinds.{kind_of, is_analog, content_length, in_range, range_at, parameter, settings_fit, in_order, ranges_fit, allowed, output_range, remembered_range, number_range};
ghost use Rattle.kinds.specs.Codes.{byte_of, Decodes};
ghost use Rattle.kinds.specs.Table.{row_of};

use crate::table::{Most, ROWS, Row};
use crate::{Ticks, setting_fits};

// The kinds, in the order of their numbers.
#[derive(Clone, Copy, PartialEq, Eq)]
pub enum Kind {
    And = 1,
    AndEdge,
    Nand,
    NandEdge,
    Or,
    Nor,
    Xor,
    Not,
    OnDelay,
    OffDelay,
    LatchingRelay,
    ShiftRegister,
    ThresholdTrigger,
    Comparator,
    Multiplexer,
    DifferentialTrigger,
    UpDownCounter,
    StairwaySwitch,
    Amplifier,
}

// A byte that names no kind.
#[derive(Clone, Copy)]
pub struct UnknownKind;

impl TryFrom<u8> for Kind {
    type Error = UnknownKind;

    ghost try_from_gives = { Decodes };

    #[tactic(auto, using(crate::proofs::Codes::known_is))]
    fn try_from(byte: u8) -> Result<Self, UnknownKind> {
        match byte {
            1 => Ok(Kind::And),
            2 => Ok(Kind::AndEdge),
            3 => Ok(Kind::Nand),
            4 => Ok(Kind::NandEdge),
            5 => Ok(Kind::Or),
            6 => Ok(Kind::Nor),
            7 => Ok(Kind::Xor),
            8 => Ok(Kind::Not),
            9 => Ok(Kind::OnDelay),
            10 => Ok(Kind::OffDelay),
            11 => Ok(Kind::LatchingRelay),
            12 => Ok(Kind::ShiftRegister),
            13 => Ok(Kind::ThresholdTrigger),
            14 => Ok(Kind::Comparator),
            15 => Ok(Kind::Multiplexer),
            16 => Ok(Kind::DifferentialTrigger),
            17 => Ok(Kind::UpDownCounter),
            18 => Ok(Kind::StairwaySwitch),
            19 => Ok(Kind::Amplifier),
            _ => Err(UnknownKind),
        }
    }
}

impl Kind {
    // The number of a kind.
    pub fn code(self) -> usize
        ensures is { result ≡ byte_of self }
        ensures least { 1 ≤ result }
        ensures most { result < 20 }
    {
        self as usize
    }

    // Its row.
    fn row(self) -> &'static Row
        ensures { result.now ≡ row_of (kind_of (byte_of self)) }
    {
        let place = self.code() - 1;
        &ROWS[place]
    }

    // How many digital inputs a block of the kind has.
    #[tactic(auto, using(crate::proofs::Rows::small))]
    pub fn digital_inputs(self) -> usize
        ensures { (result ≡ (kind_of (byte_of self)).digitals) × (result ≤ 4) }
    {
        self.row().digitals as usize
    }

    // How many analog inputs.
    #[tactic(auto, using(crate::proofs::Rows::small))]
    pub fn analog_inputs(self) -> usize
        ensures { (result ≡ (kind_of (byte_of self)).analogs) × (result ≤ 2) }
    {
        self.row().analogs as usize
    }

    // What an unused input counts.
    pub fn unused_counts(self) -> bool
        ensures { result ≡ (kind_of (byte_of self)).unused }
    {
        self.row().unused
    }

    // How many parameters.
    #[tactic(auto, using(crate::proofs::Rows::small))]
    pub fn parameters(self) -> usize
        ensures { (result ≡ length (kind_of (byte_of self)).parameters) × (result ≤ 4) }
    {
        self.row().parameters as usize
    }

    // How many settings follow the timebase.
    #[tactic(auto, using(crate::proofs::Rows::small))]
    pub fn times(self) -> usize
        ensures { (result ≡ (kind_of (byte_of self)).times) × (result ≤ 3) }
    {
        self.row().times as usize
    }

    // Whether a block may be retentive.
    pub fn may_be_retentive(self) -> bool
        ensures { result ≡ (kind_of (byte_of self)).retentive }
    {
        self.row().retentive
    }

    // Whether the output is a number.
    pub fn is_analog(self) -> bool
        ensures { result ≡ is_analog (kind_of (byte_of self)).output }
    {
        self.row().analog
    }

    // How many bytes of content a block field has.
    #[tactic(auto, using(crate::proofs::Rows::small))]
    pub fn content_length(self) -> usize
        ensures { (result ≡ content_length (kind_of (byte_of self))) × (result ≤ 27) }
    {
        self.row().length as usize
    }

    // Whether a parameter is in its range. One that the kind has not is to be 0. Two tests: the proof with `contains` did not close.
    pub fn parameter_fits(self, j: usize, x: i32) -> bool
        requires { j < 4 }
        ensures { result ≡ in_range (range_at (kind_of (byte_of self)) j) x }
    {
        let row = self.row();
        row.least[j] <= x && x <= row.greatest[j]
    }

    // Whether the ranges of the table take the parameters.
    fn ranges_fit(self, params: [i32; 4]) -> bool
        ensures { result ≡ ranges_fit (kind_of (byte_of self)) params }
    {
        let [a, b, c, d] = params;
        self.parameter_fits(0, a)
            && (self.parameter_fits(1, b)
                && (self.parameter_fits(2, c) && self.parameter_fits(3, d)))
    }

    // Whether a block of the kind may have these parameters.
    #[tactic(auto, unfolding(crate::specs::Kinds::allowed))]
    pub fn allows(self, params: [i32; 4]) -> bool
        ensures { result ≡ allowed (byte_of self) params }
    {
        let n = self.times();
        self.ranges_fit(params) && (settings_fit(n, params) && in_order(n, params))
    }

    // Whether a block of the kind may have this output.
    pub fn output_fits(self, x: i32) -> bool
        ensures { result ≡ in_range (output_range (kind_of (byte_of self))) x }
    {
        if self.is_analog() {
            (-32768..=32767).contains(&x)
        } else {
            (0..=1).contains(&x)
        }
    }

    // Whether it may have this remembered word.
    pub fn remembered_fits(self, x: i32) -> bool
        ensures { result ≡ in_range (remembered_range (kind_of (byte_of self))) x }
    {
        (0..=self.row().remembered).contains(&x)
    }

    // Whether it may have this number, by the ticks set.
    pub fn number_fits(self, t: Ticks, x: i32) -> bool
        ensures { result ≡ in_range (number_range (kind_of (byte_of self)) t) x }
    {
        let most = match self.row().most {
            Most::Ticks => t.0,
            Most::Count(n) => n,
        };
        0 <= x && x as u32 <= most
    }
}

// Whether the first n settings are in the range of their timebase.
fn settings_fit(n: usize, params: [i32; 4]) -> bool
    requires { n ≤ 3 }
    ensures { result ≡ settings_fit n params }
{
    for j in 0..n {
        if !setting_fits(params[0], params[j + 1]) {
            return false;
        }
    }
    true
}

// Whether none of the first n settings is greater than the one before it.
#[tactic(auto, using(crate::proofs::Allowed::order_fails))]
fn in_order(n: usize, params: [i32; 4]) -> bool
    requires { n ≤ 3 }
    ensures { result ≡ in_order n params }
{
    for j in 1..n {
        if params[j] < params[j + 1] {
            return false;
        }
    }
    true
}
