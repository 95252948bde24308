ghost use Rattle.std.specs.Prelude.{◌≡◌};
ghost use Rattle.record.specs.Places.{index_of};
ghost use Rattle.record.specs.Said.{said};

// I1, the first analog input, M1, AM1 and the words of block 1.
pub const INPUTS: usize = 4;

pub const ANALOGS: usize = 28;

pub const FLAGS: usize = 36;

pub const ANALOG_FLAGS: usize = 100;

pub const BLOCKS: usize = 164;

// What a word is. All count from 1.
#[derive(Clone, Copy)]
pub enum Place {
    Phase,
    Done,
    Mark,
    Elapsed,
    Input(u16),
    Analog(u16),
    Flag(u16),
    AnalogFlag(u16),
    Output(u16),
    Remembered(u16),
    Number(u16),
}

impl Place {
    // Where it stands.
    #[tactic(auto, unfolding(crate::specs::Places::index_of))]
    pub fn index(self) -> usize
        ensures { result ≡ index_of (said self) }
    {
        match self {
            Place::Phase => 0,
            Place::Done => 1,
            Place::Mark => 2,
            Place::Elapsed => 3,
            Place::Input(n) => INPUTS - 1 + n as usize,
            Place::Analog(n) => ANALOGS - 1 + n as usize,
            Place::Flag(n) => FLAGS - 1 + n as usize,
            Place::AnalogFlag(n) => ANALOG_FLAGS - 1 + n as usize,
            Place::Output(k) => BLOCKS - 3 + 3 * k as usize,
            Place::Remembered(k) => BLOCKS - 2 + 3 * k as usize,
            Place::Number(k) => BLOCKS - 1 + 3 * k as usize,
        }
    }
}
