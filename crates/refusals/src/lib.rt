// What every judging has in common: refusals, limits, stages, and the answer of four numbers.
#![tactic(auto)]

ghost use Rattle.std.specs.Prelude.{◌≡◌, ◌+◌, ◌≤◌, length};
ghost use Rattle.refusals.specs.Answers.{answer_of};
ghost use Rattle.refusals.specs.Refusals.{number_of};

// Why something is refused.
#[derive(Clone, Copy, PartialEq, Eq)]
pub enum Refusal {
    // Bytes of a circuit, the field's first byte being the place.
    CutShort,
    TagOrLength,
    Version,
    NumberOfBlocks,
    KindOrOption,
    Connector,
    OwnOrLaterBlock,
    Parameter,
    Destination,
    IndexUsedTwice,
    SurplusBytes,
    // A call on a record.
    RecordLength,
    RecordNotSound,
    WrongPhase,
    InputWords,
    OutputWords,
    // Rows, and what they are written to.
    Quote,
    TagKindOrColumns,
    NumberOrLabel,
    NoRoom,
    TooManyBlocks,
}

impl Refusal {
    // Its number.
    pub fn number(self) -> usize
        ensures { result ≡ number_of self }
    {
        match self {
            Refusal::CutShort => 1,
            Refusal::TagOrLength => 2,
            Refusal::Version => 3,
            Refusal::NumberOfBlocks => 4,
            Refusal::KindOrOption => 5,
            Refusal::Connector => 6,
            Refusal::OwnOrLaterBlock => 7,
            Refusal::Parameter => 8,
            Refusal::Destination => 9,
            Refusal::IndexUsedTwice => 10,
            Refusal::SurplusBytes => 11,
            Refusal::RecordLength => 20,
            Refusal::RecordNotSound => 21,
            Refusal::WrongPhase => 22,
            Refusal::InputWords => 23,
            Refusal::OutputWords => 24,
            Refusal::Quote => 30,
            Refusal::TagKindOrColumns => 31,
            Refusal::NumberOrLabel => 32,
            Refusal::NoRoom => 33,
            Refusal::TooManyBlocks => 34,
        }
    }

    // It, of the field at a place.
    pub fn at(self, place: usize) -> Refused
        ensures { result ≡ record { refusal = self; place = place } }
    {
        Refused {
            refusal: self,
            place,
        }
    }
}

// A refusal, and its place: 0 where it is of no field, as the answer in C has it.
#[derive(Clone, Copy, PartialEq, Eq)]
pub struct Refused {
    pub refusal: Refusal,
    pub place: usize,
}

impl From<Refusal> for Refused {
    ghost from_gives = { λ refusal refused. refused ≡ record { refusal = refusal; place = 0 } };

    fn from(refusal: Refusal) -> Self {
        Refused { refusal, place: 0 }
    }
}

// Refusal number or 0, place, first, second: four numbers, since C knows no `Result`.
#[repr(C)]
#[derive(Clone, Copy)]
pub struct Answer {
    pub number: usize,
    pub place: usize,
    pub first: usize,
    pub second: usize,
}

impl From<Result<(usize, usize), Refused>> for Answer {
    ghost from_gives = { λ judged answer. answer ≡ answer_of judged };

    fn from(judged: Result<(usize, usize), Refused>) -> Self {
        match judged {
            Ok((first, second)) => Answer {
                number: 0,
                place: 0,
                first,
                second,
            },
            Err(refused) => Answer {
                number: refused.refusal.number(),
                place: refused.place,
                first: 0,
                second: 0,
            },
        }
    }
}

// A field that lies within the bytes: its first byte, and the length of its content. It holds no part of the slice, since a refusal tells the place.
#[derive(Clone, Copy)]
pub struct Field<'a> {
    pub bytes: &'a [u8],
    pub at: usize,
    pub size: usize,
    ghost inside: { (at + 3) + size ≤ length bytes.now },
}

impl Field<'_> {
    // Where the next one begins.
    pub fn end(self) -> usize
        ensures { result ≡ (self.entry.at + 3) + self.entry.size }
    {
        self.at + 3 + self.size
    }
}

// The stages of a circuit: the header is awaited; the last field was the header or a label; a block; a row; the end.
#[derive(Clone, Copy, PartialEq, Eq)]
pub enum Stage {
    Opening,
    AmongBlocks,
    AfterBlock,
    AmongRows,
    Ended,
}

// The most blocks, and the greatest number of Q, AQ, M and AM. Any numbers: what is promised of `Destination::limit` holds at all limits, so that they
// are not above ours (`Modest`) is asked where the arrays need it.
#[derive(Clone, Copy)]
pub struct Limits {
    pub blocks: usize,
    pub q: usize,
    pub aq: usize,
    pub m: usize,
    pub am: usize,
}

// Our limits.
pub const OURS: Limits = Limits {
    blocks: 400,
    q: 20,
    aq: 8,
    m: 64,
    am: 64,
};

// Those of the series 0BA6.
pub const OLDER: Limits = Limits {
    blocks: 200,
    q: 16,
    aq: 2,
    m: 27,
    am: 6,
};
