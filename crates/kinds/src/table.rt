// The one constant table by kind.

// The greatest number of a block: the ticks set, or a count.
#[derive(Clone, Copy)]
pub enum Most {
    Ticks,
    Count(u32),
}

// All that goes by kind, but its rule.
#[derive(Clone, Copy)]
pub struct Row {
    // how many inputs, and what an unused one counts
    pub digitals: u8,
    pub analogs: u8,
    pub unused: bool,
    // how many parameters, how many settings follow the timebase, the ends of each parameter, and 0 for one that the kind has not
    pub parameters: u8,
    pub times: u8,
    // two arrays of numbers: the check covers no table whose rows hold an array of structs
    pub least: [i32; 4],
    pub greatest: [i32; 4],
    pub retentive: bool,
    // whether the output is a number; the greatest remembered word, and the greatest number
    pub analog: bool,
    pub remembered: i32,
    pub most: Most,
    // how many bytes of content a block field has
    pub length: u8,
}

// The greatest T, A, B, and On, Off and Δ, the ends of V, and the greatest count.
const T: i32 = 9999;

const A: i32 = 1000;

const B: i32 = 10000;

const L: i32 = 20000;

const W: i32 = -32768;

const V: i32 = 32767;

const N: i32 = 999999;

// A gate of four inputs, of which an unused one counts 0.
const GATE: Row = Row {
    digitals: 4,
    analogs: 0,
    unused: false,
    parameters: 0,
    times: 0,
    least: [0, 0, 0, 0],
    greatest: [0, 0, 0, 0],
    retentive: false,
    analog: false,
    remembered: 0,
    most: Most::Count(0),
    length: 14,
};

// A gate of four inputs, of which an unused one counts 1.
const CONJUNCTION: Row = Row {
    unused: true,
    ..GATE
};

// The same, which remembers whether all inputs were 1.
const EDGE: Row = Row {
    remembered: 1,
    ..CONJUNCTION
};

// A delay of one input: base, T.
const DELAY: Row = Row {
    digitals: 1,
    parameters: 2,
    times: 1,
    greatest: [2, T, 0, 0],
    retentive: true,
    remembered: 1,
    most: Most::Ticks,
    length: 13,
    ..GATE
};

// A trigger of one input: A, B, On, Off or Δ.
const TRIGGER: Row = Row {
    digitals: 0,
    analogs: 1,
    parameters: 4,
    least: [-A, -B, -L, -L],
    greatest: [A, B, L, L],
    length: 21,
    ..GATE
};

// The amplifier of one input: A, B.
const AMPLIFIER: Row = Row {
    parameters: 2,
    least: [-A, -B, 0, 0],
    greatest: [A, B, 0, 0],
    analog: true,
    length: 13,
    ..TRIGGER
};

// The rows in the order of the kinds, from 1 on.
pub static ROWS: [Row; 19] = [
    CONJUNCTION, // 1 AND
    EDGE, // 2 AND edge
    CONJUNCTION, // 3 NAND
    EDGE, // 4 NAND edge
    GATE, // 5 OR
    GATE, // 6 NOR
    // 7 XOR
    Row {
        digitals: 2,
        length: 8,
        ..GATE
    },
    // 8 NOT
    Row {
        digitals: 1,
        length: 5,
        ..GATE
    },
    // 9 on-delay
    DELAY,
    // 10 off-delay
    Row {
        digitals: 2,
        length: 16,
        ..DELAY
    },
    // 11 latching relay
    Row {
        digitals: 2,
        retentive: true,
        length: 8,
        ..GATE
    },
    // 12 shift register: index, bit
    Row {
        digitals: 3,
        parameters: 2,
        least: [1, 1, 0, 0],
        greatest: [4, 8, 0, 0],
        retentive: true,
        remembered: 1,
        most: Most::Count(255),
        length: 19,
        ..GATE
    },
    // 13 analog threshold trigger
    TRIGGER,
    // 14 comparator
    Row {
        analogs: 2,
        length: 24,
        ..TRIGGER
    },
    // 15 multiplexer: V1, V2, V3, V4
    Row {
        digitals: 3,
        parameters: 4,
        least: [W, W, W, W],
        greatest: [V, V, V, V],
        analog: true,
        length: 27,
        ..GATE
    },
    // 16 differential trigger
    TRIGGER,
    // 17 up/down counter: On, Off
    Row {
        digitals: 3,
        parameters: 2,
        greatest: [N, N, 0, 0],
        retentive: true,
        remembered: 1,
        most: Most::Count(N as u32),
        length: 19,
        ..GATE
    },
    // 18 stairway switch: base, T, T!, T!L
    Row {
        parameters: 4,
        times: 3,
        greatest: [2, T, T, T],
        remembered: 3,
        length: 21,
        ..DELAY
    },
    // 19 analog amplifier
    AMPLIFIER,
];
