ghost use Rattle.std.specs.Prelude.{◌+◌, ◌*◌, ◌≤◌};

// The shape of a row of a known tag and kind: the field's tag; how many connectors and parameters it has; whether a label may follow.
#[derive(Clone, Copy)]
pub struct Shape {
    pub tag: u8,
    pub inputs: usize,
    pub parameters: usize,
    pub labelled: bool,
    ghost few: { (inputs ≤ 4) × (2 * inputs + parameters ≤ 11) },
}
