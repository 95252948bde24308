// A block of an accepted circuit, read from its bytes and ready to be worked out.
#![tactic(auto)]

ghost use Rattle.std.specs.Prelude.{◌≡◌, ◌+◌, ◌*◌, ◌≤◌, ◌<◌, length};
ghost use Rattle.kinds.specs.Codes.{byte_of};
ghost use Rattle.connectors.specs.Connectors.{connectors_at};
ghost use Rattle.blockfield.specs.BlockField.{kind_at};
ghost use Rattle.blockfield.specs.Marked.{Lies};
ghost use Rattle.decoding.specs.Decoded.{block_at};
ghost use Rattle.lines.specs.Lines.{nth, input_said, inputs_said, line_of, line_said};

use blocks::Prepared;
use kinds::{Kind, Setting, Ticks};

// What an input of a block is connected to: class byte and number; 0 and 0 where to nothing. The byte and no `Class`: what `value_from` and `bit_from`
// promise holds of every byte.
#[derive(Clone, Copy)]
pub struct Input {
    pub class: u8,
    pub number: u16,
}

// Kind, retentive or not, the inputs, parameters made ready.
#[derive(Clone, Copy)]
pub struct Line {
    pub kind: Kind,
    pub retentive: bool,
    pub inputs: [Input; 4],
    pub prepared: Prepared,
}

// Connector j of `count` that stand from a place on; none beyond them.
fn input_at(bytes: &[u8], from: usize, count: usize, j: usize) -> Input
    requires { (from + 3 * count ≤ length bytes.now) × (j < 4) }
    ensures { input_said result ≡ nth (connectors_at bytes.now from count) j }
{
    if j < count {
        let at = from + 3 * j;
        Input {
            class: bytes[at],
            number: words::two_at(bytes, at + 1) as u16,
        }
    } else {
        Input {
            class: 0,
            number: 0,
        }
    }
}

// The kind of the block at a place.
pub fn kind_at(bytes: &[u8], at: usize) -> Kind
    requires { Lies bytes.now at }
    ensures { byte_of result ≡ kind_at bytes.now at }
{
    let Ok(kind) = Kind::try_from(bytes[at + 3]) else {
        unreachable!()
    };
    kind
}

// Its T in ticks, read from its timebase and its T alone.
pub fn time_at(bytes: &[u8], at: usize) -> Ticks
    requires { Lies bytes.now at }
    ensures { result ≡ (line_of (block_at bytes.now at)).prepared.time }
{
    let kind = kind_at(bytes, at);
    if kind.times() == 0 {
        return Ticks(0);
    }
    let count = kind.digital_inputs() + kind.analog_inputs();
    let base = at + 5 + 3 * count;
    let setting = Setting::new(
        words::signed_four_at(bytes, base),
        words::signed_four_at(bytes, base + 4),
    );
    setting.into()
}

// The line of the block at a place.
pub fn line_at(bytes: &[u8], at: usize) -> Line
    requires { Lies bytes.now at }
    ensures { line_said result ≡ line_of (block_at bytes.now at) }
{
    let kind = kind_at(bytes, at);
    let count = kind.digital_inputs() + kind.analog_inputs();
    let from = at + 5;
    let params = blockfield::parameters_at(bytes, at, kind);
    Line {
        kind,
        retentive: bytes[at + 4] == 1,
        inputs: [
            input_at(bytes, from, count, 0),
            input_at(bytes, from, count, 1),
            input_at(bytes, from, count, 2),
            input_at(bytes, from, count, 3),
        ],
        prepared: blocks::prepare(kind, params),
    }
}
