// Makes calls that are given as numbers: what `play` says of a list of calls is what the calls do.
#![tactic(auto)]

ghost use Rattle.std.specs.Prelude.{◌≡◌, map};
ghost use Rattle.calls.specs.Calls.{publish};
ghost use Rattle.calls.specs.Play.{on, moment, reply_to, after, play};
ghost use Rattle.player.specs.Orders.{call_of, calls_of};
ghost use Rattle.player.specs.Numbers.{Numbers, order_call};

use refusals::Answer;

// Which call an order asks for.
#[derive(Clone, Copy)]
enum Asked {
    ColdStart,
    WarmStart,
    Latch,
    Run,
    Publish,
    Check,
}

// By its number; any other is check's.
impl From<u32> for Asked {
    ghost from_gives = { Numbers };

    fn from(which: u32) -> Self {
        match which {
            0 => Asked::ColdStart,
            1 => Asked::WarmStart,
            2 => Asked::Latch,
            3 => Asked::Run,
            4 => Asked::Publish,
            _ => Asked::Check,
        }
    }
}

// Publish with the first k output words, or all where there are fewer.
fn publish_first(circuit: &[u8], rec: &mut [i32], outs: &mut [i32], k: u32) -> Answer
    ensures { (result ≡ reply_to circuit.now (on (publish k)) (moment rec.old outs.old))
        × (moment rec.new outs.new ≡ after circuit.now (on (publish k)) (moment rec.old outs.old)) }
{
    let n = outs.len().min(k as usize);
    scan::publish(circuit, rec, &mut outs[..n])
}

// The call is told by its number, since an order is words.
// Makes one call: latch with all input words and e, run up to c blocks, publish with the first c output words.
pub fn make(
    circuit: &[u8],
    rec: &mut [i32],
    outs: &mut [i32],
    inputs: &[i32],
    which: u32,
    c: u32,
    e: i32,
) -> Answer
    ensures { (result ≡ reply_to circuit.now (call_of which c e inputs.now) (moment rec.old outs.old))
        × (moment rec.new outs.new ≡ after circuit.now (call_of which c e inputs.now) (moment rec.old outs.old)) }
{
    match Asked::from(which) {
        Asked::ColdStart => scan::cold_start(circuit, rec),
        Asked::WarmStart => scan::warm_start(circuit, rec),
        Asked::Latch => scan::latch(circuit, rec, inputs, e),
        Asked::Run => scan::run(circuit, rec, c),
        Asked::Publish => publish_first(circuit, rec, outs, c),
        Asked::Check => circuit::check(circuit),
    }
}

// Makes the calls of some orders one after the other.
fn play_each(circuit: &[u8], rec: &mut [i32], outs: &mut [i32], inputs: &[i32], orders: &[[u32; 3]])
    ensures { moment rec.new outs.new ≡ (play circuit.now (map (order_call inputs.now) orders.now) (moment rec.old outs.old)).last }
{
    for order in orders {
        let [which, c, e] = *order;
        make(circuit, rec, outs, inputs, which, c, e.cast_signed());
    }
}

// Makes the calls of a list of orders one after the other.
pub fn play_all(circuit: &[u8], rec: &mut [i32], outs: &mut [i32], inputs: &[i32], orders: &[u32])
    ensures { moment rec.new outs.new ≡ (play circuit.now (calls_of orders.now inputs.now) (moment rec.old outs.old)).last }
{
    let (orders, _) = orders.as_chunks::<3>();
    play_each(circuit, rec, outs, inputs, orders);
}
