// Kinds 9 and 10: the delays.
ghost use Rattle.std.specs.Prelude.{◌≡◌, ◌<◌, ◌^◌};
ghost use Rattle.rules.specs.Rules.{grown, fades, on_delay, off_delay};

use crate::BlockWords;
use kinds::Ticks;

// The ticks run, e ticks later, and no more than those set.
// By three ticks and not by a `Run`, which asks more of T.
pub fn grown_to(ta: Ticks, t: Ticks, e: Ticks) -> Ticks
    requires { (ta.0 < 2 ^ 31) × (e.0 < 2 ^ 31) }
    ensures { result ≡ grown ta t e }
{
    Ticks(t.0.min(ta.0 + e.0))
}

// A time that runs: the ticks run, those set, and those since the last latch.
#[derive(Clone, Copy)]
pub struct Run {
    pub ta: Ticks,
    pub t: Ticks,
    pub e: Ticks,
    pub ghost in_words: { (ta.0 < 2 ^ 31) × (t.0 < 2 ^ 31) × (e.0 < 2 ^ 31) },
}

impl Run {
    // The ticks run with those since the last latch.
    pub fn grown(self) -> Ticks
        ensures { (result ≡ grown self.ta self.t self.e) × (result.0 < 2 ^ 31) }
    {
        grown_to(self.ta, self.t, self.e)
    }
}

// Kind 9, on-delay.
#[tactic(auto, unfolding(crate::specs::Rules::on_delay))]
pub fn on_delay(trg: bool, was: bool, run: Run) -> BlockWords
    ensures { result ≡ on_delay trg was run.ta run.t run.e }
{
    match (trg, was) {
        (false, _) => BlockWords::digital(false, false, 0),
        (true, false) => BlockWords::digital(0 == run.t.0, true, 0),
        (true, true) => {
            let ta = run.grown();
            BlockWords::digital(ta.0 == run.t.0, true, ta.0)
        }
    }
}

// The off-delay with Q 1 and Trg 0, now and in the last scan.
fn fading(run: Run) -> BlockWords
    ensures { result ≡ fades (grown run.ta run.t run.e) run.t }
{
    let ta = run.grown();
    if ta.0 == run.t.0 {
        BlockWords::digital(false, false, 0)
    } else {
        BlockWords::digital(true, false, ta.0)
    }
}

// Kind 10, off-delay: a rise of Trg sets Q; while Trg stays 1, Q stays.
#[tactic(auto, unfolding(crate::specs::Rules::off_delay))]
pub fn off_delay(r: bool, trg: bool, was: bool, q: bool, run: Run) -> BlockWords
    ensures { result ≡ off_delay r trg was q run.ta run.t run.e }
{
    match (r, trg, was, q) {
        (true, ..) => BlockWords::digital(false, trg, 0),
        (false, true, ..) => BlockWords::digital(!was | q, true, 0),
        (false, false, true, _) => BlockWords::digital(q & (0 < run.t.0), false, 0),
        (false, false, false, true) => fading(run),
        (false, false, false, false) => BlockWords::digital(false, false, run.ta.0),
    }
}
