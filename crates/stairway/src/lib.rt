// What a stairway switch becomes: kind 18. T! and T!L are `warning` and `dark`.
#![tactic(auto)]

ghost use Rattle.std.specs.Prelude.{◌≡◌, ◌≤◌, ◌<◌, ◌^◌};
ghost use Rattle.rules.specs.Rules.{trg_and_running, stands, is_dark, dims, stairway_switch};

use kinds::Ticks;
use rules::{BlockWords, Run};

// What it remembers: Trg, plus 2 while it runs.
fn trg_and_running(trg: bool, running: bool) -> i32
    ensures { result ≡ trg_and_running trg running }
{
    trg as i32 + 2 * running as i32
}

// Its words: Q, Trg, whether it runs, Ta.
fn stood(q: bool, trg: bool, running: bool, ta: u32) -> BlockWords
    requires { ta < 2 ^ 31 }
    ensures { result ≡ stands q trg running ta }
{
    BlockWords {
        output: q as i32,
        remembered: trg_and_running(trg, running),
        number: ta as i32,
    }
}

// Its times: T that runs, and within it T! and T!L.
#[derive(Clone, Copy)]
pub struct Times {
    pub run: Run,
    pub warning: Ticks,
    pub dark: Ticks,
    pub ghost within: { (warning.0 ≤ run.t.0) × (dark.0 ≤ run.t.0) },
}

impl Times {
    // Whether the light is out as a warning.
    fn is_dark(self, ta: Ticks) -> bool
        ensures { result ≡ is_dark ta self.run.t self.warning self.dark }
    {
        let from = self.run.t.0 - self.warning.0;
        (from <= ta.0) & (ta.0 < from + self.dark.0)
    }

    // Running, with Trg 0: it ends at T.
    fn dimmed(self, ta: Ticks) -> BlockWords
        requires { ta.0 < 2 ^ 31 }
        ensures { result ≡ dims ta self.run.t self.warning self.dark }
    {
        if ta.0 == self.run.t.0 {
            stood(false, false, false, 0)
        } else {
            stood(!self.is_dark(ta), false, true, ta.0)
        }
    }
}

// Kind 18, stairway switch.
#[tactic(auto, unfolding(rules::specs::Rules::stairway_switch))]
pub fn stairway_switch(trg: bool, was: bool, ran: bool, times: Times) -> BlockWords
    ensures { result ≡ stairway_switch trg was ran times.run.ta times.run.t times.warning times.dark times.run.e }
{
    match (trg, was, ran) {
        (true, false, _) => stood(true, true, true, 0),
        (true, true, _) => stood(ran, true, ran, 0),
        (false, _, false) => stood(false, false, false, 0),
        (false, true, true) => times.dimmed(Ticks(0)),
        (false, false, true) => times.dimmed(times.run.grown()),
    }
}
