// What an up/down counter becomes: kind 17.
#![tactic(auto)]

ghost use Rattle.std.specs.Prelude.{◌≡◌, ◌<◌, ◌^◌, pos};
ghost use Rattle.kinds.specs.Kinds.{parameter};
ghost use Rattle.rules.specs.Rules.{gives, tally, counts_on, up_down_counter};

use rules::BlockWords;

// The greatest count.
const MOST: u32 = 999999;

// The count after a scan.
fn tallied(r: bool, rises: bool, down: bool, count: u32) -> u32
    requires { count < 2 ^ 31 }
    ensures { (result ≡ tally r rises down count) × (result < 2 ^ 31) }
{
    match (r, rises, down) {
        (true, ..) => 0,
        (false, false, _) => count,
        (false, true, false) => MOST.min(count + 1),
        (false, true, true) => count.saturating_sub(1),
    }
}

// Q by the count, On, Off and Q of the last scan.
#[tactic(auto, unfolding(rules::specs::Rules::counts_on))]
fn counts(count: i32, on: i32, off: i32, q: bool) -> bool
    ensures { result ≡ counts_on count on off q }
{
    if off <= on {
        (on <= count) | (!(count < off) & q)
    } else {
        (on <= count) & (count < off)
    }
}

// Its words at a count: Q by On and Off, the first two parameters; Cnt is remembered.
fn words_at(count: u32, cnt: bool, q: bool, params: [i32; 4]) -> BlockWords
    requires { count < 2 ^ 31 }
    ensures { result ≡ gives (counts_on (pos count) (parameter params 0) (parameter params 1) q) cnt count }
{
    let on = counts(count as i32, params[0], params[1], q);
    BlockWords::digital(on, cnt, count)
}

// Kind 17, up/down counter: On and Off are the parameters.
#[tactic(auto, unfolding(rules::specs::Rules::up_down_counter))]
pub fn up_down_counter(
    r: bool,
    cnt: bool,
    down: bool,
    was: bool,
    q: bool,
    count: u32,
    params: [i32; 4],
) -> BlockWords
    requires { count < 2 ^ 31 }
    ensures { result ≡ up_down_counter r cnt down was q count params }
{
    let next = tallied(r, cnt & !was, down, count);
    words_at(next, cnt, q, params)
}
