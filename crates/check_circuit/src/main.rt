// Reads a circuit from standard input and prints the four numbers of check's answer. With the words --series 0BA6 it prints those of the answer
// for that series, and says whether the circuit fits.
#![tactic(auto)]

use report::Series;
use std::env::{Env, FillError};
use std::io;

// Whether there is an argument of this number.
fn has_argument(rt: &impl Env, k: usize) -> bool {
    !matches!(rt.arg(k, &mut []), Err(FillError::NotPresent))
}

// Whether the argument of this number is this word.
fn argument_is(rt: &impl Env, k: usize, expected: &[u8]) -> bool {
    let mut word = [0u8; 4096];
    match rt.arg(k, &mut word) {
        Ok(n) => &word[..n] == expected,
        Err(_) => false,
    }
}

// For the series that the second argument names.
fn for_series(rt: &(impl Env + Input + Print)) -> io::Result<()> {
    if argument_is(rt, 2, b"0BA6") {
        return report::judged_from(rt, &mut rt.reader(), Series::Older);
    }
    println!(rt; "there is no such series; expected is 0BA6")
}

fn main(rt: HostRuntime) -> io::Result<()> {
    if !has_argument(&rt, 1) {
        return report::judged_from(&rt, &mut rt.reader(), Series::Ours);
    }
    if has_argument(&rt, 2) && !has_argument(&rt, 3) && argument_is(&rt, 1, b"--series") {
        return for_series(&rt);
    }
    println!(rt; "expected is no word, or --series 0BA6")
}
