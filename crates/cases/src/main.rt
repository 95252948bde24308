// Judges each circuit that an argument names, and prints the name and the answer, a line to each, and on a second line the answer for the
// series 0BA6. An accepted one it also plays: a cold start and 551 scans in turns, of which it shows the first two and the last two, and a
// latch that must be refused; and a cold start and nine scans, a tick apart, of which it shows Q1.
#![tactic(auto)]

use report::ROOM;
use std::env::{Env, FillError};
use std::rt::Files;
use std::{fs, io, str};

// The most blocks, and the words of the record that has room for them.
const BLOCKS: usize = 400;

const RECORD: usize = 1364;

// ---- one scan

// 32 input words: I1 is 1, the others are 1 in every second scan; the analog ones are as told.
fn reading(scan: u32, analog: i32) -> [i32; 32] {
    let mut inputs = [(scan % 2 == 0) as i32; 32];
    inputs[0] = 1;
    inputs[24..].fill(analog);
    inputs
}

// 32 input words: I1 is 1 in the first two scans, I2 in every second from the first on; the others are 0.
fn short_reading(scan: u32) -> [i32; 32] {
    let mut inputs = [0i32; 32];
    inputs[0] = (scan <= 2) as i32;
    inputs[1] = (scan % 2 == 1) as i32;
    inputs
}

// Latch, a turn of one block, a turn of none, a turn of the others, publish.
fn scan_of(circuit: &[u8], rec: &mut [i32], outs: &mut [i32], inputs: &[i32], e: i32) {
    scan::latch(circuit, rec, inputs, e);
    scan::run(circuit, rec, 1);
    scan::run(circuit, rec, 0);
    scan::run(circuit, rec, 4294967295);
    scan::publish(circuit, rec, outs);
}

// A scan of the long play.
fn scan_once(circuit: &[u8], rec: &mut [i32], outs: &mut [i32], scan: u32) {
    let inputs = reading(scan, 1000);
    scan_of(circuit, rec, outs, &inputs, 65535);
}

// ---- what is shown

// Words on a line.
fn show_words(rt: &impl Print, words: &[i32]) -> io::Result<()> {
    for word in words {
        print!(rt; " {word}")?;
    }
    Ok(())
}

// The name, the scan, the outputs, and the three words of block 1.
fn show(rt: &impl Print, path: &str, scan: u32, rec: &[i32], outs: &[i32]) -> io::Result<()> {
    print!(rt; "{path} scan {scan}")?;
    show_words(rt, outs)?;
    let own = record::words_of(rec, 1);
    println!(rt; " block 1 {} {} {}", own.output, own.remembered, own.number)
}

// Plays an accepted circuit on a record of its length.
fn played(rt: &impl Print, path: &str, circuit: &[u8], rec: &mut [i32]) -> io::Result<()> {
    let mut outs = [7i32; 28];
    scan::cold_start(circuit, rec);
    for scan in 1..552 {
        scan_once(circuit, rec, &mut outs, scan);
        if matches!(scan, 1 | 2 | 550 | 551) {
            show(rt, path, scan, &rec[..], &outs)?;
        }
    }
    let inputs = reading(552, 1001);
    print!(rt; "{path} analog 1001 ")?;
    report::line(rt, scan::latch(circuit, rec, &inputs, 65535))
}

// A scan, a tick behind the one before, and its Q1.
fn short_scan(rt: &impl Print, circuit: &[u8], rec: &mut [i32], scan: u32) -> io::Result<()> {
    let mut outs = [7i32; 28];
    let inputs = short_reading(scan);
    scan_of(circuit, rec, &mut outs, &inputs, 1);
    print!(rt; " {}", outs[0])
}

// Nine of them.
fn nine_scans(rt: &impl Print, circuit: &[u8], rec: &mut [i32]) -> io::Result<()> {
    for scan in 1..10 {
        short_scan(rt, circuit, rec, scan)?;
    }
    Ok(())
}

// The name, and nine scans from a cold start on.
fn played_shortly(rt: &impl Print, path: &str, circuit: &[u8], rec: &mut [i32]) -> io::Result<()> {
    scan::cold_start(circuit, rec);
    print!(rt; "{path} nine scans: Q1")?;
    nine_scans(rt, circuit, rec)?;
    println!(rt)
}

// Both.
fn played_twice(rt: &impl Print, path: &str, circuit: &[u8], rec: &mut [i32]) -> io::Result<()> {
    played(rt, path, circuit, rec)?;
    played_shortly(rt, path, circuit, rec)
}

// And on one of n blocks, none above 400.
fn played_with(rt: &impl Print, path: &str, circuit: &[u8], n: usize) -> io::Result<()> {
    if n <= BLOCKS {
        let mut room = [0i32; RECORD];
        played_twice(rt, path, circuit, &mut room[..record::size_of(n)])?;
    }
    Ok(())
}

// ---- the arguments

// The answer for the series, under the name.
fn answered_for_0ba6(rt: &impl Print, path: &str, circuit: &[u8]) -> io::Result<()> {
    if ROOM <= circuit.len() {
        return Ok(());
    }
    print!(rt; "{path} 0BA6 ")?;
    report::line(rt, circuit::check_profile(circuit))
}

// A circuit, under its name.
fn judged(rt: &impl Print, path: &str, circuit: &[u8]) -> io::Result<()> {
    let judged = report::judged(rt, circuit)?;
    answered_for_0ba6(rt, path, circuit)?;
    match judged {
        Ok((blocks, _)) => played_with(rt, path, circuit, blocks),
        Err(_) => Ok(()),
    }
}

// The circuit in a file.
fn run(rt: &(impl Files + Print + Eprint), path: &str) -> io::Result<()> {
    print!(rt; "{path} ")?;
    let mut file = match fs::open(rt, path) {
        Ok(file) => file,
        Err(error) => return eprintln!(rt; "{path}: {error}"),
    };
    let mut bytes = [0u8; ROOM];
    let n = report::read_full(&mut file, &mut bytes)?;
    judged(rt, path, &bytes[..n])
}

// A name that is not UTF-8, as that of a file that can't be opened: paths are text.
fn not_opened(rt: &(impl Print + Eprint), i: usize, name: &[u8]) -> io::Result<()> {
    rt.write_all(name)?;
    print!(rt; " ")?;
    eprintln!(rt; "argument {i}: the name is not UTF-8")
}

// The circuit that argument i names, and whether there is one.
fn run_arg(rt: &(impl Env + Files + Print + Eprint), i: usize) -> io::Result<bool> {
    let mut path = [0u8; 4096];
    let n = match rt.arg(i, &mut path) {
        Ok(n) => n,
        // A name that is too long names no file, as an empty one.
        Err(FillError::TooLong) => 0,
        Err(FillError::NotPresent) => return Ok(false),
    };
    match str::from_utf8(&path[..n]) {
        Ok(name) => run(rt, name)?,
        Err(_) => not_opened(rt, i, &path[..n])?,
    }
    Ok(true)
}

// All of them.
fn run_all(rt: &(impl Env + Files + Print + Eprint)) -> io::Result<()> {
    for i in 1..usize::MAX {
        if !run_arg(rt, i)? {
            break;
        }
    }
    Ok(())
}

fn main(rt: HostRuntime) -> io::Result<()> {
    run_all(&rt)
}
