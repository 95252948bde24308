// What the programs read and print: a circuit, the four numbers of an answer on one line, words.
#![tactic(auto)]

ghost use Rattle.std.specs.Prelude.{◌<◌, IfSome};
ghost use Rattle.std.specs.Io.{ReadsAtMost};

use decoding::Known;
use fields::Destination;
use refusals::{Answer, OLDER, OURS, Refusal, Refused};
use std::io;
use std::io::Read;

// The most bytes that a program takes, and one more, so that a longer input shows.
const MOST: usize = 65536;

pub const ROOM: usize = 65537;

// The four numbers of an answer on one line. Here and no `Display` in `refusals`: the archive's crates have no text.
pub fn line(rt: &impl Print, a: Answer) -> io::Result<()> {
    println!(rt; "{} {} {} {}", a.number, a.place, a.first, a.second)
}

// Whether a circuit has more bytes than a program takes; that is then printed.
fn is_too_long(rt: &impl Print, bytes: &[u8]) -> io::Result<bool> {
    if bytes.len() <= MOST {
        return Ok(false);
    }
    println!(rt; "too long")?;
    Ok(true)
}

// Judges a circuit and prints check's answer, or that it is too long. Gives blocks and rows, or the refusal: of what is too long the one that it is
// cut short, which no accepted circuit is.
pub fn judged(rt: &impl Print, bytes: &[u8]) -> io::Result<Result<(usize, usize), Refused>> {
    if is_too_long(rt, bytes)? {
        return Ok(Err(Refusal::CutShort.at(0)));
    }
    let counts = circuit::counts_of(bytes);
    line(rt, counts.into())?;
    Ok(counts)
}

// ---- the series 0BA6: whether a circuit fits, and if not which field stands in the way

// The bytes of a row's field.
const ROW_FIELD: usize = 8;

// The name of a class of destinations. Here and no `Display` in `fields`: the archive's crates have no text.
fn name(class: Destination) -> &'static str {
    match class {
        Destination::Output => "Q",
        Destination::Flag => "M",
        Destination::AnalogOutput => "AQ",
        Destination::AnalogFlag => "AM",
    }
}

// All of a class that the series has, as Q1 to Q16, or AQ1 and AQ2.
fn all_of(rt: &impl Print, class: Destination) -> io::Result<()> {
    let (name, most) = (name(class), class.limit(&OLDER));
    let between = if most == 2 { "and" } else { "to" };
    print!(rt; "{name}1 {between} {name}{most}")
}

// The destination of the row at a place, and which there are.
fn destination_at(rt: &impl Print, bytes: &[u8], place: usize) -> io::Result<()> {
    let Some([_, _, _, class, number, ..]) = bytes.get(place..) else {
        return Ok(());
    };
    let Ok(class) = Destination::try_from(*class) else {
        return Ok(());
    };
    print!(rt; "its destination is {}{number}; 0BA6 has ", name(class))?;
    all_of(rt, class)
}

// The block that begins at a place, from 0.
fn block_at(offsets: &[usize; 400], place: usize) -> Option<usize>
    ensures { IfSome result (λ k. k < 400) }
{
    offsets.iter().position(|offset| *offset == place)
}

// The block or the row at a place.
fn field_at(rt: &impl Print, place: usize, known: &Known) -> io::Result<()> {
    if place < known.start {
        // 0 is what is printed where no block begins
        let number = block_at(&known.offsets, place).map_or(0, |k| k + 1);
        print!(rt; "block {number}")?;
    } else {
        print!(rt; "row {}", (place - known.start) / ROW_FIELD + 1)?;
    }
    print!(rt; " at byte {place}: ")
}

// What stands in the way.
fn misfit(rt: &impl Print, bytes: &[u8], refused: Refused, known: &Known) -> io::Result<()> {
    let place = refused.place;
    if refused.refusal == Refusal::NumberOfBlocks {
        let (n, most) = (known.n, OLDER.blocks);
        return print!(rt; "the header says {n} blocks; 0BA6 has at most {most}");
    }
    field_at(rt, place, known)?;
    if refused.refusal == Refusal::Destination {
        return destination_at(rt, bytes, place);
    }
    print!(rt;
        "a connector names a flag above M{} or AM{}",
        OLDER.m, OLDER.am
    )
}

// What a circuit is refused for that does not fit.
fn misfitting(rt: &impl Print, bytes: &[u8], refused: Refused) -> io::Result<()> {
    let mut known = Known::new();
    if let Err(for_any) = circuit::judge(OURS, bytes, &mut known) {
        print!(rt; "is refused for any series: ")?;
        return line(rt, Answer::from(Err(for_any)));
    }
    print!(rt; "does not fit 0BA6: ")?;
    misfit(rt, bytes, refused, &known)?;
    println!(rt)
}

// Judges a circuit for the series and prints the answer, and whether it fits, or that it is too long.
fn judged_for_0ba6(rt: &impl Print, bytes: &[u8]) -> io::Result<()> {
    if is_too_long(rt, bytes)? {
        return Ok(());
    }
    let counts = circuit::profile_counts_of(bytes);
    line(rt, counts.into())?;
    match counts {
        Ok(_) => println!(rt; "fits 0BA6"),
        Err(refused) => misfitting(rt, bytes, refused),
    }
}

// ---- what is read

// Reads until the buffer is full or the input ends, and answers how many bytes stand at its start. By hand: std's `read_exact` refuses a
// shorter input, and does not tell how much of it there was.
pub fn read_full(input: &mut impl Read, buffer: &mut [u8]) -> io::Result<usize>
    ensures { ReadsAtMost result buffer.new }
{
    let mut done = 0;
    while done < buffer.len() {
        let n = input.read(&mut buffer[done..])?;
        if n == 0 {
            break;
        }
        done += n;
    }
    Ok(done)
}

// What a circuit is judged for: our limits, or those of the series 0BA6.
#[derive(Clone, Copy)]
pub enum Series {
    Ours,
    Older,
}

// Reads a circuit to its end and prints the answer to it for a series.
pub fn judged_from(rt: &impl Print, input: &mut impl Read, series: Series) -> io::Result<()> {
    let mut bytes = [0u8; ROOM];
    let n = read_full(input, &mut bytes)?;
    match series {
        Series::Ours => judged(rt, &bytes[..n]).map(drop),
        Series::Older => judged_for_0ba6(rt, &bytes[..n]),
    }
}
