// Numbers in decimal digits, read and written, without division. Knows nothing of circuits.
#![tactic(auto)]

ghost use Rattle.std.specs.Prelude.{◌≡◌, ◌+◌, ◌/◌, ◌<◌, ◌≤◌, ◌%◌, length, set};
ghost use Rattle.std.proofs.lemmas.List.Edits.{sets};
ghost use Rattle.digits.specs.Carried.{size_of};
ghost use Rattle.digits.specs.Numbers.{number_read, number_of, size_in, last_digits, width, decimal, signed_decimal};

// A number that a cell says: whether a minus stands before it, and its size.
#[derive(Clone, Copy)]
pub struct Number {
    pub negative: bool,
    pub size: u32,
}

// A tenth. It stays a product: the archive has no division.
fn tenth(n: u32) -> u32
    ensures { result ≡ n / 10 }
{
    ((n as u64 * 3435973837) >> 35) as u32
}

// The number that digits alone say, if it is at most the limit.
#[tactic(auto, using(crate::proofs::Laws::size_steps))]
fn size_in(digits: &[u8], limit: u32) -> Option<u32>
    ensures { result ≡ size_of limit digits.now }
{
    if digits.is_empty() {
        return None;
    }
    let mut size: u64 = 0;
    for x in digits {
        if !x.is_ascii_digit() {
            return None;
        }
        size = size * 10 + (*x - b'0') as u64;
        if (limit as u64) < size {
            return None;
        }
    }
    Some(size as u32)
}

// Whether a minus stands first, where one may; the bytes behind it, and how far they go.
#[tactic(auto, using(crate::proofs::Laws::signs))]
fn sign_of<'a>(cell: &'a [u8], below: u32, above: u32) -> (bool, &'a [u8], u32)
    ensures { size_in result.0 result.2 result.1.now ≡ number_of below above cell.now }
{
    match cell {
        [b'-', digits @ ..] if below != 0 => (true, digits, below),
        _ => (false, cell, above),
    }
}

// The number that a cell says, if it is from -below to above.
#[tactic(auto, using(crate::proofs::Laws::size_is))]
pub fn number_of(cell: &[u8], below: u32, above: u32) -> Option<Number>
    ensures { number_read result ≡ number_of below above cell.now }
{
    let (negative, digits, limit) = sign_of(cell, below, above);
    let size = size_in(digits, limit)?;
    Some(Number { negative, size })
}

// How many digits n has.
#[tactic(auto, unfolding(crate::specs::Numbers::width))]
fn width_of(n: u32) -> usize
    ensures { result ≡ width n }
{
    match n {
        0..=9 => 1,
        10..=99 => 2,
        100..=999 => 3,
        1000..=9999 => 4,
        10000..=99999 => 5,
        100000..=999999 => 6,
        1000000..=9999999 => 7,
        10000000..=99999999 => 8,
        100000000..=999999999 => 9,
        _ => 10,
    }
}

// Puts n's last digit at i, and gives the others.
fn put_digit(t: &mut [u8], i: usize, n: u32) -> u32
    requires { i < length t.old }
    ensures { (result ≡ n / 10) × (t.new ≡ set t.old i (48 + n % 10)) }
{
    let others = tenth(n);
    t[i] = b'0' + (n - others * 10) as u8;
    others
}

// Puts n's last k digits from `at` on.
#[tactic(auto, using(crate::proofs::Decimal::put_turns))]
fn put_digits(t: &mut [u8], at: usize, k: usize, n: u32)
    requires { at + k ≤ length t.old }
    ensures { t.new ≡ sets t.old at (last_digits k n) }
{
    let mut others = n;
    for j in (0..k).rev() {
        others = put_digit(t, at + j, others);
    }
}

// Puts n in decimal from `at` on, and gives the place behind it.
#[tactic(auto, unfolding(crate::specs::Numbers::decimal), using(crate::proofs::Decimal::lengths))]
pub fn put_decimal(t: &mut [u8], at: usize, n: u32) -> usize
    requires { at + length (decimal n) ≤ length t.old }
    ensures { (result ≡ at + length (decimal n)) × (t.new ≡ sets t.old at (decimal n)) }
{
    let k = width_of(n);
    put_digits(t, at, k, n);
    at + k
}

// How many bytes the number takes in decimal.
#[tactic(auto, using(crate::proofs::Put::signed_sizes))]
pub fn signed_size(n: i32) -> usize
    ensures { (result ≡ length (signed_decimal n)) × (result ≤ 11) }
{
    let size = width_of(n.unsigned_abs());
    if n < 0 { 1 + size } else { size }
}

// Puts the number in decimal from `at` on, and gives the place behind it.
#[tactic(auto, using(crate::proofs::Put::signs))]
pub fn put_signed(t: &mut [u8], at: usize, n: i32) -> usize
    requires { at + length (signed_decimal n) ≤ length t.old }
    ensures { (result ≡ at + length (signed_decimal n)) × (t.new ≡ sets t.old at (signed_decimal n)) }
{
    let size = n.unsigned_abs();
    if 0 <= n {
        return put_decimal(t, at, size);
    }
    t[at] = b'-';
    put_decimal(t, at + 1, size)
}
