// The bytes that a cell says, by its text and whether it stands in quotes.
ghost use Rattle.std.specs.Prelude.{◌≡◌, ◌+◌, ◌≤◌, ◌<◌, [], ◌∷◌, length, MatchOption};
ghost use Rattle.std.proofs.lemmas.List.Edits.{sets};
ghost use Rattle.cells.specs.Cells.{undouble};
ghost use Rattle.splitting.specs.Found.{said_by};

// The next byte that the text of a quoted cell says, and the text behind it: two quotes say one.
#[tactic(auto, using(crate::proofs::Copies::undoubled, std::proofs::lemmas::List::take_rest))]
fn next_said(text: &[u8]) -> Option<(u8, &[u8])>
    ensures { MatchOption result (undouble text.now ≡ []) (λ said. (undouble text.now ≡ said.0 ∷ undouble said.1.now) × (length said.1.now < length text.now)) }
{
    match text {
        [] => None,
        [b'"', behind @ ..] => Some((b'"', &behind[behind.len().min(1)..])),
        [x, behind @ ..] => Some((*x, behind)),
    }
}

// How many bytes a cell says. A size and a put, as in `writing`.
#[tactic(auto, using(crate::proofs::Copies::undouble_shorter))]
pub fn content_size(cell: &[u8], quoted: bool) -> usize
    ensures { (result ≡ length (said_by cell.now quoted)) × (result ≤ length cell.now) }
{
    if !quoted {
        return cell.len();
    }
    let mut rest = cell;
    let mut size = 0;
    while let Some((_, behind)) = next_said(rest) {
        size += 1;
        rest = behind;
    }
    size
}

// Puts the bytes that a quoted cell says at a place, and gives the place behind.
#[tactic(auto, using(crate::proofs::Copies::put_one))]
fn put_undoubled(circuit: &mut [u8], to: usize, cell: &[u8]) -> usize
    requires { to + length (undouble cell.now) ≤ length circuit.old }
    ensures { (circuit.new ≡ sets circuit.old to (undouble cell.now)) × (result ≡ to + length (undouble cell.now)) }
{
    let mut rest = cell;
    let mut place = to;
    while let Some((x, behind)) = next_said(rest) {
        circuit[place] = x;
        place += 1;
        rest = behind;
    }
    place
}

// Puts bytes at a place, as they stand. One by one: `copy_from_slice` calls a routine that the archive would need from outside.
#[tactic(auto, using(crate::proofs::Copies::put_one))]
fn put_plain(circuit: &mut [u8], to: usize, cell: &[u8])
    requires { to + length cell.now ≤ length circuit.old }
    ensures { circuit.new ≡ sets circuit.old to cell.now }
{
    let mut rest = cell;
    let mut place = to;
    while let [x, behind @ ..] = rest {
        circuit[place] = *x;
        place += 1;
        rest = behind;
    }
}

// Puts the bytes that a cell says at a place, and tells how many they are: "doubled quotes are undone when it is copied".
pub fn put_content(circuit: &mut [u8], to: usize, cell: &[u8], quoted: bool) -> usize
    requires { to + length (said_by cell.now quoted) ≤ length circuit.old }
    ensures { (circuit.new ≡ sets circuit.old to (said_by cell.now quoted)) × (result ≡ length (said_by cell.now quoted)) }
{
    if quoted {
        return put_undoubled(circuit, to, cell) - to;
    }
    put_plain(circuit, to, cell);
    cell.len()
}
