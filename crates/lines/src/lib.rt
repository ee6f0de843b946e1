// A part of a schedule file, run as one batch, and the lines that `schedule` prints of it.
#![tactic(auto)]

ghost use Rattle.std.specs.Prelude.{◌≡◌, List, ℕ, ◌+◌, ◌*◌, ◌^◌, ◌≤◌, ◌<◌, length, get_or, pos};
ghost use Rattle.listing.specs.Puts.{Room, longest, Put};
ghost use Rattle.model.specs.Calls.{Call, Answer, pairs_in};
ghost use Rattle.lines.specs.Lines.{line_of, lines_behind, most_for};
ghost use Rattle.soundness.specs.Tested.{lent};
ghost use Rattle.batch.specs.Lists.{input_of, output_of};
ghost use Rattle.lines.specs.Parts.{Printed};
ghost use Rattle.lines.specs.Told.{hands_out, shown_of, Natural, Celled, Cells, Told, Tells, ToldAll, TellsAll};

use batch::Batch;
use tables::{Coordinator, Ticket};

// A cell that is no negative number.
fn natural(cells: &[i64], i: usize) -> u64
    requires { Natural cells.now i }
    ensures { get_or cells.now i (pos 0) ≡ pos result }
{
    cells[i] as u64
}

// How many of a call's cells its line shows: its code, 0 or the refusal and, where it is not refused, its numbers.
fn shown_cells(code: u64, res: u64) -> usize
    ensures { result ≡ shown_of code res }
{
    if res != 0 {
        return 2;
    }
    match code {
        10 | 12 => 4,
        13 => 5,
        _ => 3,
    }
}

// Whether a call of this code, where it is not refused, hands out pairs.
fn hands_out(code: u64) -> bool
    ensures { result ≡ hands_out code }
{
    code == 8 || code == 10
}

// How many pairs a call handed out, which its first number says.
fn pair_count(cells: &[i64]) -> usize
    requires { Cells cells.now }
    ensures { (code : ℕ) (answer : Answer) → Celled code answer cells.now → result ≡ length (pairs_in answer) }
{
    if natural(cells, 1) != 0 {
        return 0;
    }
    if hands_out(natural(cells, 0)) {
        return natural(cells, 2) as usize;
    }
    0
}

// Puts the line of a transaction, from its cells and its pairs.
pub fn put_transaction(
    out: &mut [u8],
    at: usize,
    number: u64,
    cells: &[i64],
    keys: &[i64],
    values: &[i64],
) -> usize
    requires { Tells cells.now keys.now values.now × Room out.old at (longest (6 + 2 * length keys.now)) }
    ensures { (code : ℕ) (answer : Answer) → Told code answer cells.now keys.now values.now → Put out.old at (longest (6 + 2 * length keys.now)) (line_of number code answer) out.new result }
{
    let count = shown_cells(natural(cells, 0), natural(cells, 1));
    listing::put_line(out, at, number, &cells[..count], keys, values)
}

// Puts the lines of calls behind so many transactions, from the cells and the pairs that a batch laid down.
pub fn put_lines(out: &mut [u8], before: u64, cells: &[i64], keys: &[i64], values: &[i64]) -> usize
    requires { TellsAll cells.now keys.now values.now × Room out.old 0 (most_for (length cells.now) (length keys.now)) × (before * 5 + length cells.now < 5 * 2 ^ 64) }
    ensures { (hs : List (Call × Answer)) → ToldAll hs cells.now keys.now values.now → Put out.old 0 (most_for (length cells.now) (length keys.now)) (lines_behind before hs) out.new result }
{
    let mut at: usize = 0;
    let mut number = before;
    let mut pairs: usize = 0;
    for call in cells.chunks_exact(5) {
        let end = pairs + pair_count(call);
        number += 1;
        at = put_transaction(
            out,
            at,
            number,
            call,
            &keys[pairs..end],
            &values[pairs..end],
        );
        pairs = end;
    }
    at
}

// What a part came to: the batch, and how many bytes its lines take.
#[derive(Clone, Copy, Debug, PartialEq, Eq)]
pub struct Part {
    pub batch: Batch,
    pub length: usize,
}

// Makes the calls of a part of a schedule file, behind so many transactions, and puts their lines at the front of `out`.
pub fn run_part(
    keys: &mut [u64],
    values: &mut [i64],
    rows: &mut [u32],
    buckets: &mut [u32],
    tickets: &mut [Ticket; 16],
    coordinator: &mut Coordinator,
    bytes: &[u8],
    more: bool,
    before: u64,
    answers: &mut [i64],
    out_keys: &mut [i64],
    out_values: &mut [i64],
    out: &mut [u8],
) -> Part
    requires { Room out.old 0 (most_for (length answers.old) (length out_keys.old)) × (before + length bytes.now < 2 ^ 64) }
    ensures { Printed (input_of (lent keys.old values.old rows.old buckets.old tickets.old coordinator.old) bytes.now more answers.old out_keys.old out_values.old) before out.old (output_of (lent keys.new values.new rows.new buckets.new tickets.new coordinator.new) answers.new out_keys.new out_values.new result.batch) out.new result.length }
{
    let batch = batch::run_list(
        keys,
        values,
        rows,
        buckets,
        tickets,
        coordinator,
        bytes,
        more,
        answers,
        out_keys,
        out_values,
    );
    let cells = batch.calls * 5;
    let pairs = batch.pairs;
    let length = put_lines(
        out,
        before,
        &answers[..cells],
        &out_keys[..pairs],
        &out_values[..pairs],
    );
    Part { batch, length }
}
