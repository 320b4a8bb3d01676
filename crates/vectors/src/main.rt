// Runs outside vectors over the library: reads records from standard input and prints a line for each.
// A record is a kind, the length of its body in two bytes, low byte first, and the body;
// tests/make_vectors.py makes the records and the lines expected, and says what each kind holds.
#![tactic(auto)]

mod body;
mod columns;
mod cuts;
mod drawn;
mod files;
mod kind;
mod number;
mod sessions;
mod sheet;
mod space;
mod table;
mod text;
mod tick;
mod totals;
mod verdicts;
mod writer;

use body::Body;
use kind::Kind;
use std::io;
use std::io::{ErrorKind, Read};

// Prints a title, as a line that starts with #.
fn title(rt: &impl Print, body: Body) -> io::Result<()> {
    print!(rt; "# ")?;
    rt.write_all(body.rest())?;
    println!(rt)
}

// Prints the line of one record of a known kind.
fn answer(rt: &impl Print, kind: Kind, body: Body) -> io::Result<()> {
    match kind {
        Kind::Title => title(rt, body),
        Kind::Number => number::number(rt, body),
        Kind::Sheet => sheet::sheet(rt, body),
        Kind::Table => table::table(rt, body),
        Kind::Write => writer::write(rt, body),
        Kind::Round => writer::round(rt, body),
        Kind::Practice => drawn::table(rt, body),
        Kind::Made => drawn::make(rt, body),
        Kind::Tick => tick::tick(rt, body),
        Kind::Replay => tick::replay(rt, body),
        Kind::Search => verdicts::search(rt, body),
        Kind::Call => verdicts::call(rt, body),
        Kind::Layout => verdicts::layout(rt, body),
        Kind::Evidence => verdicts::evidence(rt, body),
        Kind::Closed => files::judge(rt, body),
        Kind::File => files::judge_table(rt, body),
        Kind::Service => totals::account(rt, body),
        Kind::Totals => totals::call(rt, body),
        Kind::Session => sessions::calls(rt, body),
        Kind::Calls => sessions::calls_for_c(rt, body),
        Kind::CutTable => cuts::of_table(rt, body),
        Kind::CutState => cuts::of_state(rt, body),
        Kind::CutSheet => cuts::of_sheet(rt, body),
        Kind::CutList => cuts::of_list(rt, body),
        Kind::After => tick::after(rt, body),
    }
}

// Fills the bytes lent from the input, and answers whether it had as many left.
fn read_whole(input: &mut impl Read, bytes: &mut [u8]) -> io::Result<bool> {
    match input.read_exact(bytes) {
        Ok(()) => Ok(true),
        Err(e) if e.kind() == ErrorKind::UnexpectedEof => Ok(false),
        Err(e) => Err(e),
    }
}

// Reads the letter and the body of the next record, the body into the front of a space. None at the end of the
// input, and where a body does not fit.
fn record<'a>(input: &mut impl Read, space: &'a mut [u8]) -> io::Result<Option<(u8, Body<'a>)>> {
    let mut head = [0u8; 3];
    if !read_whole(input, &mut head)? {
        return Ok(None);
    }
    let [letter, low, high] = head;
    let length = usize::from(u16::from_le_bytes([low, high]));
    let Some(body) = space.get_mut(..length) else {
        return Ok(None);
    };
    if !read_whole(input, body)? {
        return Ok(None);
    }
    Ok(Some((letter, Body(body))))
}

// A proved loop has to end, so this one counts its turns up to a number that no run reaches.
fn records(rt: &impl Print, input: &mut impl Read, space: &mut [u8]) -> io::Result<()> {
    for _ in 0..u64::MAX {
        let Some((letter, body)) = record(input, space)? else {
            break;
        };
        match Kind::try_from(letter) {
            Ok(kind) => answer(rt, kind, body)?,
            Err(unknown) => println!(rt; "{unknown}")?,
        }
    }
    Ok(())
}

fn main(rt: HostRuntime) -> io::Result<()> {
    let mut space = [0u8; 4096];
    records(&rt, &mut rt.stdin(), &mut space)
}
