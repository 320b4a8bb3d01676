// Files of states, judged as evidence of Safe.
use crate::body::Body;
use crate::text::Shown;
use std::{fmt, io};
use tasks::Refusal;

// Whether a file is accepted.
impl fmt::Display for Shown<bool> {
    fn fmt<W: fmt::Write>(&self, f: &mut fmt::Formatter<W>) -> fmt::Result {
        f.write_str(if self.0 { " accepted" } else { " no" })
    }
}

// How a file is judged for a sheet, and the number that the call for C programs returns.
#[derive(Clone, Copy)]
pub struct Judged {
    answer: Result<bool, Refusal>,
    number: u64,
}

impl Judged {
    pub fn of(sheet: &[u8], file: &[u8]) -> Self {
        Judged {
            answer: closed::closed_sheet(sheet, file),
            number: ronchhek::ronchhek_closed(sheet, file),
        }
    }
}

impl fmt::Display for Judged {
    fn fmt<W: fmt::Write>(&self, f: &mut fmt::Formatter<W>) -> fmt::Result {
        write!(f, "{}{}", Shown(self.answer), Shown(self.number))
    }
}

// Kind c, a sheet and a file: how the file is judged, and the number that the call for C programs
// returns.
pub fn judge(rt: &impl Print, mut body: Body) -> io::Result<()> {
    let sheet = body.counted();
    let file = body.rest();
    println!(rt; "closed{}", Judged::of(sheet, file))
}

// Kind f, a table and a file: how the file is judged.
pub fn judge_table(rt: &impl Print, mut body: Body) -> io::Result<()> {
    let t = body.table();
    println!(rt; "file{}", Shown(closed::closed_table(t, body.rest())))
}
