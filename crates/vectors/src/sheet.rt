// Sheets that are read.
use crate::body::Body;
use crate::text::Shown;
use std::{fmt, io};
use tasks::Table;

// The table of a sheet that is accepted.
#[derive(Clone, Copy)]
pub struct Accepted(pub Table);

impl fmt::Display for Shown<Accepted> {
    fn fmt<W: fmt::Write>(&self, f: &mut fmt::Formatter<W>) -> fmt::Result {
        write!(f, " accepted{}", Shown(self.0.0))
    }
}

// Kind s, a sheet: the table that it is read as, or its refusal.
pub fn sheet(rt: &impl Print, body: Body) -> io::Result<()> {
    println!(rt;
        "sheet{}",
        Shown(tasks::read_sheet(body.rest()).map(Accepted))
    )
}
