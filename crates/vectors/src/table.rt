// Task tables.
use crate::body::Body;
use crate::text::Shown;
use std::{fmt, io};
use tasks::{Refusal, Table};

// Policy, m, n, then C, D, P of each of the eight entries.
impl fmt::Display for Shown<Table> {
    fn fmt<W: fmt::Write>(&self, f: &mut fmt::Formatter<W>) -> fmt::Result {
        let t = self.0;
        write!(f, " {} {} {}", t.policy, t.m, t.n)?;
        for ((work, deadline), gap) in t.work.iter().zip(&t.deadline).zip(&t.gap) {
            write!(f, " {work} {deadline} {gap}")?;
        }
        Ok(())
    }
}

// Kind t, a table: its refusal, and 0 for a valid one.
pub fn table(rt: &impl Print, mut body: Body) -> io::Result<()> {
    let fault = body.table().check().map_or_else(Refusal::number, |()| 0);
    println!(rt; "table {fault}")
}
