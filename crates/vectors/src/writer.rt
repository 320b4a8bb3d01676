// Sheets that are written, and those that are read and written again.
use crate::body::Body;
use crate::space;
use crate::text::{Refused, Shown};
use std::io;

// Kind w, a table and the length of an output: what the writer answers and leaves there.
pub fn write(rt: &impl Print, mut body: Body) -> io::Result<()> {
    let t = body.table();
    space::output(
        rt,
        "write",
        body.byte(),
        |out| Shown(tasks::write_sheet(t, out)),
    )
}

// Kind r, a sheet: the same sheet again, read and written into 64 bytes.
pub fn round(rt: &impl Print, body: Body) -> io::Result<()> {
    match tasks::read_sheet(body.rest()) {
        Ok(t) => space::output(rt, "round", 64, |out| Shown(tasks::write_sheet(t, out))),
        Err(r) => println!(rt; "round{}", Refused(r)),
    }
}
