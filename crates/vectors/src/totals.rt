// Where the core time went: replays with three totals of each task.
use crate::body::Body;
use crate::space;
use crate::text::Shown;
use service::Totals;
use std::{fmt, io};

// The three totals of each of the eight tasks.
impl fmt::Display for Shown<Totals> {
    fn fmt<W: fmt::Write>(&self, f: &mut fmt::Formatter<W>) -> fmt::Result {
        let totals = self.0;
        for ((releases, ran), left) in totals.releases.iter().zip(&totals.ran).zip(&totals.left) {
            write!(f, " {releases} {ran} {left}")?;
        }
        Ok(())
    }
}

// Kind u, a table and masks: the answer of the replay, its state, and the totals.
pub fn account(rt: &impl Print, mut body: Body) -> io::Result<()> {
    let t = body.table();
    let account = service::service(t, body.rest());
    println!(rt;
        "service{} totals{}",
        Shown(account.replayed),
        Shown(account.totals)
    )
}

// Kind z, a sheet, the length of a totals space and masks: the number that the call for C programs
// returns, and what it leaves in the space.
pub fn call(rt: &impl Print, mut body: Body) -> io::Result<()> {
    let sheet = body.counted();
    let length = body.byte();
    let list = body.rest();
    space::output(rt, "totals", length, |totals| {
        Shown(ronchhek::ronchhek_service(sheet, list, totals))
    })
}
