// Practice tables: policy, m and n are the first bytes of a body, and s the next two, low byte first.
use crate::body::Body;
use crate::sheet::Accepted;
use crate::space;
use crate::text::Shown;
use std::io;

// Kind d, four numbers: the table that they make, or its refusal.
pub fn table(rt: &impl Print, mut body: Body) -> io::Result<()> {
    let [policy, m, n] = body.array::<3>();
    let made = practice::practice_table(policy, m, n, body.pair());
    println!(rt; "practice{}", Shown(made.map(Accepted)))
}

// Kind m, four numbers and the length of an output: the number that the call for C programs returns, and
// what it leaves in the output.
pub fn make(rt: &impl Print, mut body: Body) -> io::Result<()> {
    let [policy, m, n] = body.array::<3>();
    let seed = body.pair();
    space::output(rt, "made", body.byte(), |out| {
        Shown(ronchhek::ronchhek_practice(policy, m, n, seed, out))
    })
}
