// States, ticks, replays and lists that are played from a state.
use crate::body::Body;
use crate::text::{Refused, Shown};
use std::{array, fmt, io};
use tasks::{Outcome, ReplayAnswer, Replayed, State, Step};

// The state in 16 bytes: c and p of each of eight tasks.
pub fn of_bytes(bytes: [u8; 16]) -> State {
    State {
        c: array::from_fn(|i| bytes[2 * i]),
        p: array::from_fn(|i| bytes[2 * i + 1]),
    }
}

// The 16 bytes of a state.
pub fn to_bytes(s: State) -> [u8; 16] {
    array::from_fn(|i| if i % 2 == 0 { s.c[i / 2] } else { s.p[i / 2] })
}

// c and p of each of the eight tasks.
impl fmt::Display for Shown<State> {
    fn fmt<W: fmt::Write>(&self, f: &mut fmt::Formatter<W>) -> fmt::Result {
        for (c, p) in self.0.c.iter().zip(&self.0.p) {
            write!(f, " {c} {p}")?;
        }
        Ok(())
    }
}

impl fmt::Display for Shown<Step> {
    fn fmt<W: fmt::Write>(&self, f: &mut fmt::Formatter<W>) -> fmt::Result {
        f.write_str(match self.0 {
            Step::Next => " next",
            Step::Missed => " missed",
        })
    }
}

// How a list that was played to its end, or to a miss, came out.
impl fmt::Display for Shown<Outcome> {
    fn fmt<W: fmt::Write>(&self, f: &mut fmt::Formatter<W>) -> fmt::Result {
        match self.0 {
            Outcome::Kept => write!(f, " kept"),
            Outcome::Missed(tick) => write!(f, " missed {tick}"),
        }
    }
}

impl fmt::Display for Shown<ReplayAnswer> {
    fn fmt<W: fmt::Write>(&self, f: &mut fmt::Formatter<W>) -> fmt::Result {
        match self.0 {
            ReplayAnswer::Played(o) => write!(f, "{}", Shown(o)),
            ReplayAnswer::Refused(r, tick) => write!(f, "{} {tick}", Refused(r)),
        }
    }
}

// The answer of a replay, and its state.
impl fmt::Display for Shown<Replayed> {
    fn fmt<W: fmt::Write>(&self, f: &mut fmt::Formatter<W>) -> fmt::Result {
        write!(f, "{}{}", Shown(self.0.answer), Shown(self.0.state))
    }
}

// Kind k, a table, a state and a mask: the answer of one tick, and its state.
pub fn tick(rt: &impl Print, mut body: Body) -> io::Result<()> {
    let t = body.table();
    let s = body.state();
    let ticked = s.tick(t, body.byte());
    println!(rt; "tick{}{}", Shown(ticked.answer), Shown(ticked.state))
}

// Kind p, a table and masks: the answer of the replay, and its state.
pub fn replay(rt: &impl Print, mut body: Body) -> io::Result<()> {
    let t = body.table();
    println!(rt; "replay{}", Shown(tasks::replay(t, body.rest())))
}

// Kind j, a table, a state, a number of ticks before and masks: the answer of the list played from the state,
// and its last state.
pub fn after(rt: &impl Print, mut body: Body) -> io::Result<()> {
    let t = body.table();
    let s = body.state();
    let ticks = body.four();
    println!(rt;
        "after{}",
        Shown(joined::play_after(t, s, ticks, body.rest()))
    )
}
