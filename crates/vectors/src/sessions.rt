// Sessions: lists of calls, by value and as a C program makes them. A call is two bytes, which call it is and its
// mask or mark.
use crate::body::Body;
use crate::text::{Hex, Shown};
use crate::tick;
use session::{Call, Session};
use std::{fmt, io};
use tasks::{State, Step, Table};

// A session, and the states of its marks that are not set.
#[derive(Clone, Copy)]
pub struct Kept {
    pub session: Session,
    pub unset: [State; 8],
}

// The bytes of a session, those of marks that are not set too.
impl fmt::Display for Shown<Kept> {
    fn fmt<W: fmt::Write>(&self, f: &mut fmt::Formatter<W>) -> fmt::Result {
        let Kept { session, unset } = self.0;
        let flags = session.marks.iter().rev().fold(
            0u8,
            |flags, mark| flags.wrapping_mul(2) | u8::from(mark.is_some()),
        );
        write!(f, " {flags:02x}{}", Hex(&tick::to_bytes(session.present)))?;
        for (mark, unset) in session.marks.iter().zip(&unset) {
            write!(f, "{}", Hex(&tick::to_bytes(mark.unwrap_or(*unset))))?;
        }
        Ok(())
    }
}

// What a call on marks answers: done or missed.
#[derive(Clone, Copy)]
struct Done(Step);

impl fmt::Display for Shown<Done> {
    fn fmt<W: fmt::Write>(&self, f: &mut fmt::Formatter<W>) -> fmt::Result {
        f.write_str(match self.0.0 {
            Step::Next => " done",
            Step::Missed => " missed",
        })
    }
}

// The call in two bytes.
fn call_of(bytes: [u8; 2]) -> Call {
    match bytes {
        [0, mask] => Call::Step(mask),
        [1, mark] => Call::SetMark(mark),
        [_, mark] => Call::ReturnTo(mark),
    }
}

// One call by value, printed, a step with the tick's state; the session after it.
fn call(rt: &impl Print, t: Table, x: Session, call: Call) -> io::Result<Session> {
    let called = match call {
        Call::Step(mask) => {
            let stepped = x.step(t, mask);
            let state = tick::to_bytes(stepped.ticked.state);
            print!(rt; "{} {}", Shown(stepped.ticked.answer), Hex(&state))?;
            return Ok(stepped.session);
        }
        Call::SetMark(mark) => x.set_mark(t, mark),
        Call::ReturnTo(mark) => x.return_to(t, mark),
    };
    print!(rt; "{}", Shown(called.answer.map(Done)))?;
    Ok(called.session)
}

// Kind x, a table, a session and calls: what each answers, and the session after them.
pub fn calls(rt: &impl Print, mut body: Body) -> io::Result<()> {
    let t = body.table();
    let Kept { session, unset } = body.session();
    let mut session = session;
    print!(rt; "session")?;
    let (calls, _) = body.rest().as_chunks();
    for bytes in calls {
        session = call(rt, t, session, call_of(*bytes))?;
    }
    let x = Kept { session, unset };
    println!(rt; "{}", Shown(x))
}

// One call as a C program makes it.
fn call_for_c(sheet: &[u8], session: &mut [u8], call: Call) -> u64 {
    match call {
        Call::Step(mask) => ronchhek::ronchhek_session_step(sheet, session, mask),
        Call::SetMark(mark) => ronchhek::ronchhek_session_mark(sheet, session, mark),
        Call::ReturnTo(mark) => ronchhek::ronchhek_session_return(sheet, session, mark),
    }
}

// Kind y, a sheet, the bytes of a session and calls: the number that each call for C programs returns, and the
// bytes after them.
pub fn calls_for_c(rt: &impl Print, mut body: Body) -> io::Result<()> {
    let mut space = [0u8; 256];
    let sheet = body.counted();
    let bytes = body.counted();
    let session = &mut space[..bytes.len()];
    session.copy_from_slice(bytes);
    print!(rt; "calls")?;
    let (calls, _) = body.rest().as_chunks();
    for bytes in calls {
        print!(rt; " {}", call_for_c(sheet, session, call_of(*bytes)))?;
    }
    println!(rt; " {}", Hex(session))
}
