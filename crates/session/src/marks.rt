// A session by value: its present state and its marks.
ghost use Rattle.std.specs.Prelude.{◌≡◌, ◌-◌, ◌<◌};
ghost use Rattle.std.specs.Option.{unwrap_or};
ghost use Rattle.lists.specs.Lists.{any};
ghost use Rattle.tasks.specs.Refusals.{unless_refused};
ghost use Rattle.session.specs.Session.{fresh, mark_at, first_of, beyond, never_set, marked, improper_mark, improper_session};

use tasks::{Refusal, State, Table, outside};

// The present state, and marks 1 to 8: the state under each, where it is set.
#[derive(Clone, Copy, Debug, PartialEq, Eq)]
pub struct Session {
    pub present: State,
    pub marks: [Option<State>; 8],
}

// The place of mark k, or 15 where k is no mark's number.
fn place(k: u8) -> Result<usize, Refusal>
    ensures { result ≡ unless_refused (beyond k) (k - 1) }
{
    if outside(k) {
        return Err(Refusal::MarkNumber);
    }
    Ok(usize::from(k - 1))
}

impl Session {
    // A fresh session: the start state, no marks.
    pub fn fresh() -> Session
        ensures { result ≡ fresh }
    {
        Session {
            present: State::start(),
            marks: [None; 8],
        }
    }

    // The state under mark k, or 15 where k is no mark's number, or 16 where the mark was never set.
    pub(crate) fn mark(self, k: u8) -> Result<State, Refusal>
        ensures { result ≡ unless_refused (first_of (beyond k) (never_set self k)) (unwrap_or (mark_at self k) self.present) }
    {
        let mark = self.marks[place(k)?];
        mark.ok_or(Refusal::MarkUnset)
    }

    // The session with its present state under mark k, or 15 where k is no mark's number.
    pub(crate) fn marked(self, k: u8) -> Result<Session, Refusal>
        ensures { result ≡ unless_refused (beyond k) (marked self k) }
    {
        let i = place(k)?;
        let mut x = self;
        x.marks[i] = Some(self.present);
        Ok(x)
    }

    // Whether the ith mark, counted from 0, is set and its state not proper.
    fn improper_mark(self, t: Table, i: usize) -> bool
        requires { i < 8 }
        ensures { result ≡ improper_mark t self i }
    {
        self.marks[i].is_some_and(|state| state.improper(t))
    }

    // Whether a marked state is not proper.
    fn any_improper(self, t: Table) -> bool
        ensures { result ≡ any 8 (improper_mark t self) }
    {
        lists::any_place(|i| self.improper_mark(t, i))
    }

    // Whether the present state or a marked one is not proper.
    pub(crate) fn improper(self, t: Table) -> bool
        ensures { result ≡ improper_session t self }
    {
        self.present.improper(t) | self.any_improper(t)
    }
}
