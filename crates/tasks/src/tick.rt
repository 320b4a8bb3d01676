// One tick: its refusals, and the state after it.
ghost use Rattle.std.specs.Prelude.{◌≡◌};
ghost use Rattle.tasks.specs.Refusals.{unless_refused};
ghost use Rattle.tasks.specs.Tick.{after, refusal, answered, ticked};

use crate::refusal::Refusal;
use crate::state::State;
use crate::table::Table;

// What a tick that is not refused comes to.
#[derive(Clone, Copy, Debug, PartialEq, Eq)]
pub enum Step {
    Next,
    Missed,
}

// The answer of a tick, and the state beside it: the one after it, or the one given to a tick that is refused.
#[derive(Clone, Copy, Debug, PartialEq, Eq)]
pub struct Ticked {
    pub answer: Result<Step, Refusal>,
    pub state: State,
}

// The answer with the state beside it.
fn answered(answer: Result<Step, Refusal>, state: State) -> Ticked
    ensures { result ≡ answered answer state }
{
    Ticked { answer, state }
}

impl State {
    // Steps 1 to 4 of a tick, for any table, state and mask: release, choose, run.
    pub(crate) fn advance(self, t: Table, mask: u8) -> State
        ensures { result ≡ after t self mask }
    {
        let released = self.release(t, mask);
        let run = released.choose(t);
        released.run(run)
    }

    // Whether a tick may be made, or the first of 4 to 7, 13 and 11 that applies.
    fn check(self, t: Table, mask: u8) -> Result<(), Refusal>
        ensures { result ≡ unless_refused (refusal t self mask) tt }
    {
        t.check()?;
        if self.improper(t) {
            return Err(Refusal::Improper);
        }
        if self.illegal(t, mask) {
            return Err(Refusal::Mask);
        }
        Ok(())
    }

    // One tick: a refusal with the state given, or Missed or Next with the state after it.
    pub fn tick(self, t: Table, mask: u8) -> Ticked
        ensures { result ≡ ticked t self mask }
    {
        if let Err(why) = self.check(t, mask) {
            return answered(Err(why), self);
        }
        let next = self.advance(t, mask);
        if next.missed(t) {
            return answered(Ok(Step::Missed), next);
        }
        answered(Ok(Step::Next), next)
    }
}
