// The replay of a list, with the totals of each task.
ghost use Rattle.std.specs.Prelude.{◌≡◌, ◌≤◌, length};
ghost use Rattle.tasks.specs.Replay.{replay_tick};
ghost use Rattle.service.specs.Totals.{account_of, Balanced};

use crate::totals::{Account, account_of, named, raised};
use tasks::{Outcome, Refusal, ReplayAnswer, State, Table, Valid};

// The masks of a valid table played from the start state, up to the first miss or refusal. Every state on the way is proper, so of a
// tick's refusals only that of the mask is asked for.
fn play(valid: Valid, masks: &[u8]) -> Account
    ensures { result ≡ account_of valid.table masks.now }
{
    let t = valid.table;
    let mut s = State::start();
    let mut releases = [0u64; 8];
    let mut ran = [0u64; 8];
    for (i, &mask) in masks.iter().enumerate() {
        let tick = i + 1;
        let more = raised(releases, named(mask));
        if s.illegal(t, mask) {
            return account_of(ReplayAnswer::Refused(Refusal::Mask, tick), s, releases, ran);
        }
        let released = s.release(t, mask);
        let run = released.choose(t);
        let longer = raised(ran, run);
        let next = released.run(run);
        if next.missed(t) {
            let answer = ReplayAnswer::Played(Outcome::Missed(tick));
            return account_of(answer, next, more, longer);
        }
        s = next;
        releases = more;
        ran = longer;
    }
    account_of(ReplayAnswer::Played(Outcome::Kept), s, releases, ran)
}

// The replay of a list and its totals, for any table: a bad table is refused before the first tick, with totals of 0.
pub fn service(t: Table, masks: &[u8]) -> Account
    ensures { (result ≡ account_of t masks.now) × Balanced t result.totals × (replay_tick result.replayed.answer ≤ length masks.now) }
{
    if let Err(why) = t.check() {
        let none = [0u64; 8];
        return account_of(ReplayAnswer::Refused(why, 0), State::start(), none, none);
    }
    play(Valid { table: t }, masks)
}
