// The totals of a replay, and how a tick raises them.
ghost use Rattle.std.specs.Prelude.{◌≡◌};
ghost use Rattle.lists.specs.Lists.{eight};
ghost use Rattle.tasks.specs.Tick.{bit};
ghost use Rattle.service.specs.Totals.{account_from};
ghost use Rattle.service.specs.Raised.{Room, raised_at};

use std::array;
use tasks::{ReplayAnswer, Replayed, State};

// For each of eight tasks: the number of its releases, the ticks in which it ran, and the work left at the end.
#[derive(Clone, Copy, Debug, PartialEq, Eq)]
pub struct Totals {
    pub releases: [u64; 8],
    pub ran: [u64; 8],
    pub left: [u64; 8],
}

// What the replay of a list answers, and its totals.
#[derive(Clone, Copy, Debug, PartialEq, Eq)]
pub struct Account {
    pub replayed: Replayed,
    pub totals: Totals,
}

// The tasks that a mask names.
pub(crate) fn named(mask: u8) -> [bool; 8]
    ensures { result ≡ eight (bit mask) }
{
    array::from_fn(|i| tasks::has_bit(mask, i))
}

// Each number, and one more where its task is among those given.
pub(crate) fn raised(numbers: [u64; 8], tasks: [bool; 8]) -> [u64; 8]
    requires { Room numbers }
    ensures { result ≡ eight (raised_at numbers tasks) }
{
    array::from_fn(|i| numbers[i] + u64::from(tasks[i]))
}

// An answer with the state beside it, and the totals: the work left is that of the state.
pub(crate) fn account_of(
    answer: ReplayAnswer,
    state: State,
    releases: [u64; 8],
    ran: [u64; 8],
) -> Account
    ensures { result ≡ account_from (record { answer = answer; state = state }) releases ran }
{
    Account {
        replayed: Replayed { answer, state },
        totals: Totals {
            releases,
            ran,
            left: state.c.map(u64::from),
        },
    }
}
