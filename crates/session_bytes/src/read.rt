// A session read from its bytes. Those of a mark that is not set are not read.
ghost use Rattle.std.specs.Prelude.{◌≡◌, ◌+◌, ◌<◌};
ghost use Rattle.states.specs.Bytes.{state_from};
ghost use Rattle.session_bytes.specs.Space.{place, mark_from, session_from};

use session::Session;
use std::array;
use tasks::State;

// How many bytes a session has.
pub(crate) const BYTES: usize = 145;

// State j of the nine: 0 the present one, and 1 to 8 those of the marks.
fn state_at(space: &[u8; BYTES], j: usize) -> State
    requires { j < 9 }
    ensures { result ≡ state_from space.now (place j) }
{
    State::of_words(states::words_in(&space[1..], j))
}

// The ith mark, counted from 0.
fn mark_at(space: &[u8; BYTES], i: usize) -> Option<State>
    requires { i < 8 }
    ensures { result ≡ mark_from space.now i }
{
    tasks::has_bit(space[0], i).then(|| state_at(space, i + 1))
}

// The session in 145 bytes.
pub(crate) fn read_session(space: &[u8; BYTES]) -> Session
    ensures { result ≡ session_from space.now }
{
    Session {
        present: state_at(space, 0),
        marks: array::from_fn(|i| mark_at(space, i)),
    }
}
