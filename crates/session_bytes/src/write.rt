// A session written to its bytes. Those of a mark that is not set stay.
ghost use Rattle.std.specs.Prelude.{◌≡◌, ◌<◌};
ghost use Rattle.std.proofs.lemmas.List.Edits.{sets};
ghost use Rattle.states.specs.Bytes.{state_bytes};
ghost use Rattle.session_bytes.specs.Space.{place, flags, mark_written, marks_written, session_written};

use crate::read::BYTES;
use session::Session;
use tasks::State;

// Bit i where the ith mark is set.
fn flags(x: Session) -> u8
    ensures { result ≡ flags x }
{
    let mut flags: u8 = 0;
    for (i, mark) in x.marks.iter().enumerate() {
        if mark.is_some() {
            flags += 1 << i;
        }
    }
    flags
}

// Writes state j of the nine: 0 the present one, and 1 to 8 those of the marks.
fn put_state(space: &mut [u8; BYTES], j: usize, state: State)
    requires { j < 9 }
    ensures { space.new ≡ sets space.old (place j) (state_bytes state) }
{
    // There is room for its sixteen bytes, so it is not refused.
    let _ = slots::write_state(state, &mut space[1 + 16 * j..]);
}

// Writes the ith mark, counted from 0, where it is set.
fn put_mark(space: &mut [u8; BYTES], x: Session, i: usize)
    requires { i < 8 }
    ensures { space.new ≡ mark_written x i space.old }
{
    if let Some(state) = x.marks[i] {
        put_state(space, i + 1, state);
    }
}

// Writes the marks that are set.
fn put_marks(space: &mut [u8; BYTES], x: Session)
    ensures { space.new ≡ marks_written x 8 space.old }
{
    for i in 0..8 {
        put_mark(space, x, i);
    }
}

// Writes the flags, the present state and the marks.
pub(crate) fn write_session(space: &mut [u8; BYTES], x: Session)
    ensures { space.new ≡ session_written x space.old }
{
    space[0] = flags(x);
    put_state(space, 0, x.present);
    put_marks(space, x);
}
