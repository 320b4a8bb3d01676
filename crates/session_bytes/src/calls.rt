// A call on a session in bytes.
ghost use Rattle.std.specs.Prelude.{◌≡◌};
ghost use Rattle.session.specs.Session.{outcome};
ghost use Rattle.session_bytes.specs.Space.{session_from, space_after, sheet_call, sheet_space};

use crate::read::{BYTES, read_session};
use crate::write::write_session;
use session::Call;
use tasks::{Refusal, Step, Table};

// A call with a table. Only one that is done writes.
fn call_table(t: Table, space: &mut [u8; BYTES], call: Call) -> Result<Step, Refusal>
    ensures { (result ≡ (outcome t (session_from space.old) call).answer) × (space.new ≡ space_after (outcome t (session_from space.old) call) space.old) }
{
    let called = read_session(space).call(t, call);
    let step = called.answer?;
    if let Step::Next = step {
        write_session(space, called.session);
    }
    Ok(step)
}

// A call with a sheet's table.
pub fn call_sheet(sheet: &[u8], space: &mut [u8], call: Call) -> Result<Step, Refusal>
    ensures { (result ≡ sheet_call sheet.now space.old call) × (space.new ≡ sheet_space sheet.now space.old call) }
{
    let table = tasks::read_sheet(sheet)?;
    let Some(space) = space.first_chunk_mut::<BYTES>() else {
        return Err(Refusal::ShortOutput);
    };
    call_table(table, space, call)
}
