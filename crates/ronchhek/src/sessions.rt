// The C calls on a session, which the caller keeps in 145 bytes.
ghost use Rattle.std.specs.Prelude.{◌≡◌};
ghost use Rattle.session.specs.declared.calls.Call.TheVariants as Call;
ghost use Rattle.session_bytes.specs.Space.{sheet_space};
ghost use Rattle.ronchhek.specs.Sessions.{call_number};

use crate::tables::DONE;
use session::Call;
use tasks::Step;

// Makes a call, and answers its number.
#[tactic(auto, unfolding(crate::specs::Sessions::call_number))]
fn call_number(sheet: &[u8], session: &mut [u8], call: Call) -> u64
    ensures { (result ≡ call_number sheet.now session.old call) × (session.new ≡ sheet_space sheet.now session.old call) }
{
    match session_bytes::call_sheet(sheet, session, call) {
        Ok(Step::Next) => DONE,
        Ok(Step::Missed) => 2 * DONE,
        Err(why) => u64::from(why.number()),
    }
}

// One tick from the present state under a mask: kind 1 done, kind 2 Missed, kind 0 with the refusal's number.
#[unsafe(no_mangle)]
pub extern "C" fn ronchhek_session_step(sheet: &[u8], session: &mut [u8], mask: u8) -> u64
    ensures { (result ≡ call_number sheet.now session.old (Call.Step mask)) × (session.new ≡ sheet_space sheet.now session.old (Call.Step mask)) }
{
    call_number(sheet, session, Call::Step(mask))
}

// Sets a mark: kind 1 done, kind 0 with the refusal's number.
#[unsafe(no_mangle)]
pub extern "C" fn ronchhek_session_mark(sheet: &[u8], session: &mut [u8], mark: u8) -> u64
    ensures { (result ≡ call_number sheet.now session.old (Call.SetMark mark)) × (session.new ≡ sheet_space sheet.now session.old (Call.SetMark mark)) }
{
    call_number(sheet, session, Call::SetMark(mark))
}

// Returns to a mark: kind 1 done, kind 0 with the refusal's number.
#[unsafe(no_mangle)]
pub extern "C" fn ronchhek_session_return(sheet: &[u8], session: &mut [u8], mark: u8) -> u64
    ensures { (result ≡ call_number sheet.now session.old (Call.ReturnTo mark)) × (session.new ≡ sheet_space sheet.now session.old (Call.ReturnTo mark)) }
{
    call_number(sheet, session, Call::ReturnTo(mark))
}
