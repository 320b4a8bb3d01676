// The calls on a session, for C.
ghost use Rattle.std.specs.Prelude.{◌≡◌};
ghost use Rattle.session_bytes.specs.Space.{sheet_space};
ghost use Rattle.ronchhek.specs.Sessions.{call_number};
ghost use Rattle.session.specs.declared.calls.Call.TheVariants as Call;

// One tick from the present state under a mask: kind 1 done, kind 2 Missed, kind 0 with the refusal's number.
#[unsafe(no_mangle)]
pub extern "C" fn ronchhek_session_step(sheet: &[u8], session: &mut [u8], mask: u8) -> u64
    ensures { (result ≡ call_number sheet.now session.old (Call.Step mask)) × (session.new ≡ sheet_space sheet.now session.old (Call.Step mask)) }
{
    ronchhek::ronchhek_session_step(sheet, session, mask)
}

// Sets a mark: kind 1 done, kind 0 with the refusal's number.
#[unsafe(no_mangle)]
pub extern "C" fn ronchhek_session_mark(sheet: &[u8], session: &mut [u8], mark: u8) -> u64
    ensures { (result ≡ call_number sheet.now session.old (Call.SetMark mark)) × (session.new ≡ sheet_space sheet.now session.old (Call.SetMark mark)) }
{
    ronchhek::ronchhek_session_mark(sheet, session, mark)
}

// Returns to a mark: kind 1 done, kind 0 with the refusal's number.
#[unsafe(no_mangle)]
pub extern "C" fn ronchhek_session_return(sheet: &[u8], session: &mut [u8], mark: u8) -> u64
    ensures { (result ≡ call_number sheet.now session.old (Call.ReturnTo mark)) × (session.new ≡ sheet_space sheet.now session.old (Call.ReturnTo mark)) }
{
    ronchhek::ronchhek_session_return(sheet, session, mark)
}
