// The C call that replays a release list and writes the totals of each task.
ghost use Rattle.std.specs.Prelude.{◌≡◌, ◌<◌};
ghost use Rattle.ronchhek.specs.Replays.{replay_number, answer_tick, call_number};
ghost use Rattle.ronchhek.specs.Services.{call_totals};

use crate::replays::{RefusedAt, TICKS, outcome_of, replay_number};
use tasks::{Outcome, Refusal};

// Replays a list with a sheet's table, which is valid, so only its masks are refused, and writes the totals whatever the answer.
fn service_sheet(sheet: &[u8], list: &[u8], totals: &mut [u8]) -> Result<Outcome, RefusedAt>
    ensures number { replay_number result ≡ call_number 192 sheet.now list.now totals.old }
    ensures few { answer_tick result < 281474976710656 }
    ensures space { totals.new ≡ call_totals sheet.now list.now totals.old }
{
    let table = tasks::read_sheet(sheet)?;
    if TICKS <= list.len() {
        return Err(Refusal::ShortOutput.into());
    }
    let account = service::service(table, list);
    let written = service::write_totals(account.totals, totals);
    let outcome = outcome_of(account.replayed.answer)?;
    written?;
    Ok(outcome)
}

// The replay of a sheet's table, with its totals.
#[unsafe(no_mangle)]
pub extern "C" fn ronchhek_service(sheet: &[u8], list: &[u8], totals: &mut [u8]) -> u64
    ensures { (result ≡ call_number 192 sheet.now list.now totals.old) × (totals.new ≡ call_totals sheet.now list.now totals.old) }
{
    replay_number(service_sheet(sheet, list, totals))
}
