// Cuts: of tables, of states and lists, of sheets as a C program makes them, and of what is played.
use crate::body::Body;
use crate::sheet::Accepted;
use crate::space;
use crate::text::{Hex, Shown};
use std::io;

// The longest list that is cut.
const LONGEST: usize = 256;

// Kind a, a table and k: the cut table, or its refusal.
pub fn of_table(rt: &impl Print, mut body: Body) -> io::Result<()> {
    let t = body.table();
    println!(rt;
        "cut{}",
        Shown(cut::cut_table(t, body.byte()).map(Accepted))
    )
}

// Masks cut to k, in a space. Of a list that is too long the front, which is not cut.
fn list<'a>(masks: &[u8], k: u8, space: &'a mut [u8; LONGEST]) -> &'a [u8] {
    let length = masks.len().min(LONGEST);
    let list = &mut space[..length];
    list.copy_from_slice(&masks[..length]);
    if masks.len() <= LONGEST {
        cut::cut_list(list, k);
    }
    list
}

// Kind b, k, a state and masks: the cut state, and the cut list.
pub fn of_state(rt: &impl Print, mut body: Body) -> io::Result<()> {
    let mut space = [0u8; LONGEST];
    let k = body.byte();
    let s = cut::cut_state(body.state(), k);
    println!(rt;
        "cuts{} {}",
        Shown(s),
        Hex(list(body.rest(), k, &mut space))
    )
}

// Kind g, a sheet, k and the length of an output: the number that the call for C programs returns, and
// what it leaves in the output.
pub fn of_sheet(rt: &impl Print, mut body: Body) -> io::Result<()> {
    let sheet = body.counted();
    let k = body.byte();
    space::output(rt, "cut sheet", body.byte(), |out| {
        Shown(ronchhek::ronchhek_cut(sheet, k, out))
    })
}

// Kind h, a table, k and masks: the replay of the list, and that of the cut list in the cut table, or why the
// table's cut is refused.
pub fn of_list(rt: &impl Print, mut body: Body) -> io::Result<()> {
    let mut space = [0u8; LONGEST];
    let t = body.table();
    let k = body.byte();
    let masks = body.rest();
    print!(rt; "whole{} part", Shown(tasks::replay(t, masks)))?;
    let part = cut::cut_table(t, k).map(|part| tasks::replay(part, list(masks, k, &mut space)));
    println!(rt; "{}", Shown(part))
}
