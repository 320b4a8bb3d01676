// The writers of a slot, one for each column: each is lent the part of the work space that starts at the slot's place in its column.
ghost use Rattle.std.specs.Prelude.{◌≡◌, [], ◌∷◌, ◌*◌, ◌<◌, ◌≤◌, length};
ghost use Rattle.std.proofs.lemmas.List.Edits.{sets};
ghost use Rattle.tasks.specs.Words.{state_of};
ghost use Rattle.states.specs.Bytes.{state_bytes};
ghost use Rattle.slots.specs.Layout.{slot, columns, four_bytes, write_slot};
ghost use Rattle.slots.specs.StateSpace.{state_writing, state_space};

use tasks::{Refusal, State, gap_in, work_in};

// Writes the sixteen bytes of a state in words.
fn put_state(part: &mut [u8], v: [u16; 8])
    requires { 16 ≤ length part.old }
    ensures { part.new ≡ sets part.old 0 (state_bytes (state_of v)) }
{
    for k in 0..8 {
        part[2 * k] = work_in(v[k]);
        part[2 * k + 1] = gap_in(v[k]);
    }
}

// Writes the four bytes of a parent, or of the word in its place.
pub(crate) fn put_parent(part: &mut [u8], x: u32)
    requires { 4 ≤ length part.old }
    ensures { part.new ≡ sets part.old 0 (four_bytes x) }
{
    part[..4].copy_from_slice(&x.to_le_bytes());
}

// Writes the byte of a mask.
fn put_mask(part: &mut [u8], mask: u8)
    requires { 1 ≤ length part.old }
    ensures { part.new ≡ sets part.old 0 (mask ∷ []) }
{
    part[0] = mask;
}

// Writes slot i of k.
pub fn put_slot(work: &mut [u8], k: usize, i: usize, v: [u16; 8], parent: u32, mask: u8)
    requires { (i < k) × (21 * k ≤ length work.old) }
    ensures { work.new ≡ write_slot (columns k) work.old i (slot (state_of v) parent mask) }
{
    put_state(&mut work[16 * i..], v);
    put_parent(&mut work[16 * k + 4 * i..], parent);
    put_mask(&mut work[20 * k + i..], mask);
}

// Writes the sixteen bytes of a state at the front of the space, where it is long enough.
pub fn write_state(s: State, out: &mut [u8]) -> Result<usize, Refusal>
    ensures { (result ≡ state_writing out.old) × (out.new ≡ state_space s out.old) }
{
    if out.len() < 16 {
        return Err(Refusal::ShortOutput);
    }
    put_state(out, s.words());
    Ok(16)
}
