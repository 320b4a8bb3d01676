// Keys that wait for their lookup, one after the other.
ghost use Rattle.std.specs.Prelude.{◌≡◌, ◌<◌, ◌≤◌, length};
ghost use Rattle.closed.specs.Keeping.{AllHeldIs};

use crate::file::File;
use states::Key;

// Whether each of the first `count` keys is that of one of the file's states.
pub(crate) fn all_held(file: File, cells: &[u32], pending: &[Key], count: usize) -> bool
    requires { (256 < length cells.now) × (count ≤ length pending.now) }
    ensures { AllHeldIs file.entry.bytes.now file.entry.n pending.now count result }
{
    (0..count).all(|k| file.holds(cells, pending[k]))
}
