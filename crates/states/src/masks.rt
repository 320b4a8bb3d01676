// The legal masks of a state, in increasing order.
ghost use Rattle.std.specs.Prelude.{◌≡◌, ◌-◌};
ghost use Rattle.std.specs.Iterator.{at_most};
ghost use Rattle.states.specs.Masks.{next_mask, follows, place, AtMask, Steps};

// A walk through the submasks of free, the legal masks of a state, with the mask that comes next.
#[derive(Clone, Debug, Drop)]
pub struct Masks {
    free: u8,
    next: Option<u8>,
}

// The submask of free after m, and 0 after the last.
fn next_mask(free: u8, m: u8) -> u8
    ensures { result ≡ next_mask free m }
{
    m.wrapping_sub(free) & free
}

// The submask of free after m, for any two masks, and none after the last.
pub fn follow(free: u8, m: u8) -> Option<u8>
    ensures { place result ≡ follows free m }
{
    match next_mask(free, m) {
        0 => None,
        next => Some(next),
    }
}

// The walk from the first mask on.
pub fn masks_of(free: u8) -> Masks
    ensures start { AtMask result × (place result.next ≡ 0) × (result.free ≡ free) }
{
    Masks {
        free,
        next: Some(0),
    }
}

impl Iterator for Masks {
    type Item = u8;

    ghost can_next = { AtMask };

    ghost next_gives = { Steps };

    ghost remaining = { λ walk. at_most (256 - place walk.next) };

    fn next(&mut self) -> Option<u8> {
        let mask = self.next?;
        self.next = follow(self.free, mask);
        Some(mask)
    }
}
