// Masks and lists that are cut.
ghost use Rattle.std.specs.Prelude.{◌≡◌};
ghost use Rattle.cut.specs.Cut.{cut_mask, cut_list};

// The low k bits of a mask, for any k; from 8 on that is all of it.
pub fn cut_mask(mask: u8, k: u8) -> u8
    ensures { result ≡ cut_mask k mask }
{
    if 8 <= k {
        return mask;
    }
    mask % (1u8 << k)
}

// Every mask of a list is cut, in place.
pub fn cut_list(masks: &mut [u8], k: u8)
    ensures { masks.new ≡ cut_list k masks.old }
{
    for mask in masks.iter_mut() {
        *mask = cut_mask(*mask, k);
    }
}
