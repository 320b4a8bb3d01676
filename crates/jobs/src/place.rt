// The place of a job in the order, one number: the smaller goes first.
ghost use Rattle.std.specs.Prelude.{◌≡◌, ◌/◌, ◌%◌, ◌≤◌};
ghost use Rattle.jobs.specs.Place.{place_of, base_of, gap_mask, work_mask, moved};

// The place of a job with so many before it: 0 where it keeps its processor, 65535 where there is none.
pub fn place_of(busy: bool, stays: bool, earlier: u16) -> u16
    requires { earlier ≤ 8 }
    ensures { result ≡ place_of busy stays earlier }
{
    if busy {
        if stays {
            return 0;
        }
        return earlier + 1;
    }
    65535
}

// The place of a task's job but for what its two numbers add to it.
pub fn base_of(policy: u8, deadline: u8, gap: u8) -> u16
    ensures { result ≡ base_of policy deadline gap }
{
    if policy < 2 {
        return 255;
    }
    (256 * u16::from(deadline) + 255).wrapping_sub(257 * u16::from(gap))
}

// 255 where the policy goes by the ticks until the next release.
pub fn gap_mask(policy: u8) -> u16
    ensures { result ≡ gap_mask policy }
{
    if policy < 2 { 0 } else { 255 }
}

// 255 where it goes by the work left.
pub fn work_mask(policy: u8) -> u16
    ensures { result ≡ work_mask policy }
{
    if policy < 4 { 0 } else { 255 }
}

// The base moved by the two numbers of a task in its word, c + 256 p.
pub fn moved(bygap: u16, bywork: u16, base: u16, w: u16) -> u16
    ensures { result ≡ moved bygap bywork base (w / 256) (w % 256) }
{
    let down = base.wrapping_sub((w % 256 & bywork) * 256);
    ((w / 256 & bygap) * 257).wrapping_add(down)
}
