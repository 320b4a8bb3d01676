// Searches over the eight places of a table. Each place is tested, with no way out before the last: the compiler makes vectors of such a
// loop.
ghost use Rattle.std.specs.Prelude.{◌≡◌, ◌<◌, ℕ, Bool};
ghost use Rattle.lists.specs.Lists.{any, count};

// Whether some place below 8 passes the test.
pub fn any_place<F: Fn(usize) -> bool>(test: F) -> bool
    requires { (i : ℕ) → i < 8 → F.pre test i }
    ensures { (p : ℕ → Bool) → ((i : ℕ) (b : Bool) → i < 8 → F.post test i b → b ≡ p i) → result ≡ any 8 p }
{
    let mut found = false;
    for i in 0..8 {
        found |= test(i);
    }
    found
}

// How many places below 8 pass the test.
pub fn count_places<F: Fn(usize) -> bool>(test: F) -> u8
    requires { (i : ℕ) → i < 8 → F.pre test i }
    ensures { (p : ℕ → Bool) → ((i : ℕ) (b : Bool) → i < 8 → F.post test i b → b ≡ p i) → result ≡ count 8 p }
{
    let mut n: u8 = 0;
    for i in 0..8 {
        n += u8::from(test(i));
    }
    n
}
