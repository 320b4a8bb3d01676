// A walk through the ready tasks in the order of their places that gives each a processor while one is left, and carries the number given
// out.
ghost use Rattle.std.specs.Prelude.{◌≡◌, ◌+◌, ◌<◌, ◌≤◌, get_or, ◌&&◌, eqb};
ghost use Rattle.lists.specs.Lists.{eight, pick, count};
ghost use Rattle.cores.specs.Walk.{under, capped, sooner, rank, kept_count, ready_count, served, Walked};

use std::array;

// A walk on its way: 1 for each task that has been given a processor and 0 for the others, and how many have been given out. Its functions
// say by `Walked` of which places and m: as ghost fields these would take a model, and proofs by hand.
#[derive(Clone, Copy, Debug, PartialEq, Eq)]
struct Walk {
    run: [u16; 8],
    count: u16,
}

// How many places are below x.
fn count_below(places: [u16; 8], x: u16) -> u16
    ensures { (result ≡ count 8 (under places x)) × (result ≤ 8) }
{
    u16::from(lists::count_places(|i| places[i] < x))
}

// 1 for each place below x, and 0 for the others.
fn below(places: [u16; 8], x: u16) -> [u16; 8]
    ensures { result ≡ eight (λ i. pick (under places x i) 1 0) }
{
    array::from_fn(|i| u16::from(places[i] < x))
}

// One more than a place, of which those from 65534 on are alike.
fn above(place: u16) -> u16
    ensures { result ≡ capped place + 1 }
{
    place.saturating_add(1)
}

// Whether a task with place y and number k goes before one with place x and number i. In this form a rank takes the compiler one
// comparison.
fn sooner(y: u16, k: usize, x: u16, i: usize) -> bool
    ensures { result ≡ sooner y k x i }
{
    above(y) - u16::from(k < i) < above(x)
}

// How many tasks go before task i.
fn count_before(places: [u16; 8], i: usize) -> u16
    requires { i < 8 }
    ensures { (result ≡ rank places 8 i) × (result ≤ 8) }
{
    let x = places[i];
    u16::from(lists::count_places(|k| sooner(places[k], k, x, i)))
}

// The ranks of all tasks, with task i counted too: one more for each task that it goes before.
fn count_place(ranks: [u16; 8], places: [u16; 8], i: usize) -> [u16; 8]
    requires { (i < 8) × (ranks ≡ eight (rank places i)) }
    ensures { result ≡ eight (rank places (i + 1)) }
{
    let y = places[i];
    let mut out = [0u16; 8];
    for j in 0..8 {
        out[j] = ranks[j] + u16::from(sooner(y, i, places[j], j));
    }
    out
}

// For each task, how many go before it.
fn ranks(places: [u16; 8]) -> [u16; 8]
    ensures { result ≡ eight (rank places 8) }
{
    let mut ranks = [0u16; 8];
    for i in 0..8 {
        let more = count_place(ranks, places, i);
        ranks = more;
    }
    ranks
}

// The same, one task after the other: for a single tick that is sooner (docs/DECISIONS.md, "Two ways to rank").
fn ranks_singly(places: [u16; 8]) -> [u16; 8]
    ensures { result ≡ eight (rank places 8) }
{
    let mut out = [0u16; 8];
    for i in 0..8 {
        out[i] = count_before(places, i);
    }
    out
}

// The tasks chosen, and with them those of the rank that have no processor yet. Without that question the compiler makes vectors of several
// steps of a walk, which costs more than its few steps do.
fn with_rank(ranks: [u16; 8], run: [u16; 8], rank: u16) -> [u16; 8]
    ensures { result ≡ eight (λ i. pick (eqb (get_or ranks i 0) rank && eqb (get_or run i 0) 0) 1 (get_or run i 0)) }
{
    array::from_fn(|i| if (ranks[i] == rank) & (run[i] == 0) {
        1
    } else {
        run[i]
    })
}

// The start of a walk: the jobs that keep their processors, and their number.
fn assign_kept(places: [u16; 8], m: u16) -> Walk
    ensures { Walked places m result.run result.count × (result.count ≡ kept_count places) }
{
    Walk {
        run: below(places, 1),
        count: count_below(places, 1),
    }
}

// A step: the next processor goes to the task that has as many before it as have been given out.
fn assign_next(places: [u16; 8], ranks: [u16; 8], m: u16, walk: Walk) -> Walk
    requires { (ranks ≡ eight (rank places 8)) × Walked places m walk.run walk.count × (walk.count < m) × (walk.count < ready_count places) }
    ensures { Walked places m result.run result.count × (result.count ≡ walk.count + 1) }
{
    Walk {
        run: with_rank(ranks, walk.run, walk.count),
        count: walk.count + 1,
    }
}

// A step that ends a walk: all that wait are given a processor, where there is one for each.
fn assign_rest(places: [u16; 8], m: u16, waiting: u16, walk: Walk) -> Walk
    requires { (walk.count + waiting ≡ ready_count places) × (walk.count + waiting ≤ m) }
    ensures { Walked places m result.run result.count × (result.count ≡ walk.count + waiting) }
{
    Walk {
        run: below(places, 65534),
        count: walk.count + waiting,
    }
}

// Which tasks run with m processors: 1 for each, and 0 for the others. One step after the other, while a processor is left and a task
// waits for it; here and below the `while` asks the walk, which carries the number given out.
pub fn assign(places: [u16; 8], m: u16) -> [u16; 8]
    ensures { result ≡ served places m }
{
    let ranks = ranks_singly(places);
    let ready = count_below(places, 65534);
    let mut walk = assign_kept(places, m);
    while walk.count < m && walk.count < ready {
        walk = assign_next(places, ranks, m, walk);
    }
    walk.run
}

// The same for many ticks. Where there is a processor for each ready task one step gives out all; else all tasks are ranked at once, and
// there are more of them than steps. It has one caller: the compiler keeps a function of this size out of line where it has two.
pub fn assign_quickly(places: [u16; 8], m: u16) -> [u16; 8]
    ensures { result ≡ served places m }
{
    let start = assign_kept(places, m);
    let count = start.count;
    let waiting = count_below(places, 65534) - count;
    if count + waiting <= m {
        return assign_rest(places, m, waiting, start).run;
    }
    let ranks = ranks(places);
    let mut walk = start;
    while walk.count < m {
        walk = assign_next(places, ranks, m, walk);
    }
    walk.run
}
