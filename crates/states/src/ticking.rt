// A table made ready for many ticks.
ghost use Rattle.std.specs.Prelude.{◌≡◌};
ghost use Rattle.tasks.specs.Ticker.{ticker_of};

use tasks::{Table, Ticker};

// A table with the ticker made of it.
#[derive(Clone, Copy, Debug, PartialEq, Eq)]
pub struct Ticking {
    pub table: Table,
    pub ticker: Ticker,
    pub ghost made: { ticker ≡ ticker_of table },
}

impl Ticking {
    // The table, with its ticker.
    pub fn of(table: Table) -> Ticking
        ensures { result.table ≡ table }
    {
        Ticking {
            table,
            ticker: table.ticker(),
        }
    }
}
