// A table that was found valid.
ghost use Rattle.std.specs.Prelude.{◌≡◌};
ghost use Rattle.tasks.specs.Table.{table_fault};

use crate::table::Table;

// A table in which `check` finds no fault.
#[derive(Clone, Copy, Debug, PartialEq, Eq)]
pub struct Valid {
    pub table: Table,
    pub ghost sound: { table_fault table ≡ 0 },
}
