// A sheet's table as 27 bytes and back, for C.
ghost use Rattle.std.specs.Prelude.{◌≡◌};
ghost use Rattle.ronchhek.specs.Tables.{read_number, read_space, write_number, write_space};

// The table of a sheet: kind × 2^48 + N, kind 1 with the 27 bytes written, kind 0 with the refusal's number.
#[unsafe(no_mangle)]
pub extern "C" fn ronchhek_read(sheet: &[u8], table: &mut [u8]) -> u64
    ensures { (result ≡ read_number sheet.now table.old) × (table.new ≡ read_space sheet.now table.old) }
{
    ronchhek::ronchhek_read(sheet, table)
}

// The sheet of a table of 27 bytes: kind 1 with the sheet's length, kind 0 with the refusal's number.
#[unsafe(no_mangle)]
pub extern "C" fn ronchhek_write(table: &[u8], out: &mut [u8]) -> u64
    ensures { (result ≡ write_number table.now out.old) × (out.new ≡ write_space table.now out.old) }
{
    ronchhek::ronchhek_write(table, out)
}
