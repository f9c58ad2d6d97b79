//! The fields of a line, each behind a blank.
ghost use Rattle.std.specs.Prelude.{◌≡◌, ◌≤◌, ◌<◌, ◌+◌, ◌++◌, ◌∷◌, length};
ghost use Rattle.fixed_num.specs.Written.{written};
ghost use Rattle.case_writing.specs.CaseText.{reference_text, value_text};
ghost use Rattle.case_writing.specs.Named.{IsNamed};

use case_model::{Table, Value};
use surge_io::Line;

// Adds a blank and a number, with all its places.
pub(crate) fn add_number(line: &mut Line, value: i64, places: u32)
    requires room { length line.old ≤ 233 }
    requires places { places ≤ 9 }
    ensures text { line.new ≡ line.old ++ 32 ∷ written places value }
    ensures few { length line.new ≤ length line.old + 23 }
{
    line.add_number(value as i128, places);
}

// Adds a blank and a reference to a table.
pub(crate) fn add_reference(line: &mut Line, tables: &[Table], table: u32)
    requires room { length line.old ≤ 222 }
    requires named { table < length tables.now }
    ensures text { line.new ≡ line.old ++ 32 ∷ reference_text tables.now table }
    ensures few { length line.new ≤ length line.old + 34 }
{
    line.add_field(b"@");
    line.push(tables[table as usize].name.as_bytes());
}

// Adds a blank and a number or a reference to a table.
pub(crate) fn add_value(line: &mut Line, tables: &[Table], value: Value, places: u32)
    requires room { length line.old ≤ 222 }
    requires places { places ≤ 9 }
    requires named { IsNamed tables.now value }
    ensures text { line.new ≡ line.old ++ 32 ∷ value_text places tables.now value }
    ensures few { length line.new ≤ length line.old + 34 }
{
    match value {
        Value::Fixed(number) => add_number(line, number, places),
        Value::ByTable(table) => add_reference(line, tables, table),
    }
}
