//! The tables that lines say.
ghost use Rattle.std.specs.Prelude.{◌≡◌, ◌≤◌, ◌+◌, ◌++◌, ◌/◌, ◌-◌, [], IfOk, length, map};
ghost use Rattle.std.specs.List.{cons_option, range_with_len};
ghost use Rattle.case_lines.specs.Tables.{pairs_of};
ghost use Rattle.netfile.specs.Named.{IsNamed};
ghost use Rattle.netfile.specs.Built.{table_by, table_said as table_of_line};

use case_lines::{Directive, Line, pair_at};
use case_model::{List, Name, Table, TableKind};
use case_rules::directive_said;
use std::alloc::{AllocError, Global};

/// Adds what was found, if anything.
pub(crate) fn add<T: Drop>(list: &mut Vec<T>, found: Option<T>) -> Result<(), AllocError>
    ensures { IfOk result (λ u. list.new.items ≡ list.old.items ++ cons_option found []) }
{
    if let Some(item) = found {
        list.push(item)?;
    }
    Ok(())
}

/// The table that a line says, if any, by its number in the text. Fails only for want of memory.
#[tactic(auto, unfolding(crate::specs::Built::table_said))]
pub(crate) fn table_said(
    alloc: Global,
    number: u32,
    line: &Line,
) -> Result<Option<Table>, AllocError>
    requires { IsNamed line.now }
    ensures { IfOk result (λ t. t ≡ table_of_line number line.now) }
{
    match directive_said(line) {
        Some(Directive::OfTable(kind)) => Ok(Some(Table {
            name: Name::of(line.field(1)),
            line: number,
            kind,
            points: List::over(pairs(alloc, kind, line.fields())?),
        })),
        _ => Ok(None),
    }
}

// The pairs of a table, in file order.
#[tactic(auto, unfolding(case_lines::specs::Tables::pairs_of))]
fn pairs(alloc: Global, kind: TableKind, fields: &[&[u8]]) -> Result<Vec<(i64, i64)>, AllocError>
    ensures { IfOk result (λ v. v.items ≡ pairs_of kind (map (λ f. f.now) fields.now)) }
{
    let mut found = Vec::new(alloc);
    for pair in 0..fields.len().saturating_sub(2) / 2 {
        found.push(pair_at(kind, fields, pair))?;
    }
    Ok(found)
}
