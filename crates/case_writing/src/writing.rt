//! The text of a case, line by line through a page.
ghost use Rattle.std.specs.Prelude.{length, All};
ghost use Rattle.std.specs.List.{flat_map};
ghost use Rattle.surge_io.specs.Writings.{IsAdded, IsWritten};
ghost use Rattle.case_model.specs.Limits.{IsJoined, IsNode, IsRead, IsSpot};
ghost use Rattle.case_writing.specs.CaseText.{case_text, entry_text, network_text, node_text};
ghost use Rattle.case_writing.specs.CaseText.{pipe_text, probe_text, table_text, text_in, upgraded};

use crate::lines::{entry_piece, pipe_line, probe_line, settings_lines, table_start};
use crate::nodes::node_line;
use case_model::{Case, Node, Pipe, Probe, Table, TableKind};
use surge_io::{Failed, Page, Sink};

/// Writes the text of a case in its version: the single directives, then tables, nodes, pipes, and
/// probes with watches, each in the case's order. `Failed` comes only where the sink's count of
/// faults rose in this call, and then a first part was written.
#[tactic(auto, unfolding(crate::specs::CaseText::case_text))]
pub fn write_case<K: Sink>(case: &Case, out: &mut K) -> Result<(), Failed>
    requires { IsRead case.now }
    ensures { IsWritten K.held K.faults result out.old out.new (case_text case.now) }
{
    write_as(case.version, case, out)
}

/// Writes the text of a case as version 2 of the case text, with its friction as it is: what
/// `write_case` writes of the upgraded case, which isn't made. `Failed` comes only where the sink's
/// count of faults rose in this call, and then a first part was written.
pub fn write_upgraded<K: Sink>(case: &Case, out: &mut K) -> Result<(), Failed>
    requires { IsRead case.now }
    ensures { IsWritten K.held K.faults result out.old out.new (case_text (upgraded case.now)) }
{
    write_as(2, case, out)
}

// Writes the text of a case in a version of the case text.
fn write_as<K: Sink>(version: u8, case: &Case, out: &mut K) -> Result<(), Failed>
    requires { IsRead case.now }
    ensures { IsWritten K.held K.faults result out.old out.new (text_in version case.now) }
{
    let mut page = Page::new();
    add_case(version, case, &mut page, out)?;
    page.flush(out)
}

// Adds the whole text.
fn add_case<K: Sink>(version: u8, case: &Case, page: &mut Page, out: &mut K) -> Result<(), Failed>
    requires { IsRead case.now }
    ensures { IsAdded K.held K.faults result out.old page.old out.new page.new
        (text_in version case.now) }
{
    let settings = settings_lines(version, case);
    page.add(out, settings.as_bytes())?;
    add_tables(case.tables.as_slice(), page, out)?;
    add_network(case, page, out)
}

// Adds the nodes, the pipes, and the probes with the watches.
fn add_network<K: Sink>(case: &Case, page: &mut Page, out: &mut K) -> Result<(), Failed>
    requires { IsRead case.now }
    ensures { IsAdded K.held K.faults result out.old page.old out.new page.new
        (network_text case.now) }
{
    let tables = case.tables.as_slice();
    let nodes = case.nodes.as_slice();
    let pipes = case.pipes.as_slice();
    add_nodes(tables, nodes, page, out)?;
    add_pipes(nodes, pipes, page, out)?;
    add_probes(pipes, nodes, case.probes.as_slice(), page, out)
}

// Adds the lines of tables.
fn add_tables<K: Sink>(tables: &[Table], page: &mut Page, out: &mut K) -> Result<(), Failed>
    ensures { IsAdded K.held K.faults result out.old page.old out.new page.new
        (flat_map table_text tables.now) }
{
    for table in tables {
        add_table(table, page, out)?;
    }
    Ok(())
}

// Adds the line of a table, which may be long.
pub(crate) fn add_table<K: Sink>(table: &Table, page: &mut Page, out: &mut K) -> Result<(), Failed>
    ensures { IsAdded K.held K.faults result out.old page.old out.new page.new
        (table_text table.now) }
{
    let start = table_start(table);
    page.add(out, start.as_bytes())?;
    add_entries(table.kind, table.points.as_slice(), page, out)?;
    page.add(out, b"\n")
}

// Adds the pairs of a table.
fn add_entries<K: Sink>(
    kind: TableKind,
    entries: &[(i64, i64)],
    page: &mut Page,
    out: &mut K,
) -> Result<(), Failed>
    ensures { IsAdded K.held K.faults result out.old page.old out.new page.new
        (flat_map (entry_text kind) entries.now) }
{
    for entry in entries {
        let piece = entry_piece(kind, *entry);
        page.add(out, piece.as_bytes())?;
    }
    Ok(())
}

// Adds the lines of nodes.
fn add_nodes<K: Sink>(
    tables: &[Table],
    nodes: &[Node],
    page: &mut Page,
    out: &mut K,
) -> Result<(), Failed>
    requires { All (IsNode tables.now) nodes.now }
    ensures { IsAdded K.held K.faults result out.old page.old out.new page.new
        (flat_map (node_text tables.now) nodes.now) }
{
    for node in nodes {
        let line = node_line(tables, node);
        page.add(out, line.as_bytes())?;
    }
    Ok(())
}

// Adds the lines of pipes.
fn add_pipes<K: Sink>(
    nodes: &[Node],
    pipes: &[Pipe],
    page: &mut Page,
    out: &mut K,
) -> Result<(), Failed>
    requires { All (IsJoined (length nodes.now)) pipes.now }
    ensures { IsAdded K.held K.faults result out.old page.old out.new page.new
        (flat_map (pipe_text nodes.now) pipes.now) }
{
    for pipe in pipes {
        let line = pipe_line(nodes, pipe);
        page.add(out, line.as_bytes())?;
    }
    Ok(())
}

// Adds the lines of probes and watches.
fn add_probes<K: Sink>(
    pipes: &[Pipe],
    nodes: &[Node],
    probes: &[Probe],
    page: &mut Page,
    out: &mut K,
) -> Result<(), Failed>
    requires { All (λ q. IsSpot (length pipes.now) (length nodes.now) q.at) probes.now }
    ensures { IsAdded K.held K.faults result out.old page.old out.new page.new
        (flat_map (probe_text pipes.now nodes.now) probes.now) }
{
    for probe in probes {
        let line = probe_line(pipes, nodes, probe);
        page.add(out, line.as_bytes())?;
    }
    Ok(())
}
