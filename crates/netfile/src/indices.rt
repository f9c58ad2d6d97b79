//! The index of a part by its name.
ghost use Rattle.std.specs.Prelude.{◌≡◌, List as Items};
ghost use Rattle.case_model.specs.declared.cases.Table.{Table};
ghost use Rattle.case_model.specs.declared.cases.Node.{Node};
ghost use Rattle.case_model.specs.declared.cases.Pipe.{Pipe};
ghost use Rattle.netfile.specs.Indices.{IndexTables, IndexNodes, IndexPipes};
ghost use Rattle.netfile.specs.Built.{table_index, node_index, pipe_index};

use std::collections::HashMap;

/// The index of the table, the node or the pipe of a name; 0 where there is none.
pub(crate) fn part_index(indices: &HashMap<&[u8], u32>, name: &[u8]) -> u32
    ensures tables { (tables : Items Table) → IndexTables indices.now tables →
        result ≡ table_index tables name.now }
    ensures nodes { (nodes : Items Node) → IndexNodes indices.now nodes →
        result ≡ node_index nodes name.now }
    ensures pipes { (pipes : Items Pipe) → IndexPipes indices.now pipes →
        result ≡ pipe_index pipes name.now }
{
    indices.get(&name).copied().unwrap_or(0)
}
