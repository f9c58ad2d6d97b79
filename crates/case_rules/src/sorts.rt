//! The sorts of parts that are counted: tables, nodes, pipes, and probes with watches.
ghost use Rattle.std.specs.Prelude.{◌≡◌};
ghost use Rattle.case_rules.specs.Counts.{is_table as is_table_word, is_node as is_node_word};
ghost use Rattle.case_rules.specs.Counts.{is_pipe as is_pipe_word, is_sampled as is_sampled_word};

use case_lines::Directive;

pub(crate) fn is_table(directive: Option<Directive>) -> bool
    ensures { result ≡ is_table_word directive }
{
    matches!(directive, Some(Directive::OfTable(_)))
}

pub(crate) fn is_node(directive: Option<Directive>) -> bool
    ensures { result ≡ is_node_word directive }
{
    matches!(directive, Some(Directive::OfNode(_)))
}

pub(crate) fn is_pipe(directive: Option<Directive>) -> bool
    ensures { result ≡ is_pipe_word directive }
{
    matches!(directive, Some(Directive::OfPipe))
}

pub(crate) fn is_sampled(directive: Option<Directive>) -> bool
    ensures { result ≡ is_sampled_word directive }
{
    matches!(directive, Some(Directive::OfProbe | Directive::OfWatch))
}
