//! The rule of a history's table, and the kinds of step on it.
use crate::views::{Sizes, View};
use atomic_table::{Play, Seat, Shared, Split, TableRule};
use std::marker::{Brand, PhantomData};

/// The rule, which holds between any two steps of any threads.
pub struct Rule;

impl TableRule<(), View, Sizes> for Rule {
    ghost use Rattle.endhistory.specs.Rule.{Bounded};
    ghost use Rattle.endhistory.specs.Tells.{first_view};

    ghost holds = { λ z. Bounded z };

    ghost first = { λ z. first_view z };
}

/// The writer loads the passed count of a reader.
pub(crate) struct Check;

impl Play<(), View> for Check {
    ghost use Rattle.endhistory.specs.Tells.{checked};

    ghost then = { checked };
}

/// The writer stores one word of its next block.
pub(crate) struct Fill;

impl Play<(), View> for Fill {
    ghost use Rattle.endhistory.specs.Tells.{filled};

    ghost then = { filled };
}

/// The writer stores the published count.
pub(crate) struct Publish;

impl Play<(), View> for Publish {
    ghost use Rattle.endhistory.specs.Tells.{published};

    ghost then = { published };
}

/// A reader loads the published count.
pub(crate) struct Look;

impl Play<(), View> for Look {
    ghost use Rattle.endhistory.specs.Tells.{looked};

    ghost then = { looked };
}

/// A reader loads one word of its next block.
pub(crate) struct Take;

impl Play<(), View> for Take {
    ghost use Rattle.endhistory.specs.Tells.{taken};

    ghost then = { taken };
}

/// A reader stores its passed count.
pub(crate) struct Pass;

impl Play<(), View> for Pass {
    ghost use Rattle.endhistory.specs.Tells.{passed};

    ghost then = { passed };
}

// A list of blocks that a proof picks.
pub(crate) trait Given {
    ghost use Rattle.std.specs.Prelude.{ℕ, List};

    ghost given: { List (List ℕ) };
}

impl Given for Brand {
    ghost use Rattle.std.specs.Prelude.{[]};

    ghost given = { [] };
}

// The writer's seat is split from the first, and both have the list of blocks.
pub(crate) struct DealWriter<B> {
    given: PhantomData<B>,
}

impl<B: Given> Split<View> for DealWriter<B> {
    ghost use Rattle.endhistory.specs.Tells.{opened, writer_view};

    ghost left = { opened B.given };

    ghost right = { writer_view B.given };
}

// The next reader's seat is split from the first.
pub(crate) struct DealReader;

impl Split<View> for DealReader {
    ghost use Rattle.endhistory.specs.Tells.{dealing, reader_view};

    ghost left = { dealing };

    ghost right = { reader_view };
}

// A seat at a history's table, and the table as its seats see it.
pub(crate) type Place = Seat<(), View>;

pub(crate) type Top = Shared<(), View, Sizes, Rule>;
