//! What holds of the blocks of strands as lists of words. No function here does anything: each
//! contract is a law.
ghost use Rattle.std.specs.Prelude.{◌≡◌, ℕ, ◌<◌, List, length};
ghost use Rattle.case_model.specs.Meaning.{Meaning};
ghost use Rattle.endhistory.specs.Blocks.{AreWide, block};
ghost use Rattle.histories.specs.Blocks.{block_width, block_words, blocks_of_strand};
ghost use Rattle.regions.specs.declared.shapes.Layout.{Layout as LayoutSeen};
ghost use Rattle.regionrun.specs.Handed.{IsBlock};

/// The law of a block's words: they are the block, and nothing else is.
pub fn blocks_are_their_words()
    ensures are { (law : Meaning) (layout : LayoutSeen) (y b : ℕ) →
        IsBlock law layout y b (block_words law layout y b) }
    ensures only { (law : Meaning) (layout : LayoutSeen) (y b : ℕ) (words : List ℕ) →
        IsBlock law layout y b words → words ≡ block_words law layout y b }
{}

/// The law of a strand's blocks: there is one for each window, and all have as many words.
pub fn strands_have_blocks()
    ensures count { (law : Meaning) (layout : LayoutSeen) (y : ℕ) →
        length (blocks_of_strand law layout y) ≡ layout.windows }
    ensures each { (law : Meaning) (layout : LayoutSeen) (y b : ℕ) → b < layout.windows →
        block (blocks_of_strand law layout y) b ≡ block_words law layout y b }
    ensures wide { (law : Meaning) (layout : LayoutSeen) (y : ℕ) →
        AreWide (block_width layout law.mesh y) (blocks_of_strand law layout y) }
{}
