//! The parts that a sequence of blocks lends.
ghost use Rattle.std.specs.Prelude.{◌≡◌, List, length, sum_by};
ghost use Rattle.std.specs.List.{AllByRecursion, IsDistinct};
ghost use Rattle.pad_model.specs.Visible.{same_author};
ghost use Rattle.ident_index.specs.Index.{Index};
ghost use Rattle.blocks.specs.Blocks.{IsKept};
ghost use Rattle.blocks.specs.Cells.{cells_of, IsWithin};
ghost use Rattle.blocks.specs.declared.block.Block as block;
ghost use Rattle.block_seq.specs.Rows.{IsRowOf};

use crate::rows::BlockSeq;
use blocks::Block;
use ident_index::IdentIndex;
use pad_model::Author;
use weight_tree::WeightTree;

/// The parts of a sequence of blocks: its blocks in the order of the text, the index of their stamps, all characters in
/// the order in which they came, and each author once.
#[derive(Clone, Copy)]
pub struct KeptRow<'a> {
    pub tree: &'a WeightTree<Block>,
    pub index: &'a IdentIndex,
    pub text: &'a [char],
    pub authors: &'a [Author],
}

impl BlockSeq {
    /// Returns the parts of the sequence, for measurements and tests. Its division into blocks and their labels are not
    /// guaranteed.
    pub fn kept(&self) -> KeptRow<'_>
        ensures index { IsKept result.index.now result.tree.now.items }
        ensures full { length result.text.now ≡ sum_by (λ b. b.len) result.tree.now.items }
        ensures items { result.tree.now.items ≡ self.now.tree }
        ensures blocks { length result.tree.now.items ≡ self.now.blocks }
        ensures cells { cells_of result.authors.now result.text.now result.tree.now.items
            ≡ self.now.cells }
        ensures within { AllByRecursion (IsWithin (length result.authors.now)
            (length result.text.now)) result.tree.now.items }
        ensures once { IsDistinct same_author result.authors.now }
    {
        KeptRow {
            tree: &self.tree,
            index: &self.index,
            text: self.text.as_slice(),
            authors: self.authors.as_slice(),
        }
    }

    /// The blocks, in the order of the text.
    pub fn tree(&self) -> &WeightTree<Block>
        ensures row { (m : Index) × IsRowOf self.now.cells m result.now.items }
        ensures items { result.now.items ≡ self.now.tree }
        ensures blocks { length result.now.items ≡ self.now.blocks }
    {
        &self.tree
    }

    /// The index that finds the blocks by the stamps of their characters.
    pub fn index(&self) -> &IdentIndex
        ensures { IsRowOf self.now.cells result.now self.now.tree }
    {
        &self.index
    }

    /// The number of blocks. An edit adds at most two for each insertion and each span of a deletion.
    pub fn blocks(&self) -> u64
        ensures row { (m : Index) × (bs : List block.Block) × IsRowOf self.now.cells m bs
            × (result ≡ length bs) }
        ensures number { result ≡ self.now.blocks }
    {
        self.tree.len() as u64
    }
}
