//! Laws of the definitions, each the contract of a function that does nothing.
ghost use Rattle.pad_model.specs.CellLaws.{BirthLaw, CellOrderLaw, GrowthLaw, LegalLaw, PartsLaw, PlaceLaw, SliderLaw};
ghost use Rattle.pad_model.specs.PieceLaws.{ChangesLaw, ComposedLaw, FewestLaw, FirstLaw, LogChangesLaw, LogFirstLaw};
ghost use Rattle.pad_model.specs.Laws.{TreeLaw, UniquenessLaw, MembersLaw, SetLaw, SubsetLaw, RevisionLaw, ScanLaw, RunLaw, NewestLaw};

/// The walk is the textbook's preorder (Attiya and others 2016).
pub fn tree_law()
    ensures { TreeLaw }
{}

/// Only the walk is that preorder.
pub fn uniqueness_law()
    ensures { UniquenessLaw }
{}

/// The order has exactly the characters of the set, each once.
pub fn members_law()
    ensures { MembersLaw }
{}

/// The order depends only on the set of characters.
pub fn set_law()
    ensures { SetLaw }
{}

/// A tree's order keeps the order of each tree inside it: the strong list specification (Attiya and others 2016).
pub fn subset_law()
    ensures { SubsetLaw }
{}

/// The order at an earlier time can be read from the present order.
pub fn revision_law()
    ensures { RevisionLaw }
{}

/// RGA's scan puts a character at its place in the preorder (Roh and others 2011).
pub fn scan_law()
    ensures { ScanLaw }
{}

/// A text that is inserted at once stays one block when it joins the order.
pub fn run_law()
    ensures { RunLaw }
{}

/// A local insertion goes directly after the character that it was typed after.
pub fn newest_law()
    ensures { NewestLaw }
{}

/// Each revision of a log can be read from its cells by birth and death.
pub fn slider_law()
    ensures { SliderLaw }
{}

/// Applying the parts of an operation at once, or one after another, gives the same cells.
pub fn parts_law()
    ensures { PartsLaw }
{}

/// An operation changes the cells of its log as its parts do.
pub fn growth_law()
    ensures { GrowthLaw }
{}

/// Comment ranges and carets of a revision can be read from the cells.
pub fn place_law()
    ensures { PlaceLaw }
{}

/// Histories are legal: their insertions form a tree, and what they erase was inserted (Attiya and others 2016).
pub fn legal_law()
    ensures { LegalLaw }
{}

/// The order of cells is the order of their characters.
pub fn cell_order_law()
    ensures { CellOrderLaw }
{}

/// Each revision of a log, erased characters included, can be read from its cells by birth.
pub fn birth_law()
    ensures { BirthLaw }
{}

/// The changes between two revisions turn what the first shows into what the second shows.
pub fn changes_law()
    ensures { ChangesLaw }
{}

/// Changes have the fewest pieces.
pub fn fewest_law()
    ensures { FewestLaw }
{}

/// Since an empty revision, the changes are the author runs with their texts.
pub fn first_changes_law()
    ensures { FirstLaw }
{}

/// Applying two successive answers gives what a single answer gives.
pub fn composed_law()
    ensures { ComposedLaw }
{}

/// The changes between two revisions of a log turn what the first k operations show into what the first n show.
pub fn log_changes_law()
    ensures { LogChangesLaw }
{}

/// Since the empty pad, the changes are the author runs of the text.
pub fn log_first_law()
    ensures { LogFirstLaw }
{}
