//! Updates what a branch stores of a side after that side has changed.
ghost use Rattle.std.specs.Prelude.{◌≡◌, ◌+◌, length, sum_by};
ghost use Rattle.weight_tree.specs.Balance.{IsBalanced};
ghost use Rattle.weight_tree.specs.Sides.{StoresLeft, StoresRight};
ghost use Rattle.weight_tree.specs.Tree.{FitTogether, IsMended};

use crate::tree::Branch;
use crate::weigh::Weigh;

impl<T: Weigh> Branch<T> {
    // Updates the sums and the height after a change of the left side. It does not read the right side.
    pub(crate) fn mend_left(&mut self)
        requires right { StoresRight T.weight_of self.old }
        requires balanced { IsBalanced (length self.old.left.items) (length self.old.right.items) }
        requires fits { FitTogether T.weight_of self.old.left self.old.item self.old.right }
        ensures mended { IsMended T.weight_of self.new }
        ensures left { self.new.left ≡ self.old.left }
        ensures item { self.new.item ≡ self.old.item }
        ensures right { self.new.right ≡ self.old.right }
    {
        let other_size = self.size - self.left_size;
        let other_weight = self.weight - self.left_weight;
        self.left_size = self.left.len();
        self.left_weight = self.left.weight();
        self.left_height = self.left.height() as u8;
        self.size = self.left_size + other_size;
        self.weight = self.left_weight + other_weight;
        self.height = self.left_height.max(self.right_height) + 1;
    }

    // Updates the sums and the height after a change of the right side. It does not read the left side: `rest` is the
    // weight of everything but the right side.
    pub(crate) fn mend_right(&mut self, rest: u64)
        requires rest { rest ≡ sum_by T.weight_of self.old.left.items + T.weight_of self.old.item }
        requires left { StoresLeft T.weight_of self.old }
        requires balanced { IsBalanced (length self.old.left.items) (length self.old.right.items) }
        requires fits { FitTogether T.weight_of self.old.left self.old.item self.old.right }
        ensures mended { IsMended T.weight_of self.new }
        ensures left { self.new.left ≡ self.old.left }
        ensures item { self.new.item ≡ self.old.item }
        ensures right { self.new.right ≡ self.old.right }
    {
        self.right_height = self.right.height() as u8;
        self.size = self.left_size + self.right.len() + 1;
        self.weight = rest + self.right.weight();
        self.height = self.left_height.max(self.right_height) + 1;
    }
}
