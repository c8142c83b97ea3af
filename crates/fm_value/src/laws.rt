//! Laws of expressions and of their operations.
ghost use Rattle.std.specs.Prelude.{◌≡◌, ℕ, ◌<◌, ℤ, pos, negsuc, ◌+ℤ◌, ◌*ℤ◌, ◌≤ℤ◌, ◌<ℤ◌, List, Some};
ghost use Rattle.fm_value.specs.declared.node.Node.{Node};
ghost use Rattle.fm_value.specs.Operation.{floor_div, floor_rem};
ghost use Rattle.fm_value.specs.Tree.{Tree, postfix, tree_of};

/// Each tree is that of its postfix list, and a list that has a tree is that tree's postfix list.
pub fn each_tree_has_one_list()
    ensures made { (t : Tree) → tree_of (postfix t) ≡ Some t }
    ensures only { (ns : List Node) (t : Tree) → tree_of ns ≡ Some t → postfix t ≡ ns }
{}

/// The quotient is the floor: what it leaves lies between 0 and the divisor, which it does not
/// reach.
pub fn remainders_follow_the_divisor()
    ensures whole { (x y : ℤ) → (y ≡ pos 0 → ⊥) → x ≡ (y *ℤ floor_div x y) +ℤ floor_rem x y }
    ensures positive { (x : ℤ) (m : ℕ) → 0 < m
        → (pos 0 ≤ℤ floor_rem x (pos m)) × (floor_rem x (pos m) <ℤ pos m) }
    ensures negative { (x : ℤ) (k : ℕ)
        → (negsuc k <ℤ floor_rem x (negsuc k)) × (floor_rem x (negsuc k) ≤ℤ pos 0) }
{}
