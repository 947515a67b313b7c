//! Laws about the value of trees.
ghost use Rattle.expr_tree.specs.Laws.{PlainTestsMeanTheirSense, PlainTreesMeanTheirSense, RewritingKeepsTests, RewritingKeepsTheValue, AllTestsAreMadeOfAllParts, AllTreesAreMadeOfAllParts, UnreplacedTestsStay, UnreplacedTreesStay};

/// Trees without rule uses and reductions mean in any world what they mean at the numbers and cells alone.
pub fn plain_meaning()
    ensures trees { PlainTreesMeanTheirSense }
    ensures tests { PlainTestsMeanTheirSense }
{}

/// A rewriting that keeps what parts mean keeps what trees of such parts mean, where it does not refuse them.
pub fn rewriting_keeps_the_value()
    ensures trees { RewritingKeepsTheValue }
    ensures tests { RewritingKeepsTests }
{}

/// What is said of trees of all parts is said of all trees.
pub fn all_parts_are_all()
    ensures trees { AllTreesAreMadeOfAllParts }
    ensures tests { AllTestsAreMadeOfAllParts }
{}

/// Where nothing is replaced the tree stays, and no node is made anew.
pub fn unreplaced_stays()
    ensures trees { UnreplacedTreesStay }
    ensures tests { UnreplacedTestsStay }
{}
