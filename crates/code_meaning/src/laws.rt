//! Laws of runs. Each function does nothing, and its contract is the law.
ghost use Rattle.code_meaning.specs.Laws.{OneItemIsDetermined, LoopsRun, EmptyLoopsRun, OneRunIsEnough, WritesSwap, WritesSwapApart, OutsideIsAFault, UnsetIsAFault, OverflowIsAFault, RaceIsAFault, DivergenceIsAFault, BarriersOpen, RightCodeEnds, RightWordsAreOne, FaultyCodeIsNotRight};

/// A C code has one run: each step of any run is the only item's.
pub fn one_item_is_determined()
    ensures { OneItemIsDetermined }
{}

/// A loop does its turns one after the other, and a loop without a turn is one step.
pub fn loops_run()
    ensures turns { LoopsRun }
    ensures empty { EmptyLoopsRun }
{}

/// A code of one item is right for its inputs where the one run comes to the wanted end within the step count.
pub fn one_run_is_enough()
    ensures { OneRunIsEnough }
{}

/// Writes to different places of one array, or to different arrays, come to the same in either order.
pub fn writes_swap<A>()
    ensures places { WritesSwap A }
    ensures arrays { WritesSwapApart A }
{}

/// Steps meet their faults: a store outside its array, a read of an unset local cell, a loop variable past 64 bits, a
/// race, and a group that is stuck. Where the items of a group come to one barrier, it opens.
pub fn faults_happen()
    ensures outside { OutsideIsAFault }
    ensures unset { UnsetIsAFault }
    ensures overflow { OverflowIsAFault }
    ensures race { RaceIsAFault }
    ensures divergent { DivergenceIsAFault }
    ensures barriers { BarriersOpen }
{}

/// Right code comes to an end, with one list of stored words alone, and no run of it meets a fault.
pub fn right_code_ends()
    ensures ends { RightCodeEnds }
    ensures words { RightWordsAreOne }
    ensures faults { FaultyCodeIsNotRight }
{}
