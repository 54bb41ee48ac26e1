//! Laws of the cells of peeled graphs.
ghost use Rattle.cm_algo_scheme.specs.Solvable.{CellsSolve};

/// Under every rule, the cells of each graph with an empty residual graph solve its plan: those of each edge's ends add up to its
/// target, and no two edges have the same vertex at their pivots.
pub fn cells_solve()
    ensures { CellsSolve }
{}
