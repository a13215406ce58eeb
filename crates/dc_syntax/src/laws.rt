//! Laws of the meaning. Each function has no code: what it ensures is the law.
ghost use Rattle.dc_syntax.specs.Laws.{ValuesByParts, TruthByParts, OneByTable, RunByTable, RunOfJoined, RunKeepsLength, WhileKeepsInvariant, WhileAnyKeepsInvariant, ExprInduction, CondInduction, StmtInduction, PlainRunsOnce, PlainCostsOnce, PlainCostsDiffer};

/// The value of an expression and the truth of a condition go by the tree.
pub fn meaning_goes_by_the_tree()
    ensures values { ValuesByParts }
    ensures truth { TruthByParts }
{}

/// The runs of a statement, and of a list of statements, are those of the language's table.
pub fn runs_go_by_the_table()
    ensures one { OneByTable }
    ensures list { RunByTable }
{}

/// A run of one list joined to another is a run of the first and then one of the second.
pub fn runs_split_and_join()
    ensures { RunOfJoined }
{}

/// A run keeps the number of places of its state.
pub fn runs_keep_length()
    ensures { RunKeepsLength }
{}

/// An invariant of a loop, over the cost so far and the state, holds where the loop ends.
pub fn loops_keep_invariants()
    ensures tested { WhileKeepsInvariant }
    ensures chosen { WhileAnyKeepsInvariant }
{}

/// Induction over the trees.
pub fn trees_have_induction()
    ensures expressions { ExprInduction }
    ensures conditions { CondInduction }
    ensures statements { StmtInduction }
{}

/// A plain program has exactly one cost, whatever the input, and exactly one run from each state.
pub fn plain_programs_have_one_cost()
    ensures runs { PlainRunsOnce }
    ensures costs { PlainCostsOnce }
    ensures differences { PlainCostsDiffer }
{}
