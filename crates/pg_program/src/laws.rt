//! What holds of blocks and of the graph, by their definitions. No function here does anything: its contract is the
//! law.

ghost use Rattle.pg_program.specs.Block.{BlocksNest};
ghost use Rattle.pg_program.specs.Flow.{StepsFlow};
ghost use Rattle.pg_program.specs.Laws.{EachStatementHasSteps, StepsAreOfStatements, StepsLeadWithin};

/// A block is its first statement, the two blocks within that, and the block of the other statements.
pub fn a_block_is_its_parts()
    ensures { BlocksNest }
{}

/// A thread has as many lists of steps as it has statements.
pub fn each_statement_has_steps()
    ensures { EachStatementHasSteps }
{}

/// A point has the steps of its statement: none at the end, one at a statement, and yes and then no at a test.
pub fn the_steps_are_those_of_the_statement()
    ensures { StepsAreOfStatements }
{}

/// A step from a point leads to a point of the same thread.
pub fn steps_lead_within_their_thread()
    ensures { StepsLeadWithin }
{}

/// A step leads as the rule of the flow says: to the next point of its block, at a block's end to the point after the
/// `if` or back to the point of the `while`, and past an empty block to where it would end.
pub fn steps_lead_as_the_nesting_says()
    ensures { StepsFlow }
{}
