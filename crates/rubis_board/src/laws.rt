//! The laws of the board's rule, stated in specs/Laws.

ghost use Rattle.rubis_board.specs.Laws.{StepsKeepTheRule, StepsMoveThePosted};

/// The rule of the board holds when a board is made, and each step of each pass keeps it.
pub fn every_step_keeps_the_rule()
    ensures { StepsKeepTheRule }
{}

/// What is on the board changes by the steps, one or many, as the posted list of the schedule machine does by its posts and
/// takes.
pub fn steps_move_the_posted()
    ensures { StepsMoveThePosted }
{}
