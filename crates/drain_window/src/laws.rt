//! What a walk over all rows of a grid says of a window that was cut out of it.

ghost use Rattle.drain_window.specs.Laws.{WalkJudgesWindow, WalkListsSeams};

/// What was found in the judged area of a place is so of the window that lies there.
pub fn walk_judges_window()
    ensures { WalkJudgesWindow }
{}

/// What was listed of the seams is what the window shows there.
pub fn walk_lists_seams()
    ensures { WalkListsSeams }
{}
