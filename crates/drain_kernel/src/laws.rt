//! What lanes show. A law is a function with an empty body: its contract is the law, and code that calls it can use it.

ghost use Rattle.drain_kernel.specs.Laws.{LanesShowNumbers, RaisedAreCounted};

/// Lanes show at each column what the numbers say of which they were made.
pub fn lanes_show_numbers()
    ensures { LanesShowNumbers }
{}

/// Along columns where lanes show data, `raised_between` counts those whose conditioned elevation is above the ground.
pub fn raised_are_counted()
    ensures { RaisedAreCounted }
{}
