//! Laws of matches with a referee. Each is the contract of a function with an empty body.
ghost use Rattle.gtp_match.specs.referee.Calls.{RulingsStay, RefereedArePlayed, RulingLinesDiffer};

/// Once a ruling is given, no call changes the match or the ruling: there is no next action, and no side owes anything.
pub fn rulings_stay()
    ensures { RulingsStay }
{}

/// Until a ruling is given, a match with a referee is what the same calls make of a match without one. With or without
/// a ruling, the match in it can be reached by calls of a match. So whatever holds of every match holds of it.
pub fn refereed_are_played()
    ensures { RefereedArePlayed }
{}

/// The result line of a match that a ruling ended is never that of a match that ended by itself.
pub fn ruling_lines_differ()
    ensures { RulingLinesDiffer }
{}
