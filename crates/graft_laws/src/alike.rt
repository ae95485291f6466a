//! Laws of two graft calls that are alike.

ghost use Rattle.graft_laws.specs.Alike.{InstructionsAlike, DropsAlike, PointsStayHeld};

/// An instruction of two sound graft calls that are alike, and agree on what it needs, comes to the
/// same.
pub fn instructions_alike()
    ensures { InstructionsAlike }
{}

/// So does the drop of any level.
pub fn drops_alike()
    ensures { DropsAlike }
{}

/// What levels looked at of points stays held.
pub fn points_stay_held()
    ensures { PointsStayHeld }
{}
