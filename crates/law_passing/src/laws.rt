//! What the house rules do to names.

ghost use Rattle.law_passing.specs.Passing.{RulesArePassing};

/// Where a server knows of names just what its replicas took, it does behind the house rules too:
/// all that it holds passes, and again behind each place that a rule makes.
pub fn rules_are_passing()
    ensures { RulesArePassing }
{}
