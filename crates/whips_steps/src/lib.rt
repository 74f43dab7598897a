//! The steps of a query from one part of a view: which sources are asked, in which order and for which parts, what the
//! answer to a step is, and laws of these answers.
#![tactic(auto)]

ghost use Rattle.whips_steps.specs.Laws.{StepsFind, AnswersAreWhole, UnconcernedAnswer, AnswerAtParts};

/// Law: on one state the answers to all of an origin's steps, from distinct tuples of that state that meet the view,
/// give exactly the rows of the view's value whose tuple at the origin is one of these.
pub fn steps_find()
    ensures { StepsFind }
{}

/// Law: after the answers to all of an origin's steps, from such tuples, each partial choice is filled at each part of
/// the view, and no two have the same keys.
pub fn answers_are_whole()
    ensures { AnswersAreWhole }
{}

/// Law: a valid transaction that doesn't concern a view leaves the answer to any step as it was.
pub fn unconcerned_answer()
    ensures { UnconcernedAnswer }
{}

/// Law: the answer to a step looks at the relations of the asked parts alone.
pub fn answer_at_parts()
    ensures { AnswerAtParts }
{}
