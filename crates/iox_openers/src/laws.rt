//! Laws of what openers and creators are refused.
ghost use Rattle.iox_openers.specs.OpenerLaws.{AnswersAreToldApart, RefusalsKeepTheirNames};
ghost use Rattle.iox_openers.specs.OpenerLaws.{EachCreatorIsAnswered, EachOpenerIsAnswered};
ghost use Rattle.iox_openers.specs.OpenerLaws.{OneAnswerForACreator, OneAnswerForAnOpener};

/// Whatever an opener's types and requirements are, the answer is one, and there is one.
pub fn openers_are_answered()
    ensures one { OneAnswerForAnOpener }
    ensures some { EachOpenerIsAnswered }
{}

/// A creator, too, has exactly one answer.
pub fn creators_are_answered()
    ensures one { OneAnswerForACreator }
    ensures some { EachCreatorIsAnswered }
{}

/// Different answers of the code stay different in the terms of the definitions.
pub fn answers_are_told_whole()
    ensures named { RefusalsKeepTheirNames }
    ensures apart { AnswersAreToldApart }
{}
