//! What holds for every graph of masks. Each law is a contract with an empty body.

ghost use Rattle.mask_graphs.specs.Chains.{ChainsAreSteps};
ghost use Rattle.mask_graphs.specs.Statements.{StepsKeepRounds, SearchedStepsFit, BarePartsAreFound, BareSumsAreTold, BarePartsAreLarge};

/// Steps that fit keep each reading word and each answer word of a round, while one list of readings takes the place of another.
pub fn kept()
    ensures { StepsKeepRounds }
{}

/// The steps of the search fit, where the readings have one sum over each bare part; and its lists are the bare parts.
pub fn searched()
    ensures fit { SearchedStepsFit }
    ensures found { BarePartsAreFound }
{}

/// The words of a round tell the sum over each bare part, which has each meter that one of its meters sees.
pub fn told()
    ensures sums { BareSumsAreTold }
    ensures large { BarePartsAreLarge }
{}

/// The steps along the chain of a round move the pair words as the chain does.
pub fn chains()
    ensures { ChainsAreSteps }
{}
