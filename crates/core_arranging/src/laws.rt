//! Laws of the definitions, each the contract of a function.
ghost use Rattle.core_arranging.specs.Laws.{PosedMeansTheSame};

/// A core as it is evaluated means what the core means.
pub fn posed_means_the_same()
    ensures { PosedMeansTheSame }
{}
