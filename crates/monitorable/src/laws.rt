//! Laws of the logic, each stated by the contract of a function that does nothing.
ghost use Rattle.monitorable.specs.Laws.{ApartConstants, ApartFragment, ApartMeansTheSame, ApartVariables};
ghost use Rattle.monitorable.specs.Laws.{Coincidence, ConjunctsMean, Domain, Finality, NormalFormConstants};
ghost use Rattle.monitorable.specs.Laws.{NormalFormHolds, NormalFormSettled, NormalFormVariables};
ghost use Rattle.monitorable.specs.Laws.{PartsAreSound, SettledBefore, SettledStays, SettledWithin};
ghost use Rattle.monitorable.specs.Laws.{TablesSatisfy, TextFinal, ViolationsFinal, ViolationsSatisfy};

/// Whether a formula holds hangs on its free variables alone.
#[tactic(auto, using(crate::proofs::Coincidence::coincidence))]
pub fn only_free_variables_matter()
    ensures { Coincidence }
{}

/// The normal form of a formula holds exactly where the formula does, that of its negation exactly
/// where it doesn't.
pub fn normal_form_holds()
    ensures { NormalFormHolds }
{}

/// Both normal forms are settled exactly where the formula is.
pub fn normal_form_settled()
    ensures { NormalFormSettled }
{}

/// With its quantifiers apart, a core holds where it did and is settled where it was.
pub fn apart_means_the_same()
    ensures { ApartMeansTheSame }
{}

/// With its quantifiers apart, a core has the same free variables, and no variable stands for two.
pub fn apart_variables()
    ensures { ApartVariables }
{}

/// Both normal forms have the formula's free variables, in the same order.
pub fn normal_form_variables()
    ensures { NormalFormVariables }
{}

/// Both normal forms have the formula's constants.
pub fn normal_form_constants()
    ensures { NormalFormConstants }
{}

/// What is settled stays as it is in every longer log.
#[tactic(auto, using(crate::proofs::FinalityLaw::finality))]
pub fn settled_is_final()
    ensures { Finality }
{}

/// The settled positions are the first ones.
#[tactic(auto, using(crate::proofs::SettledLemmas::settled_before))]
pub fn settled_before()
    ensures { SettledBefore }
{}

/// What the fragment accepts has its values in the domain, and hangs on no larger domain.
pub fn domain_is_enough()
    ensures { Domain }
{}

/// What is settled lies within the log.
#[tactic(auto, using(crate::proofs::SettledLemmas::settled_in_log))]
pub fn settled_within()
    ensures { SettledWithin }
{}

/// What is settled is settled in every longer log.
#[tactic(auto, using(crate::proofs::SettledStays::settled_stays))]
pub fn settled_stays()
    ensures { SettledStays }
{}

/// The violations of a monitored policy at a settled position are the same in every longer log.
#[tactic(auto, using(crate::proofs::ViolationsFinal::violations_final))]
pub fn violations_are_final()
    ensures { ViolationsFinal }
{}

/// The text of a log is a prefix of the text of every longer one, where the policy can be monitored.
pub fn text_is_final()
    ensures { TextFinal }
{}

/// With its quantifiers apart, a core that the fragment accepts is accepted.
#[tactic(auto, using(crate::proofs::FragmentRenamed::apart_fragment))]
pub fn apart_fragment()
    ensures { ApartFragment }
{}

/// A core holds exactly where all its conjuncts do.
#[tactic(auto, using(crate::proofs::ConjunctsLaw::conjuncts_mean))]
pub fn conjuncts_mean()
    ensures { ConjunctsMean }
{}

/// With its quantifiers apart, a core has the same constants.
#[tactic(auto, using(crate::proofs::RenamedConstants::apart_constants))]
pub fn apart_constants()
    ensures { ApartConstants }
{}

/// The violations of a policy are the rows that satisfy a core which negates it.
#[tactic(auto, using(crate::proofs::SatisfyingLaw::violations_satisfy))]
pub fn violations_satisfy()
    ensures { ViolationsSatisfy }
{}

/// A table that is exact for a core, on all rows, holds the rows that satisfy it.
#[tactic(auto, using(crate::proofs::TableLaw::tables_satisfy))]
pub fn tables_satisfy()
    ensures { TablesSatisfy }
{}

/// A core has in each part all that evaluating it relies on.
#[tactic(auto, using(crate::proofs::SoundLaw::parts_are_sound))]
pub fn parts_are_sound()
    ensures { PartsAreSound }
{}
