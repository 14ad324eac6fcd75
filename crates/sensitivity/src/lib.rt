// How far one report can move the sums: statements about the definitions of encoding and unsharding,
// each as what a function ensures that does nothing, so that the check asks for its proof.
#![tactic(auto)]

ghost use Rattle.pine.specs.Param.{Field64};
ghost use Rattle.sensitivity.specs.Sensitivity.{TrueLengths, MovedSums, MovedDoubles};

// A gradient whose true squared length is within the bound is never refused by rule 10.
pub fn true_lengths()
    ensures { TrueLengths Field64 }
{}

// Two batches that differ in one report: the sums of floors, over every field.
pub fn moved_sums()
    ensures { MovedSums }
{}

// The same batches: the doubles that unsharding gives, after any lists of calls on aggregates.
pub fn moved_doubles()
    ensures { MovedDoubles Field64 }
{}
