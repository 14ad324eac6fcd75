// The statements of correctness, soundness and sensitivity over Field128, each as what a function ensures that does
// nothing, so that the check asks for its proof. Those on withdrawals and on moved sums are over any field already.
#![tactic(auto)]

ghost use Rattle.params128.specs.Field128.{Field128};
ghost use Rattle.correctness.specs.Correctness.{Correctness};
ghost use Rattle.soundness.specs.Soundness.{Soundness};
ghost use Rattle.sensitivity.specs.Sensitivity.{TrueLengths, MovedDoubles};
ghost use Rattle.theorems128.specs.SmallSums.{SmallSums};

// The main theorem (docs/PINE.md, "Reports and sums").
pub fn reports_and_aggregates()
    ensures { Correctness Field128 }
{}

// Sums within 2^64 - 1 of zero can be decoded, as the main theorem asks of all of them together.
pub fn small_sums()
    ensures { SmallSums Field128 }
{}

// How rarely a false report looks true.
pub fn false_reports()
    ensures { Soundness Field128 }
{}

// A gradient whose true squared length is within the bound is never refused by rule 10.
pub fn true_lengths()
    ensures { TrueLengths Field128 }
{}

// How far one report can move the doubles.
pub fn moved_doubles()
    ensures { MovedDoubles Field128 }
{}
