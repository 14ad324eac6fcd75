// Statements about the definitions themselves, each as what a function ensures that does nothing: so
// the check asks for their proofs.
#![tactic(auto)]

ghost use Rattle.pine.specs.Param.{Field64};
ghost use Rattle.correctness.specs.Table.{Table};
ghost use Rattle.correctness.specs.Correctness.{Correctness, EveryDecodable};
ghost use Rattle.correctness.specs.Withdrawal.{Withdrawal};

// The worked examples (docs/PINE.md, "Worked rows").
pub fn worked_examples()
    ensures { Table }
{}

// The main theorem (docs/PINE.md, "Reports and sums"): for every accepted parameter set, every list of
// calls on aggregates and every list of reports, each cut in two in a way of its own.
pub fn reports_and_aggregates()
    ensures { Correctness Field64 }
{}

// Over Field64 the sums of every list of reports can be decoded, as the main theorem asks of them.
pub fn every_sum_decodable()
    ensures { EveryDecodable Field64 }
{}

// The laws of adding and taking out, of rows over any modulus and of lists of calls over any field.
pub fn adding_and_taking_out()
    ensures { Withdrawal }
{}
