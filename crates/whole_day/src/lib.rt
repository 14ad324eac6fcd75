// Statements about the definitions of the day's file (docs/PINE.md, "The day's file"), each as what a function
// ensures that does nothing: so the check asks for their proofs.
#![tactic(auto)]

ghost use Rattle.whole_day.specs.Statements.{Files, Inverses, OneAdding, WholeDay, KeyDoubles, ExactSize};

// Bytes are a file just where they are made from entries in order.
pub fn files()
    ensures { Files }
{}

// Reading and writing are exact inverses on files.
pub fn inverses()
    ensures { Inverses }
{}

// An accepted call of adding changes one entry or places one, and no other.
pub fn one_adding()
    ensures { OneAdding }
{}

// After any calls of adding, accepted or refused, each entry counts its key's accepted reports and holds
// their sum.
pub fn whole_days()
    ensures { WholeDay }
{}

// The bodies of one key in two servers' files give the doubles of that key's reports.
pub fn key_doubles()
    ensures { KeyDoubles }
{}

// The exact size is that of the file that adding makes, or the first refusal that adding meets.
pub fn exact_size()
    ensures { ExactSize }
{}
