// Laws of the definition that several crates cite: of tests, verdicts, surfaces, status bytes, lists and folds.
// In Records, Compact and Extend: laws of lent flat lists, for any type of record, any test and every length.
// There is no code here; specs/ has the notions that the laws speak of, proofs/ the laws.
#![tactic(auto)]
