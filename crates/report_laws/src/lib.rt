// What holds of every report, over the definitions that the contract of report cites: specs/ and proofs/ are all that this library has.
#![tactic(auto)]
