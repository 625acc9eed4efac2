// Demand 3 of the customer's letter, days off, what each line of a statement shows, and that a reason's mark is its line's, over the
// definitions that the contracts of open, post, statement and reason cite: specs/ and proofs/ are all that this library has.
#![tactic(auto)]
