// Accepted totals, a firm's own posts and the book after a list of posts, over the definitions that the contracts of open and post cite:
// specs/ and proofs/ are all that this library has.
#![tactic(auto)]
