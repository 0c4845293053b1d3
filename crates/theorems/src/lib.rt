// The three demands as theorems about the written definitions: proofs/Demands.antt, in the words of specs/Terms.antt. No code: what they rest on is in
// specs/ and proofs/.
#![tactic(auto)]
