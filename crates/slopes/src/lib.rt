// The laws of slope changes, cost, best interval, clumps and runs that the engine's proofs and the theorems cite. No code: all is in specs/ and proofs/.
#![tactic(auto)]
