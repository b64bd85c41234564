// No code: proofs/ holds the three demands and the debts of document 01 as theorems over the contracts of the six calls of mespindro.
#![tactic(auto)]
