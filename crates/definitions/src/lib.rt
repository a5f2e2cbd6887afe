// No code: specs/ has documents 01 and 02 as definitions, proofs/ their trials.
#![tactic(auto)]
