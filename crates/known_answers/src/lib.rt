// No code: the twelve known answers of docs/TERMS.md, as one list of the definitions' results.
#![tactic(auto)]
