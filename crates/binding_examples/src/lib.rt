//! Worked examples of binding a Verilog text and of the rules over a bound design: each is a lemma that the checker computes. There is no
//! code.
#![tactic(auto)]
