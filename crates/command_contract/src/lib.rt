//! What every command of the program promises: definitions alone (`specs/Contract.antt`).
#![tactic(auto)]
