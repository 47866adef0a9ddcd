//! Tests of `unroller`, `clause_form` and `form_values`: forms of small circuits, clause by clause, what models of them give,
//! and the most variables and literals of a form.
#![tactic(auto)]

#[cfg(test)]
mod build;
#[cfg(test)]
mod forms;
#[cfg(test)]
mod limits;
#[cfg(test)]
mod models;
#[cfg(test)]
mod plans;
