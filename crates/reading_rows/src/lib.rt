//! Rows of reading: files, tokens, pages, values, style texts and scenes, with the values that they must have.
//!
//! Nothing stands on this crate, and it has no function but tests. The clauses of the readers say which grammar
//! is read; a row says that this grammar is what was meant, and that memory isn't refused where there is enough
//! of it. The rows come from outside, by hand and from other readers. They are tables, and each goes through one
//! call, so that few goals have to be proved.
#![tactic(auto)]

#[cfg(test)]
mod files;
#[cfg(test)]
mod pages;
#[cfg(test)]
mod scenes;
#[cfg(test)]
mod styles;
#[cfg(test)]
mod tokens;
#[cfg(test)]
mod values;
