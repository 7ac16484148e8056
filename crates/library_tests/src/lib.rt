//! Tests of the library: examples from outside, each kind of row once, and peers that fail halfway.

#![tactic(auto)]

#[cfg(test)]
mod answer_texts;
#[cfg(test)]
mod classes;
#[cfg(test)]
mod conversation;
#[cfg(test)]
mod lent_words;
#[cfg(test)]
mod lists_with_lines;
#[cfg(test)]
mod on_the_shelf;
#[cfg(test)]
mod refused_values;
#[cfg(test)]
mod search;
#[cfg(test)]
mod sheets;
#[cfg(test)]
mod typed;
#[cfg(test)]
mod wire_lines;
