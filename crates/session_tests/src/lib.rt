//! Tests of sessions over every bank. What each row must come to is worked by hand from the rules.

#![tactic(auto)]

#[cfg(test)]
mod areas;
#[cfg(test)]
mod fullness;
#[cfg(test)]
mod rows;
