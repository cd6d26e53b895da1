//! The engine for programs in C, as a static library: `rt lib` in this folder makes `out/libc_interface.a`.
//!
//! A slice passes as a pointer and then a length; the heap passes as nothing. `jothwila_fits` tells after each letter of a row whether the row so far
//! fits a pattern, and `jothwila_need` how many letters the row lacks. `specs/Told.antt` says what they write and answer.
//!
//! In C: `size_t jothwila_fits(const uint8_t *pattern, size_t, const uint8_t *row, size_t, uint8_t *fits, size_t)` and
//! `uint32_t jothwila_need(const uint8_t *pattern, size_t, const uint8_t *row, size_t, uint32_t again)`.

#![tactic(auto)]

mod each;
mod exports;
mod needs;

pub use exports::{jothwila_fits, jothwila_need};
