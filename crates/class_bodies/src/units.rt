ghost use Rattle.std.specs.Prelude.{◌≡◌, ℕ, ◌+◌, ◌*◌, ◌<◌, ◌≤◌, true, false, ◌&&◌, IfOk, OnOk, nat_le, nat_lt};
ghost use Rattle.bits.specs.Members.{member};
ghost use Rattle.grammar.specs.Codes.{FaceUnit, codes_of, codes_of_tile};
ghost use Rattle.alphabets.specs.Alphabets.{unit_of};
ghost use Rattle.alphabets.specs.Colours.{letter_of};
ghost use Rattle.class_bodies.specs.ClassBody.{SpellsCodes, SpellsMore, codes_of_colour};

use alphabets::{Alphabet, Colour};
use bits::Set64;
use grammar::colour_codes;
use std::alloc::{AllocError, Global};

// The first number from `low` on that is not in the set, or 26 where all numbers from `low` to 25 are.
fn run_end(codes: Set64, low: u8) -> u8
    requires { low ≤ 26 }
    ensures bound { (low ≤ result) × (result ≤ 26) }
    ensures before { (c : ℕ) → low ≤ c → c < result → member codes c ≡ true }
    ensures here { result < 26 → member codes result ≡ false }
{
    (low..26).find(|c| !codes.has(*c)).unwrap_or(26)
}

// Appends the letters whose codes begin at `low` and end before `end`: none, one letter, or a range.
fn push_run(body: &mut Vec<u8>, low: u8, end: u8) -> Result<(), AllocError>
    requires { (low ≤ end) × (end ≤ 26) }
    ensures { OnOk result (SpellsMore 1 body.old.items body.new.items (λ c. nat_le low c && nat_lt c end)) }
{
    match end - low {
        0 => Ok(()),
        1 => body.extend_from_slice(&[b'a' + low]),
        _ => body.extend_from_slice(&[b'a' + low, b'-', b'a' + (end - 1)]),
    }
}

// A class body that spells these codes of letters.
fn letters_body(heap: Global, codes: Set64) -> Result<Vec<u8>, AllocError>
    ensures { IfOk result (λ v. SpellsCodes 1 v.items (λ c. member codes c && nat_lt c 26)) }
{
    let mut body = Vec::new(heap);
    let mut low = 0;
    // By hand: a run begins where the one before it ended.
    while low < 26 {
        let end = run_end(codes, low);
        push_run(&mut body, low, end)?;
        low = end + 1;
    }
    Ok(body)
}

// Appends a tile's unit.
fn push_tile(body: &mut Vec<u8>, colour: Colour, face: u8) -> Result<(), AllocError>
    requires { FaceUnit face }
    ensures { OnOk result (SpellsMore 2 body.old.items body.new.items (codes_of_tile (letter_of colour) face)) }
{
    body.extend_from_slice(&[colour.letter(), face])
}

// Appends the tiles of one colour that these codes have, each by itself.
fn push_faces(body: &mut Vec<u8>, codes: Set64, colour: Colour) -> Result<(), AllocError>
    ensures { OnOk result (SpellsMore 2 body.old.items body.new.items (codes_of_colour codes colour)) }
{
    for code in codes.intersection(colour_codes(colour)) {
        push_tile(body, colour, b'0' + code % 10)?;
    }
    Ok(())
}

// Appends the tiles of one colour that these codes have: all ten at once, or each by itself.
fn push_colour(body: &mut Vec<u8>, codes: Set64, colour: Colour) -> Result<(), AllocError>
    ensures { OnOk result (SpellsMore 2 body.old.items body.new.items (codes_of_colour codes colour)) }
{
    if colour_codes(colour).difference(codes).is_empty() {
        push_tile(body, colour, b'.')
    } else {
        push_faces(body, codes, colour)
    }
}

// A class body that spells these codes of tiles.
fn tiles_body(heap: Global, codes: Set64) -> Result<Vec<u8>, AllocError>
    ensures { IfOk result (λ v. SpellsCodes 2 v.items (λ c. member codes c && nat_lt c 40)) }
{
    let mut body = Vec::new(heap);
    for colour in [Colour::Red, Colour::Green, Colour::Blue, Colour::Yellow] {
        push_colour(&mut body, codes, colour)?;
    }
    Ok(body)
}

/// A class body that spells these codes, as far as they are codes of the kind.
pub fn class_body(heap: Global, kind: Alphabet, codes: Set64) -> Result<Vec<u8>, AllocError>
    ensures { IfOk result (λ v. SpellsCodes (unit_of kind) v.items (λ c. member codes c && nat_lt c (codes_of (unit_of kind)))) }
{
    match kind {
        Alphabet::Letters => letters_body(heap, codes),
        Alphabet::Tiles => tiles_body(heap, codes),
    }
}
