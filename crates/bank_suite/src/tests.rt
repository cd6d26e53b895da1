use super::*;
use bit_bank::BitBank;
use list_bank::ListBank;
use mask_layer::MaskLayer;
use std::process::Abort;
use std::test::Fail;

/// A call with what it must answer.
// By an enum: a script runs at every bank, and no closure is generic over them.
#[derive(Clone, Copy)]
enum Call {
    /// add(p, i) is not refused.
    Add(usize, u16),
    /// add(p, i) is refused: the bank is full.
    AddFull(usize, u16),
    /// The counts 1 to n are added at p, and none is refused.
    Fill(usize, u16),
    /// carry(p, q, ..) is not refused.
    Carry(usize, usize, Raise),
    /// carry(p, q, ..) is refused: the bank is full.
    CarryFull(usize, usize, Raise),
    /// look(p, low, high) says yes.
    Found(usize, u16, u16),
    /// look(p, low, high) says no.
    Missing(usize, u16, u16),
    Turn,
    DropBack,
    /// Starts the bank with no place but the start.
    StartOnly,
}

/// Adds the counts 1 to n at p, and tells whether none was refused.
fn fills<B: Bank>(bank: &mut B, p: usize, n: u16) -> bool {
    (1..=n).all(|i| bank.add(p, i).is_ok())
}

/// Whether a call answers what it must.
fn answers<B: Bank>(bank: &mut B, call: Call) -> bool {
    match call {
        Call::Add(p, i) => bank.add(p, i).is_ok(),
        Call::AddFull(p, i) => bank.add(p, i) == Err(Refusal::Full),
        Call::Fill(p, n) => fills(bank, p, n),
        Call::Carry(p, q, raise) => bank.carry(p, q, raise).is_ok(),
        Call::CarryFull(p, q, raise) => bank.carry(p, q, raise) == Err(Refusal::Full),
        Call::Found(p, low, high) => bank.look(p, low, high),
        Call::Missing(p, low, high) => !bank.look(p, low, high),
        Call::Turn => {
            bank.turn();
            true
        }
        Call::DropBack => {
            bank.drop_back();
            true
        }
        Call::StartOnly => {
            bank.start(&Widths::start_only());
            true
        }
    }
}

/// The start, rows of 63, 64, 65, 128 and 1,000 counts at places 1 to 5, two places of width 1, one of 2, and one more of 1,000.
fn plan() -> Option<Widths> {
    let mut widths = [0; 65];
    widths[..10].copy_from_slice(&[1, 63, 64, 65, 128, 1000, 1, 1, 2, 1000]);
    Widths::of(&widths)
}

/// Whether all calls answer what they must, from the start of a new bank.
fn all_answer<B: Bank>(calls: &[Call]) -> bool {
    let Some(widths) = plan() else {
        return false;
    };
    let mut bank = B::new();
    bank.start(&widths);
    calls.iter().all(|call| answers(&mut bank, *call))
}

/// All calls answer what they must at this bank.
fn at<B: Bank>(rt: &impl Abort, bank: &str, calls: &[Call]) {
    assert!(rt; all_answer::<B>(calls), "{bank}");
}

/// They do at every bank.
fn at_every_bank(rt: &impl Abort, calls: &[Call]) {
    at::<BitBank>(rt, "bit bank", calls);
    at::<ListBank>(rt, "list bank", calls);
    at::<MaskLayer<BitBank>>(rt, "mask layer over the bit bank", calls);
    at::<MaskLayer<ListBank>>(rt, "mask layer over the list bank", calls);
    at::<MaskLayer<MaskLayer<ListBank>>>(rt, "mask layer over a mask layer", calls);
}

const MOST: u16 = u16::MAX;

/// A bank that was just started has (0, 1) alone in front, and nothing in the back.
#[test]
fn start(rt: HostRuntime) {
    at_every_bank(
        &rt,
        &[
            Call::Found(0, 1, 1),
            Call::Found(0, 0, MOST),
            Call::Missing(0, 0, 0),
            Call::Missing(0, 2, MOST),
            Call::Missing(0, 1, 0),
            Call::Missing(1, 0, MOST),
            Call::Turn,
            Call::Missing(0, 0, MOST),
        ],
    );
}

/// The first and the last count of a row stand and go on; counts past the row's ends do not.
fn row(rt: &impl Abort, p: usize, width: u16) {
    let last = width.saturating_sub(1);
    let past = width.saturating_add(1);
    at_every_bank(
        rt,
        &[
            Call::Add(p, 1),
            Call::Add(p, width),
            Call::Add(p, 0),
            Call::Add(p, past),
            Call::Turn,
            Call::Found(p, 1, 1),
            Call::Missing(p, 2, last),
            Call::Found(p, 2, width),
            Call::Found(p, width, MOST),
            Call::Missing(p, past, MOST),
            Call::Missing(p, 0, 0),
            Call::Carry(p, p, Raise::One),
            Call::Turn,
            Call::Missing(p, 0, 1),
            Call::Found(p, 2, 2),
            Call::Missing(p, 3, MOST),
            Call::Carry(p, p, Raise::Nothing),
            Call::Turn,
            Call::Found(p, 2, 2),
            Call::Missing(p, 3, MOST),
        ],
    );
}

#[test]
fn rows(rt: HostRuntime) {
    for (p, width) in [(1, 63), (2, 64), (3, 65), (4, 128), (5, 1000)] {
        row(&rt, p, width);
    }
}

/// Between places of different widths, what does not fit into the row of q is left out.
#[test]
fn different_widths(rt: HostRuntime) {
    at_every_bank(
        &rt,
        &[
            Call::Add(5, 1),
            Call::Add(5, 63),
            Call::Add(5, 64),
            Call::Add(5, 65),
            Call::Turn,
            Call::Carry(5, 2, Raise::One),
            Call::Carry(5, 6, Raise::Nothing),
            Call::Carry(5, 7, Raise::One),
            Call::Carry(5, 8, Raise::One),
            Call::Turn,
            Call::Found(2, 2, 2),
            Call::Missing(2, 3, 63),
            Call::Found(2, 64, 64),
            Call::Missing(2, 65, MOST),
            Call::Found(6, 1, 1),
            Call::Missing(7, 0, MOST),
            Call::Missing(8, 0, 1),
            Call::Found(8, 2, 2),
            Call::Carry(2, 5, Raise::One),
            Call::Carry(6, 8, Raise::One),
            Call::Carry(6, 9, Raise::Nothing),
            Call::Carry(6, 7, Raise::Nothing),
            Call::Turn,
            Call::Found(5, 3, 3),
            Call::Found(5, 65, 65),
            Call::Missing(5, 4, 64),
            Call::Found(8, 2, 2),
            Call::Found(9, 1, 1),
            Call::Missing(9, 2, MOST),
            Call::Found(7, 1, 1),
        ],
    );
}

/// Numbers that are no place or no count put nothing in, and are nowhere found.
#[test]
fn out_of_range(rt: HostRuntime) {
    at_every_bank(
        &rt,
        &[
            Call::Add(10, 1),
            Call::Add(65, 1),
            Call::Add(256, 1),
            Call::Add(usize::MAX, 1),
            Call::Add(1, 0),
            Call::Add(1, MOST),
            Call::Add(6, 2),
            Call::Carry(0, 65, Raise::Nothing),
            Call::Carry(0, usize::MAX, Raise::One),
            Call::Carry(0, 6, Raise::One),
            Call::Carry(65, 1, Raise::Nothing),
            Call::Carry(256, 1, Raise::One),
            Call::Turn,
            Call::Missing(0, 0, MOST),
            Call::Missing(1, 0, MOST),
            Call::Missing(6, 0, MOST),
            Call::Missing(10, 0, MOST),
            Call::Missing(65, 0, MOST),
            Call::Missing(256, 0, MOST),
            Call::Missing(usize::MAX, 0, MOST),
        ],
    );
}

/// A back that was dropped does not become the front; a start forgets what stood.
#[test]
fn dropped(rt: HostRuntime) {
    at_every_bank(
        &rt,
        &[
            Call::Add(1, 7),
            Call::Add(6, 1),
            Call::DropBack,
            Call::Found(0, 1, 1),
            Call::Add(2, 5),
            Call::Turn,
            Call::Missing(1, 0, MOST),
            Call::Missing(6, 0, MOST),
            Call::Found(2, 5, 5),
            Call::Add(3, 9),
            Call::Add(7, 1),
            Call::StartOnly,
            Call::Found(0, 1, 1),
            Call::Missing(2, 0, MOST),
            Call::Add(2, 5),
            Call::Turn,
            Call::Missing(0, 0, MOST),
            Call::Missing(2, 0, MOST),
            Call::Missing(3, 0, MOST),
            Call::Missing(7, 0, MOST),
        ],
    );
}

/// The list bank holds 256 pairs and refuses the 257th, with the back as it was.
#[test]
fn list_bank_full(rt: HostRuntime) {
    at::<ListBank>(
        &rt,
        "list bank",
        &[
            Call::Fill(5, 256),
            Call::AddFull(5, 257),
            Call::AddFull(6, 1),
            Call::Add(5, 256),
            Call::Add(5, 1001),
            Call::Turn,
            Call::Found(5, 1, 1),
            Call::Found(5, 256, 256),
            Call::Missing(5, 257, MOST),
            Call::Missing(6, 0, MOST),
            Call::Add(9, 1000),
            Call::CarryFull(5, 9, Raise::One),
            Call::Carry(5, 8, Raise::Nothing),
            Call::Turn,
            Call::Found(9, 1000, 1000),
            Call::Missing(9, 0, 999),
            Call::Found(8, 2, 2),
        ],
    );
}

/// A mask layer over it holds more: pairs at places of width 1 need no room there.
#[test]
fn mask_holds_more(rt: HostRuntime) {
    at::<MaskLayer<ListBank>>(
        &rt,
        "mask layer over the list bank",
        &[
            Call::Fill(5, 256),
            Call::Add(0, 1),
            Call::Add(6, 1),
            Call::Add(7, 1),
            Call::AddFull(8, 1),
            Call::Turn,
            Call::Found(0, 1, 1),
            Call::Found(6, 1, 1),
            Call::Found(7, 1, 1),
            Call::Found(5, 256, 256),
            Call::Missing(8, 0, MOST),
        ],
    );
}

/// The bit bank refuses nothing, also under a mask layer.
#[test]
fn bit_bank_holds_all(rt: HostRuntime) {
    let calls = [
        Call::Fill(5, 1000),
        Call::Fill(4, 128),
        Call::Turn,
        Call::Carry(5, 9, Raise::One),
        Call::Turn,
        Call::Missing(9, 0, 1),
        Call::Found(9, 2, 2),
        Call::Found(9, 64, 64),
        Call::Found(9, 65, 65),
        Call::Found(9, 1000, 1000),
    ];
    at::<BitBank>(&rt, "bit bank", &calls);
    at::<MaskLayer<BitBank>>(&rt, "mask layer over the bit bank", &calls);
}

/// Whether a new bank has nothing, and takes nothing in, since it has no widths.
fn is_empty_when_new<B: Bank>() -> bool {
    let mut bank = B::new();
    let nothing = !bank.look(0, 0, MOST);
    let taken = bank.add(0, 1).is_ok();
    bank.turn();
    nothing && taken && !bank.look(0, 0, MOST)
}

#[test]
fn new(rt: HostRuntime) {
    assert!(rt; is_empty_when_new::<BitBank>());
    assert!(rt; is_empty_when_new::<ListBank>());
    assert!(rt; is_empty_when_new::<MaskLayer<BitBank>>());
    assert!(rt; is_empty_when_new::<MaskLayer<MaskLayer<ListBank>>>());
}

/// Place 8 has width 2: count 1 arrives there as it is and raised. At place 6, of width 1, it arrives only as it is.
#[test]
fn passed_on(rt: HostRuntime) -> Result<(), Fail> {
    let Some(widths) = plan() else {
        assert!(rt; false);
        return Ok(());
    };
    assert!(rt; first_pass::<BitBank>(&widths, 8, Raise::One) == Ok(true));
    assert!(rt; first_pass::<ListBank>(&widths, 6, Raise::Nothing) == Ok(true));
    assert!(rt; first_pass::<MaskLayer<ListBank>>(&widths, 6, Raise::One) == Ok(false));
    assert!(rt; first_pass::<MaskLayer<BitBank>>(&widths, 8, Raise::Nothing) == Ok(true));
    Ok(())
}
