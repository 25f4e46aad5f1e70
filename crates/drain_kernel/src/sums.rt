//! The test of the accumulation: in 16 bits by sums that stop at the greatest number, in 32 bits by sums of capped numbers,
//! and in 64 bits for any numbers.

ghost use Rattle.std.specs.Prelude.{◌≡◌, ◌<◌, ◌+◌, ◌^◌, IsTrue, min};
ghost use Rattle.drain_kernel.specs.Tests.{adds_up, passed_on};

/// What a neighbour passes on, of a capped accumulation.
#[inline(always)]
fn capped_passed_on(code: u16, back: u16, acc: u16) -> u16
    ensures { result ≡ passed_on code back acc }
{
    if code == back { acc } else { 0 }
}

/// The sum, if it is below 65535; a greater one stops there.
#[inline(always)]
fn capped_sum(first: u16, second: u16) -> u16
    ensures { result < 65535 → result ≡ first + second }
{
    first.saturating_add(second)
}

/// The sum of four numbers, if it is below 65535; a greater one stops there.
#[inline(always)]
fn capped_sum_of_four(first: u16, second: u16, third: u16, fourth: u16) -> u16
    ensures { result < 65535 → result ≡ ((first + second) + third) + fourth }
{
    capped_sum(capped_sum(capped_sum(first, second), third), fourth)
}

/// The rule of the accumulation, at a cell where all have data, by capped numbers: the cell's own is below the cap.
#[inline(always)]
#[tactic(auto, unfolding(crate::specs::Tests::adds_up))]
pub fn adds_up_by_capped(capped_acc: u16, codes: [u16; 8], capped_accs: [u16; 8]) -> bool
    ensures below_cap { IsTrue result → capped_acc < 65535 }
    ensures sum { IsTrue result → IsTrue (adds_up capped_acc codes capped_accs) }
{
    let first = capped_sum_of_four(
        capped_passed_on(codes[0], 16, capped_accs[0]),
        capped_passed_on(codes[1], 32, capped_accs[1]),
        capped_passed_on(codes[2], 64, capped_accs[2]),
        capped_passed_on(codes[3], 128, capped_accs[3]),
    );
    let second = capped_sum_of_four(
        capped_passed_on(codes[4], 1, capped_accs[4]),
        capped_passed_on(codes[5], 2, capped_accs[5]),
        capped_passed_on(codes[6], 4, capped_accs[6]),
        capped_passed_on(codes[7], 8, capped_accs[7]),
    );
    let all = capped_sum(capped_sum(first, second), 1);
    (capped_acc < 65535) & (capped_acc == all)
}

/// The cap of sums of 32 bits: eight such numbers and 1 fit.
const MIDDLE_CAP: u32 = 0x0FFF_FFFF;

/// What a neighbour passes on, at most this cap.
#[inline(always)]
fn middle_passed_on(code: u16, back: u16, acc: u32) -> u32
    ensures { result ≡ min (passed_on code back acc) 268435455 }
{
    if code == back { acc.min(MIDDLE_CAP) } else { 0 }
}

/// The rule of the accumulation, at a cell where all have data, by sums of 32 bits: the cell's own number is at most
/// their cap.
#[inline(always)]
pub fn adds_up_by_middle(acc: u32, codes: [u16; 8], accs: [u32; 8]) -> bool
    ensures { IsTrue result → IsTrue (adds_up acc codes accs) }
{
    let first = middle_passed_on(codes[0], 16, accs[0])
        + middle_passed_on(codes[1], 32, accs[1])
        + middle_passed_on(codes[2], 64, accs[2])
        + middle_passed_on(codes[3], 128, accs[3]);
    let second = middle_passed_on(codes[4], 1, accs[4])
        + middle_passed_on(codes[5], 2, accs[5])
        + middle_passed_on(codes[6], 4, accs[6])
        + middle_passed_on(codes[7], 8, accs[7]);
    (acc <= MIDDLE_CAP) & (acc == first + second + 1)
}

/// What a neighbour passes on, however large it is.
#[inline(always)]
fn passed_on(code: u16, back: u16, acc: u32) -> u64
    ensures number { result ≡ passed_on code back acc }
    ensures fits { result < 2 ^ 32 }
{
    if code == back { u64::from(acc) } else { 0 }
}

/// The rule of the accumulation, at a cell where all have data, by sums of 64 bits, however large the numbers are.
#[inline(always)]
#[tactic(auto, unfolding(crate::specs::Tests::adds_up))]
pub fn adds_up(acc: u32, codes: [u16; 8], accs: [u32; 8]) -> bool
    ensures { result ≡ adds_up acc codes accs }
{
    let first = passed_on(codes[0], 16, accs[0])
        + passed_on(codes[1], 32, accs[1])
        + passed_on(codes[2], 64, accs[2])
        + passed_on(codes[3], 128, accs[3]);
    let second = passed_on(codes[4], 1, accs[4])
        + passed_on(codes[5], 2, accs[5])
        + passed_on(codes[6], 4, accs[6])
        + passed_on(codes[7], 8, accs[7]);
    u64::from(acc) == first + second + 1
}
