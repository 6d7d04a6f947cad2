// The row of a code in the table of kinds (document 01, The kinds, by code), decided from ranges of codes (document 02, request 04).
#![tactic(auto)]

ghost use Rattle.std.specs.Prelude.{◌≡◌, ◌<◌, ◌≤◌, ◌%◌, eqb};
ghost use Rattle.ranges.specs.Rows.{row_number, NumbersKeepTheRow};
ghost use Rattle.ranges.specs.Words.{range_row, GivesRowOf, in_ranges_value};

// The last code of the ranges below. Of those above it two have a row: relay information and classless routes (document 02, requests 09 and 14).
pub const LAST: u8 = 76;

pub const RELAY: u8 = 82;

pub const ROUTES: u8 = 121;

const ROW_82: u8 = 12;

const ROW_121: u8 = 13;

// Eight ranges of codes, one behind the other, or fewer: the first code of each, and the number of the row that its codes have. A byte is a range, the lowest
// byte the first; one that is not used begins at 128. Words and no array: an array would be built anew on the stack at each call, and took 27 to 240 instructions (docs/PERFORMANCE.md).
#[derive(Clone, Copy)]
struct Ranges {
    firsts: u64,
    rows: u64,
}

// The ranges with the code c, of those below 33. 8, 10 and 34 have no row (document 02, request 10).
fn low_ranges(c: u8) -> Ranges
    requires { c < 33 }
    ensures { GivesRowOf result c }
{
    if c < 12 {
        // 0; 1; 2; 3 to 7; 8; 9; 10; 11
        return Ranges {
            firsts: 0x0b0a_0908_0302_0100,
            rows: 0x0200_0200_0209_0100,
        };
    }
    if c < 23 {
        // 12; 13; 14 and 15; 16; 17 and 18; 19 and 20; 21; 22
        return Ranges {
            firsts: 0x1615_1311_100e_0d0c,
            rows: 0x1603_040a_010a_060a,
        };
    }
    // 23; 24; 25; 26; 27; 28; 29 to 31; 32
    Ranges {
        firsts: 0x201d_1c1b_1a19_1817,
        rows: 0x0104_0104_2607_0805,
    }
}

// The same, of those from 33 on.
fn high_ranges(c: u8) -> Ranges
    requires { (33 ≤ c) × (c < 77) }
    ensures { GivesRowOf result c }
{
    if c < 41 {
        // 33; 34; 35; 36; 37; 38; 39; 40
        return Ranges {
            firsts: 0x2827_2625_2423_2221,
            rows: 0x0a04_0805_0408_0013,
        };
    }
    if c < 52 {
        // 41 and 42; 43; 44 and 45; 46; 47; 48 and 49; 50; 51
        return Ranges {
            firsts: 0x3332_302f_2e2c_2b29,
            rows: 0x0801_020b_1502_0b02,
        };
    }
    if c < 61 {
        // 52; 53; 54; 55; 56; 57; 58 and 59; 60
        return Ranges {
            firsts: 0x3c3a_3938_3736_3534,
            rows: 0x0b08_160a_0b01_3525,
        };
    }
    // 61; 62 and 63; 64; 65; 66 and 67; 68; 69 to 76
    Ranges {
        firsts: 0x8045_4442_4140_3e3d,
        rows: 0x0002_120a_020a_001b,
    }
}

fn ranges_with(c: u8) -> Ranges
    requires { c < 77 }
    ensures { GivesRowOf result c }
{
    if c < 33 {
        return low_ranges(c);
    }
    high_ranges(c)
}

// The row of the last range that begins at c or before. All eight are compared at once: in each byte the high bit stays where c is not below the first code.
fn row_in(firsts: u64, rows: u64, c: u8) -> u8
    requires { (c < 128) × (firsts ≤ 9259542123273814144) }
    ensures { result ≡ range_row firsts rows c }
{
    let past = (c as u64 + 128) * 0x0101_0101_0101_0101 - firsts;
    let begun = past & 0x8080_8080_8080_8080;
    let above = u64::leading_zeros(begun) % 64 / 8;
    ((rows >> (56 - above * 8)) % 64) as u8
}

// The row of a code from 77 on: 82 and 121 have one.
fn above(c: u8) -> u8
    requires { 77 ≤ c }
    ensures { result ≡ row_number c }
{
    if c == RELAY {
        return ROW_82;
    }
    if c == ROUTES {
        return ROW_121;
    }
    0
}

// The number of the row of the code c: that of its kind, and 16 for each row of that kind before it; 0 for none.
// A number and no Option: with the kind in its low four bits a rule is chosen by one test, which was measured (docs/PERFORMANCE.md).
pub fn row(c: u8) -> u8
    ensures { result ≡ row_number c }
{
    if LAST < c {
        return above(c);
    }
    let r = ranges_with(c);
    row_in(r.firsts, r.rows, c)
}

// Whether the code c is of a text (kind 10), by its ranges alone: 12; 14 and 15; 17 and 18; 40; 56; 64; 66 and 67. A range has begun and not ended.
pub fn is_text(c: u8) -> bool
    ensures { result ≡ eqb (row_number c % 16) 10 }
{
    if LAST < c {
        return false;
    }
    in_ranges(0x8042_4038_2811_0e0c, 0x8044_4139_2913_100d, c)
}

// Whether c is in one of the ranges that begin at the bytes of `firsts` and end before those of `ends`.
fn in_ranges(firsts: u64, ends: u64, c: u8) -> bool
    requires { (c < 128) × ((firsts ≤ 9259542123273814144) × (ends ≤ 9259542123273814144)) }
    ensures { result ≡ in_ranges_value firsts ends c }
{
    let places = (c as u64 + 128) * 0x0101_0101_0101_0101;
    let begun = (places - firsts) & 0x8080_8080_8080_8080;
    let ended = (places - ends) & 0x8080_8080_8080_8080;
    begun != ended
}

// The statements of specs/ hold.
pub fn proved()
    ensures { NumbersKeepTheRow }
{}
