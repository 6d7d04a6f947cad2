// The kinds of options (document 01, The kinds, by code): the kind of a code, the rules of length and of value.
#![tactic(auto)]

ghost use Rattle.std.specs.Prelude.{◌≡◌, [], ◌∷◌, ◌<◌, ◌≤◌, ◌%◌};
ghost use Rattle.options.specs.Reading.{among};
ghost use Rattle.options.specs.Kinds.{kind_of, multiples, is_length, addresses_of, numbers_of, rising, no_zero_first, trimmed, from_to_value, text_fits_value, or_nine_value};
ghost use Rattle.options.specs.SubOptions.{sub_options, fill_fault};
ghost use Rattle.refusal.specs.Refused.{fault_or_none};
ghost use Rattle.kinds.specs.Numbers.{row_at, kind_numbered, kind_from, fault_of, fault_numbered, length_fits_value, value_fault_in, is_list_value, list_fault_value, short_list_fault_value, long_list_fault_value, number_fault_value, NumbersKeepTheKind, FaultsKeepTheNumber};
ghost use Rattle.kinds.specs.Named.{kind_given, KindsByCase};
ghost use Rattle.kinds.specs.Parts.{octet_fits_value, number16_fits_value};

use refusal::Fault;

// The kinds of options (document 01, The kinds, by code); Relay is that of relay information (document 02, request 09), Routes that of classless routes (request 14).
#[derive(Clone, Copy, Debug, PartialEq, Eq)]
pub enum OptionKind {
    Address,
    Addresses,
    Pairs,
    Flag,
    Octet,
    Number16,
    Numbers16,
    Unsigned32,
    Signed32,
    Text,
    Opaque,
    Relay,
    Routes,
}

// The kinds as numbers (document 01, The kinds): its rows in their order, and 0 for a code that has none.
pub const NO_ROW: u8 = 0;

pub const ADDRESS: u8 = 1;

pub const ADDRESSES: u8 = 2;

pub const PAIRS: u8 = 3;

pub const FLAG: u8 = 4;

pub const OCTET: u8 = 5;

pub const NUMBER16: u8 = 6;

pub const NUMBERS16: u8 = 7;

pub const UNSIGNED32: u8 = 8;

pub const SIGNED32: u8 = 9;

pub const TEXT: u8 = 10;

pub const OPAQUE: u8 = 11;

// Relay information (document 02, request 09).
pub const RELAY: u8 = 12;

// Classless routes (document 02, request 14).
pub const ROUTES: u8 = 13;

// The numbers of the rows (crates/ranges/specs/Rows.antt) have that of their kind in the low four bits. The first row of a kind has the number of the kind;
// these are the others, by their codes.
const ROW_68: u8 = ADDRESSES + 16;

const ROW_33: u8 = PAIRS + 16;

const ROW_46: u8 = OCTET + 16;

const ROW_52: u8 = OCTET + 32;

const ROW_53: u8 = OCTET + 48;

const ROW_22: u8 = NUMBER16 + 16;

const ROW_26: u8 = NUMBER16 + 32;

const ROW_61: u8 = OPAQUE + 16;

// The kind of a row, by the row's number; 0 for no row.
pub fn kind_of(row: u8) -> u8
    ensures { result ≡ kind_numbered row }
{
    row % 16
}

// The same by its name; none for no row. It is put into its callers, whose match on the name the compiler then makes one with this.
#[inline(always)]
pub fn kind_in(row: u8) -> Option<OptionKind>
    ensures { kind_given result ≡ kind_from (kind_numbered row) }
{
    match row % 16 {
        ADDRESS => Some(OptionKind::Address),
        ADDRESSES => Some(OptionKind::Addresses),
        PAIRS => Some(OptionKind::Pairs),
        FLAG => Some(OptionKind::Flag),
        OCTET => Some(OptionKind::Octet),
        NUMBER16 => Some(OptionKind::Number16),
        NUMBERS16 => Some(OptionKind::Numbers16),
        UNSIGNED32 => Some(OptionKind::Unsigned32),
        SIGNED32 => Some(OptionKind::Signed32),
        TEXT => Some(OptionKind::Text),
        OPAQUE => Some(OptionKind::Opaque),
        RELAY => Some(OptionKind::Relay),
        ROUTES => Some(OptionKind::Routes),
        _ => None,
    }
}

// The kind of the code c (document 01, The kinds, by code); none for a code that has none.
pub fn kind(c: u8) -> Option<OptionKind>
    ensures { kind_given result ≡ kind_of c }
{
    kind_in(ranges::row(c))
}

// The length of a text without its trailing zeros (document 01, The kinds).
pub fn text_len(t: &[u8]) -> usize
    ensures { result ≡ trimmed t.now }
{
    match t.iter().rposition(|x| *x != 0) {
        Some(last) => last + 1,
        None => 0,
    }
}

// Whether each byte of a text, its trailing zeros dropped, is 1 to 127 (document 02, request 03).
pub fn text_fits(t: &[u8]) -> bool
    ensures { result ≡ text_fits_value t.now }
{
    t[..text_len(t)].iter().all(|x| from_to(*x, 1, 127))
}

// How the data d breaks the row of the code c (document 01, The kinds, and Numbers given on refusal): by its length or by its value; none where it
// doesn't or there is no row.
pub fn fault(c: u8, d: &[u8]) -> Option<Fault>
    ensures { fault_or_none result ≡ fault_of c d.now }
{
    if ranges::LAST < c {
        return above_fault(c, d);
    }
    low_fault(ranges::row(c), d)
}

// The same, by the number of the row of a code in the ranges: none is of a kind from 12 on, whose loops would take registers from the caller's walk.
fn low_fault(row: u8, d: &[u8]) -> Option<Fault>
    requires { row % 16 < 12 }
    ensures { fault_or_none result ≡ fault_numbered row d.now }
{
    if length_fits(row, d.len()) {
        if is_list(row) {
            return short_list_fault(row, d);
        }
        return number_fault(row, d);
    }
    Some(Fault::Length)
}

// The same, of a code above those of the ranges.
fn above_fault(c: u8, d: &[u8]) -> Option<Fault>
    requires { 77 ≤ c }
    ensures { fault_or_none result ≡ fault_of c d.now }
{
    match c {
        ranges::RELAY => relay_fault(d),
        ranges::ROUTES => routes_fault(d),
        _ => None,
    }
}

// The same, of relay information.
pub fn relay_fault(d: &[u8]) -> Option<Fault>
    ensures { fault_or_none result ≡ fault_of 82 d.now }
{
    if !stepped(d.len(), 2, 1) {
        return Some(Fault::Length);
    }
    suboptions_fault(d)
}

// The same, of classless routes.
pub fn routes_fault(d: &[u8]) -> Option<Fault>
    ensures { fault_or_none result ≡ fault_of 121 d.now }
{
    if !stepped(d.len(), 5, 1) {
        return Some(Fault::Length);
    }
    route_data::first_fault(d)
}

// The same, by the row's number.
pub fn fault_in(row: u8, d: &[u8]) -> Option<Fault>
    ensures { fault_or_none result ≡ fault_numbered row d.now }
{
    if length_fits(row, d.len()) {
        value_fault(row, d)
    } else {
        Some(Fault::Length)
    }
}

// The rule of length of a row; 68 may also have length 0, and 61 has at least 2.
pub fn length_fits(row: u8, n: usize) -> bool
    ensures { result ≡ length_fits_value (row_at row) n }
{
    // By number, here and below, and not by `kind_in`: tried with `is_list`, an arm `_` or `Some(A | B)` told nothing of the kind, and the proof did not close.
    match row % 16 {
        ADDRESS => n == 4,
        ADDRESSES => {
            if row == ROW_68 {
                return stepped(n, 0, 4);
            }
            stepped(n, 4, 4)
        }
        PAIRS => stepped(n, 8, 8),
        FLAG => n == 1,
        OCTET => n == 1,
        NUMBER16 => n == 2,
        NUMBERS16 => stepped(n, 2, 2),
        UNSIGNED32 => n == 4,
        SIGNED32 => n == 4,
        TEXT => stepped(n, 1, 1),
        OPAQUE => {
            if row == ROW_61 {
                return stepped(n, 2, 1);
            }
            stepped(n, 1, 1)
        }
        RELAY => stepped(n, 2, 1),
        ROUTES => stepped(n, 5, 1),
        _ => true,
    }
}

// Whether n is at least `least`, and a multiple of `unit`.
fn stepped(n: usize, least: usize, unit: usize) -> bool
    requires { 0 < unit }
    ensures { result ≡ is_length (multiples least unit) n }
{
    least <= n && n % unit == 0
}

// The rule of value of a row; many rows have none.
fn value_fault(row: u8, d: &[u8]) -> Option<Fault>
    ensures { fault_or_none result ≡ value_fault_in (row_at row) d.now }
{
    if is_list(row) {
        if RELAY <= row % 16 {
            return long_list_fault(row, d);
        }
        return short_list_fault(row, d);
    }
    number_fault(row, d)
}

// Whether all bytes of data are looked at, by a row's rule of value or for the answer. By the other rows the first four are enough.
pub fn is_list(row: u8) -> bool
    ensures { result ≡ is_list_value (row_at row) }
{
    match row % 16 {
        PAIRS => row == ROW_33,
        NUMBERS16 => true,
        TEXT => true,
        RELAY => true,
        ROUTES => true,
        _ => false,
    }
}

// The rule of value of those rows.
pub fn list_fault(row: u8, d: &[u8]) -> Option<Fault>
    ensures { fault_or_none result ≡ list_fault_value (row_at row) d.now }
{
    if RELAY <= row % 16 {
        return long_list_fault(row, d);
    }
    short_list_fault(row, d)
}

// Of relay information and of routes alone, the kinds from 12 on.
pub fn long_list_fault(row: u8, d: &[u8]) -> Option<Fault>
    ensures { fault_or_none result ≡ long_list_fault_value row d.now }
{
    match row % 16 {
        RELAY => suboptions_fault(d),
        ROUTES => route_data::first_fault(d),
        _ => None,
    }
}

// Of the others: with the loops of those two in it the compiler would not put this into its callers.
pub fn short_list_fault(row: u8, d: &[u8]) -> Option<Fault>
    ensures { fault_or_none result ≡ short_list_fault_value row d.now }
{
    match row % 16 {
        PAIRS => {
            if row == ROW_33 {
                return or_nine(destinations_fit(d));
            }
            None
        }
        NUMBERS16 => or_nine(never_falling(d)),
        TEXT => or_nine(text_fits(d)),
        _ => None,
    }
}

// That of the other rows.
pub fn number_fault(row: u8, d: &[u8]) -> Option<Fault>
    ensures { fault_or_none result ≡ number_fault_value (row_at row) d.now }
{
    match row % 16 {
        FLAG => or_nine(from_to(num::byte(d, 0), 0, 1)),
        OCTET => or_nine(octet_fits(row, num::byte(d, 0))),
        NUMBER16 => or_nine(number16_fits(row, num::first16(d))),
        _ => None,
    }
}

// 46: 1, 2, 4 or 8; 52: 1 to 3; 53: 1 to 8; 23 and 37: 1 to 255.
fn octet_fits(row: u8, v: u8) -> bool
    requires { row % 16 ≡ 5 }
    ensures { result ≡ octet_fits_value (row_at row) v }
{
    match row {
        ROW_46 => one_of_four(v),
        ROW_52 => from_to(v, 1, 3),
        ROW_53 => from_to(v, 1, 8),
        _ => from_to(v, 1, 255),
    }
}

// 22 and 57: at least 576; 26: at least 68; 13: any.
fn number16_fits(row: u8, v: u16) -> bool
    requires { row % 16 ≡ 6 }
    ensures { result ≡ number16_fits_value (row_at row) v }
{
    match row {
        ROW_22 => 576 <= v,
        ROW_26 => 68 <= v,
        _ => true,
    }
}

fn or_nine(right: bool) -> Option<Fault>
    ensures { fault_or_none result ≡ or_nine_value right }
{
    if right { None } else { Some(Fault::Value) }
}

fn one_of_four(v: u8) -> bool
    ensures { result ≡ among v (1 ∷ 2 ∷ 4 ∷ 8 ∷ []) }
{
    matches!(v, 1 | 2 | 4 | 8)
}

fn from_to(v: u8, least: u8, most: u8) -> bool
    ensures { result ≡ from_to_value least most v }
{
    least <= v && v <= most
}

// 25: whether the 16-bit numbers of d are each at least 68 and never fall. A number is held to the one before it, the first to 68.
fn never_falling(d: &[u8]) -> bool
    ensures { result ≡ rising 68 (numbers_of d.now) }
{
    let mut least: u16 = 68;
    let mut rest = d;
    while let [a, b, more @ ..] = rest {
        let v = num::be16(*a, *b);
        if v < least {
            return false;
        }
        least = v;
        rest = more;
    }
    true
}

// 33: whether no destination, the first address of each pair, is 0.0.0.0.
fn destinations_fit(d: &[u8]) -> bool
    ensures { result ≡ no_zero_first (addresses_of d.now) }
{
    let mut rest = d;
    while let [a, b, c, e, more @ ..] = rest {
        if num::be32(*a, *b, *c, *e) == 0 {
            return false;
        }
        if more.len() < 4 {
            return true;
        }
        rest = &more[4..];
    }
    true
}

// The fault of sub-options that run past the data.
const PAST: Fault = Fault::Length;

// 82: whether its sub-options, each a code, a length and so many bytes, fill the data exactly: a fault of length where one runs past.
pub fn suboptions_fault(d: &[u8]) -> Option<Fault>
    ensures { fault_or_none result ≡ fill_fault (sub_options 0 0 d.now) }
{
    let mut rest = d;
    while let [_, size, more @ ..] = rest {
        let size = num::wide(*size);
        if more.len() < size {
            return Some(PAST);
        }
        rest = &more[size..];
    }
    if rest.is_empty() { None } else { Some(PAST) }
}

// The statements of specs/ hold.
pub fn proved()
    ensures { NumbersKeepTheKind × FaultsKeepTheNumber × KindsByCase }
{}
