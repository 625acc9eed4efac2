// The fields of a record's body, which starts after length and kind, and their ranges.
ghost use Rattle.std.specs.Prelude.{◌≡◌};
ghost use Rattle.records.specs.Fields.{is_letter, are_letters, head_fields, head_ok, constants_fields, firm_fields, firm_ok, has_code};
ghost use Rattle.records.specs.Fields.{group_fields, group_in_range};

use calendar::{days_in, is_month};
use rules::{Rules, is_benchmark};
use wire::{byte_at, bytes_at, u16_at, u32_at};

// A head's fields: the month's number, and the days that are not in effect.
#[derive(Clone, Copy, Debug, PartialEq, Eq)]
pub struct Head {
    pub month: u16,
    pub closed: u32,
}

// A group's fields: the two letters of its code, its exchange grouping, k (how many contracts of the front mask are counted), its
// benchmark, and the two masks.
#[derive(Clone, Copy, Debug, PartialEq, Eq)]
pub struct Group {
    pub code: [u8; 2],
    pub grouping: u8,
    pub k: u8,
    pub benchmark: u32,
    pub front: u16,
    pub extra: u16,
}

// A firm's fields: the three letters of its code.
#[derive(Clone, Copy, Debug, PartialEq, Eq)]
pub struct Firm {
    pub code: [u8; 3],
}

// A head's fields as they stand in its body.
#[tactic(auto, unfolding(crate::specs::Fields::head_fields))]
pub fn head_fields(body: &[u8]) -> Head
    ensures { result ≡ head_fields body.now }
{
    Head {
        month: u16_at(body, 0),
        closed: u32_at(body, 2),
    }
}

// A head's fields are in their ranges.
#[tactic(auto, using(calendar::proofs::Laws::days_most), unfolding(crate::specs::Fields::head_ok, wire::specs::Choose::all))]
pub fn head_ok(head: Head) -> bool
    ensures { result ≡ head_ok head }
{
    let days = days_in(head.month);
    is_month(head.month) & (head.closed >> days == 0)
}

// The Program's constants as they stand in their record's body.
#[tactic(auto, unfolding(crate::specs::Fields::constants_fields))]
pub fn constants_fields(body: &[u8]) -> Rules
    ensures { result ≡ constants_fields body.now }
{
    Rules {
        edge1: u32_at(body, 0),
        edge2: u32_at(body, 4),
        edge3: u32_at(body, 8),
        factor1: u16_at(body, 12),
        factor2: u16_at(body, 14),
        factor3: u16_at(body, 16),
        severe: u16_at(body, 18),
        waivers: u16_at(body, 20),
        dollars: u16_at(body, 22),
    }
}

// A letter of a code: A to Z, or 0 to 9.
#[tactic(auto, unfolding(crate::specs::Fields::is_letter))]
fn is_letter(x: u8) -> bool
    ensures { result ≡ is_letter x }
{
    x.is_ascii_uppercase() | x.is_ascii_digit()
}

// Every byte of a code is a letter of one.
fn are_letters(code: &[u8]) -> bool
    ensures { result ≡ are_letters code.now }
{
    code.iter().all(|&x| is_letter(x))
}

// A group's fields as they stand in its body.
#[tactic(auto, unfolding(crate::specs::Fields::group_fields, wire::specs::Lists::joined))]
pub fn group_fields(body: &[u8]) -> Group
    ensures { result ≡ group_fields body.now }
{
    Group {
        code: bytes_at(body, 0),
        grouping: byte_at(body, 2),
        k: byte_at(body, 3),
        benchmark: u32_at(body, 4),
        front: u16_at(body, 8),
        extra: u16_at(body, 10),
    }
}

// A group's fields are in their ranges.
pub fn group_in_range(g: Group) -> bool
    ensures { result ≡ group_in_range g }
{
    are_letters(&g.code)
        & (1..=2).contains(&g.grouping)
        & (1..=64).contains(&g.k)
        & is_benchmark(u64::from(g.benchmark))
        & (1..=4095).contains(&g.front)
        & (0..=4095).contains(&g.extra)
}

// A firm's fields as they stand in its body.
#[tactic(auto, unfolding(crate::specs::Fields::firm_fields, wire::specs::Lists::joined))]
pub fn firm_fields(body: &[u8]) -> Firm
    ensures { result ≡ firm_fields body.now }
{
    let code = bytes_at(body, 0);
    Firm { code }
}

// The three places of a firm's code have letters.
#[tactic(auto, unfolding(crate::specs::Fields::firm_ok))]
pub fn firm_ok(firm: Firm) -> bool
    ensures { result ≡ firm_ok firm }
{
    are_letters(&firm.code)
}

// Whether a firm's code is this one, a slice of any length.
#[tactic(auto, unfolding(crate::specs::Fields::has_code))]
pub fn has_code(firm: Firm, code: &[u8]) -> bool
    ensures { result ≡ has_code firm code.now }
{
    &firm.code[..] == code
}
