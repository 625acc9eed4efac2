// Bytes as text: two hexadecimal digits a byte, in lower case.
ghost use Rattle.std.specs.Prelude.{◌≡◌, ◌<◌};
ghost use Rattle.io.specs.Counts.{IsPrefixLen};
ghost use Rattle.io.specs.Digits.{hex_digit_ascii};
ghost use Rattle.wire.specs.Lists.{table, over};
ghost use Rattle.cases.specs.Hex.{hex_at, hex_room};

use wire::byte_at;

// The digit of a number below 16.
fn hex_digit(n: u8) -> u8
    requires { n < 16 }
    ensures { result ≡ hex_digit_ascii n }
{
    if n < 10 { b'0' + n } else { b'a' - 10 + n }
}

// The digit at a place of the text: a byte's upper half stands first.
#[tactic(auto, unfolding(crate::specs::Hex::hex_at))]
fn hex_at(bytes: &[u8], i: usize) -> u8
    ensures { result ≡ hex_at bytes.now i }
{
    let byte = byte_at(bytes, i / 2);
    hex_digit(if i % 2 == 0 { byte / 16 } else { byte % 16 })
}

// Writes the text of the bytes over the front of an array, as much of it as there is room for, and answers how much.
#[tactic(auto, using(wire::proofs::Lists::table_write), unfolding(wire::specs::Lists::joined))]
pub(crate) fn put_hex(bytes: &[u8], text: &mut [u8]) -> usize
    ensures prefix_len { IsPrefixLen result text.new }
    ensures value { result ≡ hex_room bytes.now text.old }
    ensures text_after { text.new ≡ over (table (hex_room bytes.now text.old) (hex_at bytes.now)) text.old }
{
    let room = text.len().min(2 * bytes.len());
    for (i, digit) in text[..room].iter_mut().enumerate() {
        *digit = hex_at(bytes, i);
    }
    room
}
