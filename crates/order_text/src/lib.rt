// A line of lower-case hexadecimal to bytes, and bytes to text. What a line says is the definition line_of of specs/Lines.antt,
// and the text of bytes is hex_text of specs/Text.antt; that each undoes the other is in proofs/Back.antt.
#![tactic(auto)]

ghost use Rattle.std.specs.Prelude.{◌≡◌, false, ◌+◌, ◌-◌, ◌*◌, ◌/◌, ◌%◌, ◌<◌, ◌≤◌, min, length, get_or};
ghost use Rattle.std.proofs.Math.Seq.{paste};
ghost use Rattle.wire.specs.Store.{laid};
ghost use Rattle.order_text.specs.Digits.{digit_of, char_of, byte_of, byte_in};
ghost use Rattle.order_text.specs.Lines.{has_bad, bytes_of, line_of, answer_of, left_in};
ghost use Rattle.order_text.specs.Text.{hex_text, text_in};

// The digit of a character, and 16 where it is none: has_bad and order_run's `fails` compare digit_of's number, which its table keeps.
#[tactic(auto, using(wire::proofs::Tests::tests), unfolding(crate::specs::Digits::digit_of))]
pub fn digit(c: u8) -> u8
    ensures { result ≡ digit_of c }
{
    match c {
        b'0'..=b'9' => c - b'0',
        b'a'..=b'f' => c - b'a' + 10,
        _ => 16,
    }
}

// The character of the digit d % 16.
#[tactic(auto, using(wire::proofs::Tests::tests), unfolding(crate::specs::Digits::char_of))]
pub fn glyph(d: u8) -> u8
    ensures { result ≡ char_of (d % 16) }
{
    let low = d % 16;
    if low < 10 {
        b'0' + low
    } else {
        b'a' - 10 + low
    }
}

// The byte that two characters say, if both are digits.
#[tactic(auto, using(wire::proofs::Tests::tests), unfolding(crate::specs::Digits::byte_of))]
pub fn byte_of(a: u8, b: u8) -> Option<u8>
    ensures { result ≡ byte_in a b }
{
    let high = digit(a);
    let low = digit(b);
    if 15 < high || 15 < low {
        return None;
    }
    Some(16 * high + low)
}

// Whether a character of the line is no digit.
fn has_bad(line: &[u8]) -> bool
    ensures { result ≡ has_bad line.now }
{
    line.iter().any(|&c| 15 < digit(c))
}

// The byte k of a line of digits.
fn byte_at(line: &[u8], k: usize) -> u8
    requires line_value { has_bad line.now ≡ false }
    requires bytes_in_bounds { 2 * k + 1 < length line.now }
    ensures { result ≡ byte_of (get_or line.now (2 * k) 0) (get_or line.now (2 * k + 1) 0) }
{
    byte_of(line[2 * k], line[2 * k + 1]).unwrap()
}

// The first `count` bytes of a line of digits, at the front of `frame`. By the bytes' places: a zip with chunks of the line was tried,
// and no proof knows what is written through it.
fn store(line: &[u8], frame: &mut [u8], count: usize)
    requires line_value { has_bad line.now ≡ false }
    requires count_in_bounds { 2 * count ≤ length line.now }
    requires count_in_bounds_2 { count ≤ length frame.old }
    ensures { frame.new ≡ paste frame.old 0 (bytes_of line.now) count }
{
    for (k, byte) in frame[..count].iter_mut().enumerate() {
        *byte = byte_at(line, k);
    }
}

// How many bytes a line says, and they at the front of `frame`. A first loop tests and a second stores, so that a bad line leaves
// `frame` as it was.
pub fn decode(line: &[u8], frame: &mut [u8]) -> Option<usize>
    ensures { (result ≡ answer_of (line_of (length frame.old) line.now)) × (frame.new ≡ left_in frame.old (line_of (length frame.old) line.now)) }
{
    if has_bad(line) {
        return None;
    }
    if line.len() % 2 == 1 {
        return None;
    }
    let count = line.len() / 2;
    if frame.len() < count {
        return None;
    }
    store(line, frame, count);
    Some(count)
}

// The text of as many bytes as have room, at the front of `out`. Answers its length. By places: of chunks_mut a proof knows the
// length alone.
pub fn encode(bytes: &[u8], out: &mut [u8]) -> usize
    ensures { (result ≡ length (text_in (length out.old) bytes.now)) × (out.new ≡ laid out.old 0 (text_in (length out.old) bytes.now)) }
{
    let count = bytes.len().min(out.len() / 2);
    for (i, b) in bytes[..count].iter().enumerate() {
        out[2 * i] = glyph(*b / 16);
        out[2 * i + 1] = glyph(*b);
    }
    2 * count
}

// The text of as many bytes as have room, from the place `at` on. Answers the place behind it.
pub fn encode_at(bytes: &[u8], out: &mut [u8], at: usize) -> usize
    ensures { (result ≡ at + length (text_in (length out.old - at) bytes.now)) × (out.new ≡ laid out.old at (text_in (length out.old - at) bytes.now)) }
{
    if out.len() < at {
        return at;
    }
    at + encode(bytes, &mut out[at..])
}
