// The bytes of a word: each holds a code in two's complement, the first code in the low byte.
ghost use Rattle.std.specs.Prelude.{◌≡◌, ◌<◌, pos, slice_index_or};
ghost use Rattle.std.specs.List.{AllByRecursion};
ghost use Rattle.split.specs.Bytes.{InByte, byte_code, code_byte, byte_at, code_at};
ghost use Rattle.split.specs.Words.{word_of, is_packed_word};

use codes::ends::Ends;

// The word of a group: the first code in the low byte, the second in the high byte.
pub(crate) fn word_of(codes: &[i16]) -> u16
    requires { AllByRecursion InByte codes.now }
    ensures { result ≡ word_of codes.now }
{
    u16::from_le_bytes([packed_byte(codes, 0), packed_byte(codes, 1)])
}

// The byte of the code at a place of a group. Past its end stands code 0.
fn packed_byte(codes: &[i16], place: usize) -> u8
    requires { AllByRecursion InByte codes.now }
    ensures { result ≡ code_byte (slice_index_or codes.now place (pos 0)) }
{
    byte_of(code_or_fill(codes, place))
}

// The code at a place of a group, or code 0 past its end.
fn code_or_fill(codes: &[i16], place: usize) -> i16
    ensures { result ≡ slice_index_or codes.now place (pos 0) }
{
    codes.get(place).copied().unwrap_or(0)
}

// Whether a word is a packing: both codes lie within their ends.
pub(crate) fn is_word(ends: Ends, word: u16) -> bool
    ensures { result ≡ is_packed_word ends word }
{
    ends.hold(code_at(word, 0)) && ends.hold(code_at(word, 1))
}

// The code at a place of a word. A place is a plain number, as the kernel's callers give it.
pub(crate) fn code_at(word: u16, place: usize) -> i16
    requires { place < 2 }
    ensures { result ≡ code_at place word }
{
    code_of(byte_at(word, place))
}

// The byte at a place of a word.
fn byte_at(word: u16, place: usize) -> u8
    requires { place < 2 }
    ensures { result ≡ byte_at place word }
{
    word.to_le_bytes()[place]
}

// The code of a byte.
fn code_of(byte: u8) -> i16
    ensures { result ≡ byte_code byte }
{
    byte.cast_signed() as i16
}

// The byte of a code.
fn byte_of(code: i16) -> u8
    requires { InByte code }
    ensures { result ≡ code_byte code }
{
    (code as i8).cast_unsigned()
}
