// A held value: what its 32 bits mean by the parameter's kind, a short whole number in 32 bits, and a single float as a double.
#![tactic(auto)]

ghost use Rattle.std.specs.Prelude.{◌≡◌};
ghost use Rattle.catalogue.specs.Format.{kind_float, kind_number};
ghost use Rattle.value.specs.Meaning.{int_of, int_bits, extended, float_bits, flag_bits, meaning_of, meant, widened};

use catalogue::Kind;

// The lowest pattern without the sign that is an infinity or a NaN.
const INFINITY: u32 = 0x7f80_0000;

// A whole number, a single float or a flag. A NaN's bits are a case of their own: a float of the language does not keep them.
#[derive(Drop)]
pub enum Value {
    Int(i32),
    Float(f32),
    Bool(bool),
    Nan(u32),
}

// The signed number of 32 bits.
pub fn int_of(bits: u32) -> i32
    ensures { result ≡ int_of bits }
{
    bits.cast_signed()
}

// The 32 bits of a signed number.
pub fn int_bits(number: i32) -> u32
    ensures { result ≡ int_bits number }
{
    number.cast_unsigned()
}

// The 32 bits of the signed number of 16 bits: its sign goes on into the upper half.
pub fn extend(bits: u16) -> u32
    ensures { result ≡ extended bits }
{
    i32::from(bits.cast_signed()).cast_unsigned()
}

// The 32 bits of a float. A NaN does not keep them, and comes as its bits instead.
pub fn float_bits(number: f32) -> u32
    ensures { result ≡ float_bits number }
{
    if number.is_nan() {
        return 0;
    }
    number.to_bits()
}

pub fn flag_bits(set: bool) -> u32
    ensures { result ≡ flag_bits set }
{
    u32::from(set)
}

// The value of a single float's bits.
fn float_of(bits: u32) -> Value
    ensures { meaning_of result ≡ meant kind_float bits }
{
    if bits % 0x8000_0000 <= INFINITY {
        return Value::Float(f32::from_bits(bits));
    }
    Value::Nan(bits)
}

// The value that 32 bits hold for a parameter of this kind.
pub fn of_kind(kind: Kind, bits: u32) -> Value
    ensures { meaning_of result ≡ meant (kind_number kind) bits }
{
    match kind {
        Kind::Int => Value::Int(int_of(bits)),
        Kind::Float => float_of(bits),
        Kind::Bool | Kind::Unknown => Value::Bool(bits == 1),
    }
}

// The numbers of the kinds INT and FLOAT.
const INT: u8 = 0;

const FLOAT: u8 = 1;

// The same by the number of a kind, which any byte may be: one that is neither INT's nor FLOAT's is taken as BOOL's.
pub fn value_of(kind: u8, bits: u32) -> Value
    ensures { meaning_of result ≡ meant kind bits }
{
    match kind {
        INT => of_kind(Kind::Int, bits),
        FLOAT => of_kind(Kind::Float, bits),
        _ => of_kind(Kind::Bool, bits),
    }
}

// The bits of the double that a single's bits become. Infinities and NaNs are made by hand, since a cast keeps no NaN's bits.
pub fn widen(bits: u32) -> u64
    ensures { result ≡ widened bits }
{
    let sign = bits / 0x8000_0000;
    let low = bits % 0x8000_0000;
    if low < INFINITY {
        return f64::to_bits(f32::from_bits(bits) as f64);
    }
    (sign as u64) * 0x8000_0000_0000_0000
        + 0x7ff0_0000_0000_0000
        + ((low % 0x80_0000) as u64) * 0x2000_0000
}
