// The catalogue: which device types there are, and the kind and direction of each of their parameters.
#![tactic(auto)]

ghost use Rattle.std.specs.Prelude.{ℕ, ◌+◌, ◌*◌, ◌≤◌, ◌≡◌, length, get_or, drop, Some};
ghost use Rattle.wire.specs.Every.{every};
ghost use Rattle.catalogue.specs.Format.{max_types, type_legal, parameters_before, parameter_byte, kind_of, parameter_legal, described, legal};
ghost use Rattle.catalogue.specs.Lookup.{device_of, parameter_in, parameter_of, BytesIn};

// The most device types, and the most parameters of one type.
const MAX_TYPES: usize = 32;

pub const MAX_PARAMETERS: usize = 32;

// The kind of a parameter. No legal catalogue has one of unknown kind.
#[derive(Clone, Copy, Debug, PartialEq, Eq)]
pub enum Kind {
    Int,
    Float,
    Bool,
    Unknown,
}

// A device type of the catalogue: how many parameters stand before its own, and how many it has.
#[derive(Clone, Copy)]
pub struct Device {
    pub first: usize,
    pub parameters: usize,
}

// A parameter of a device type. It may be readable, writable, both or neither, so the two flags are no plainer as an enum.
#[derive(Clone, Copy)]
pub struct Parameter {
    pub kind: Kind,
    pub readable: bool,
    pub writable: bool,
}

fn number_at(s: &[u8], at: usize) -> usize
    ensures { (result ≡ get_or s.now at 0) × (result ≤ 255) }
{
    wire::byte_at(s, at) as usize
}

// Device type i: its number of parameters, and that its number is above the last one's.
fn is_legal_type(s: &[u8], i: usize) -> bool
    requires { i ≤ max_types }
    ensures { result ≡ type_legal s.now i }
{
    let n = number_at(s, 2 + 2 * i);
    if MAX_PARAMETERS < n {
        return false;
    }
    if i == 0 {
        return true;
    }
    let last = wire::byte_at(s, 1 + 2 * (i - 1));
    let this = wire::byte_at(s, 1 + 2 * i);
    last < this
}

fn are_legal_types(s: &[u8], n: usize) -> bool
    requires { n ≤ max_types }
    ensures { result ≡ every n (type_legal s.now) }
{
    for i in 0..n {
        if !is_legal_type(s, i) {
            return false;
        }
    }
    true
}

// How many parameters the first n device types have.
fn parameters_before(s: &[u8], n: usize) -> usize
    requires { n ≤ max_types }
    ensures { (result ≡ parameters_before s.now n) × (result ≤ 255 * n) }
{
    let mut sum = 0;
    for i in 0..n {
        sum += number_at(s, 2 + 2 * i);
    }
    sum
}

// The kind that the low two bits of a parameter's byte say. No TryFrom: two bits always say one, so it cannot fail.
fn kind_of(bits: u8) -> Kind
    ensures { result ≡ kind_of bits }
{
    match bits {
        0 => Kind::Int,
        1 => Kind::Float,
        2 => Kind::Bool,
        _ => Kind::Unknown,
    }
}

fn is_legal_parameter(b: u8) -> bool
    ensures { result ≡ parameter_legal b }
{
    (b < 16) & (kind_of(b % 4) != Kind::Unknown)
}

// Whether each of the bytes describes a parameter. Every byte is looked at, so that the loop has one exit and can run on
// many bytes at once.
fn are_legal_parameters(bytes: &[u8]) -> bool
    ensures { result ≡ every (length bytes.now) (λ k. parameter_legal (get_or bytes.now k 0)) }
{
    let mut legal = true;
    for b in bytes {
        legal = legal & is_legal_parameter(*b);
    }
    legal
}

// Whether these bytes are a legal catalogue.
pub fn is_legal(s: &[u8]) -> bool
    ensures { result ≡ legal s.now }
{
    let n = number_at(s, 0);
    if MAX_TYPES < n {
        return false;
    }
    let types = are_legal_types(s, n);
    if !types {
        return false;
    }
    let m = parameters_before(s, n);
    if numbers::u16_at(s, 1 + 2 * n) as usize != m {
        return false;
    }
    let from = 3 + 2 * n;
    if s.len() != from + m {
        return false;
    }
    are_legal_parameters(&s[from..])
}

// The device type of this number.
pub fn find_device(s: &[u8], number: u8) -> Option<Device>
    ensures { result ≡ device_of s.now number }
{
    let n = number_at(s, 0);
    let mut first = 0;
    for i in 0..n {
        let count = number_at(s, 2 + 2 * i);
        if wire::byte_at(s, 1 + 2 * i) == number {
            return Some(Device {
                first,
                parameters: count,
            });
        }
        first += count;
    }
    None
}

// The parameter that a byte describes.
pub fn describe(b: u8) -> Parameter
    ensures { result ≡ described b }
{
    Parameter {
        kind: kind_of(b % 4),
        readable: b / 4 % 2 == 1,
        writable: b / 8 % 2 == 1,
    }
}

// The bytes from an offset on, none past the end.
fn behind(s: &[u8], at: usize) -> &[u8]
    ensures { result.now ≡ drop at s.now }
{
    s.get(at..).unwrap_or(&[])
}

// The bytes of the parameters behind the first `first` of all types, none past the end.
fn bytes_behind(s: &[u8], first: usize) -> &[u8]
    ensures { (p : ℕ) → get_or result.now p 0 ≡ parameter_byte s.now (first + p) }
{
    if s.len() <= first {
        return &[];
    }
    behind(s, 3 + 2 * number_at(s, 0) + first)
}

// The bytes of a device type's parameters, 0 where it has none, for a caller that asks for several of them.
pub fn parameter_bytes(s: &[u8], d: Option<Device>) -> [u8; MAX_PARAMETERS]
    ensures { BytesIn s.now d result }
{
    let mut bytes = [0u8; MAX_PARAMETERS];
    if let Some(d) = d {
        let rest = bytes_behind(s, d.first);
        let most = d.parameters.min(MAX_PARAMETERS);
        let count = most.min(rest.len());
        // By `copy_from_slice` over a length that varies, 3 instructions more for each taken slot of a table that is judged.
        for p in 0..count {
            bytes[p] = rest[p];
        }
    }
    bytes
}

// The byte of parameter `index` behind the first `first` of all types, 0 past the end.
fn parameter_byte(s: &[u8], first: usize, index: usize) -> u8
    ensures { result ≡ parameter_byte s.now (first + index) }
{
    let bytes = bytes_behind(s, first);
    wire::byte_at(bytes, index)
}

// Parameter `index` of a device type.
fn parameter_of(s: &[u8], d: Device, index: usize) -> Option<Parameter>
    ensures { result ≡ parameter_in s.now (Some d) index }
{
    if index < d.parameters {
        return Some(describe(parameter_byte(s, d.first, index)));
    }
    None
}

// Parameter `index` of the device type of this number.
pub fn find_parameter(s: &[u8], number: u8, index: usize) -> Option<Parameter>
    ensures { result ≡ parameter_of s.now number index }
{
    let d = find_device(s, number)?;
    parameter_of(s, d, index)
}
