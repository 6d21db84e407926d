// A held parameter as a list of its index and value.
ghost use Rattle.std.specs.Prelude.{◌+◌, ◌≤◌, length};
ghost use Rattle.list.specs.Kind.{list_code};
ghost use Rattle.list.specs.Tree.{none, list, int};
ghost use Rattle.list.specs.Bytes.{element_bytes};
ghost use Rattle.publish.specs.Published.{double, element_of, pair};
ghost use Rattle.publish.specs.Put.{Room, Put, NoNan};

use list::{Kind, LIST_CODE};
use numbers::put_two_u32;
use value::Value;

// The elements of a parameter's list: its index and its value.
const PAIR: u32 = 2;

// Index and value are both NetInts: the list has their code, and they carry none.
fn put_int_pair(buffer: &mut [u8], at: usize, index: u32, x: u32) -> usize
    requires { at + 16 ≤ length buffer.old }
    ensures { Put buffer.old at (element_bytes list_code (list (pair index (int x)) none)) buffer.new result }
{
    put_two_u32(buffer, at, LIST_CODE + Kind::INT, PAIR);
    put_two_u32(buffer, at + 8, index, x);
    at + 16
}

// The value is a NetFloat: index and value follow their codes.
fn put_double_pair(buffer: &mut [u8], at: usize, index: u32, bits: u64) -> usize
    requires { at + 28 ≤ length buffer.old }
    ensures { Put buffer.old at (element_bytes list_code (list (pair index (double bits)) none)) buffer.new result }
{
    put_two_u32(buffer, at, LIST_CODE, PAIR);
    put_two_u32(buffer, at + 8, Kind::INT, index);
    numbers::put_u32(buffer, at + 16, Kind::FLOAT);
    put_two_u32(
        buffer,
        at + 20,
        (bits % 0x1_0000_0000) as u32,
        (bits / 0x1_0000_0000) as u32,
    );
    at + 28
}

// The list of a parameter's index and value.
pub fn put_parameter(buffer: &mut [u8], at: usize, index: u32, v: Value) -> usize
    requires { NoNan v × Room buffer.old at (element_bytes list_code (list (pair index (element_of v)) none)) }
    ensures { Put buffer.old at (element_bytes list_code (list (pair index (element_of v)) none)) buffer.new result }
{
    match v {
        Value::Int(i) => put_int_pair(buffer, at, index, value::int_bits(i)),
        Value::Float(x) => put_double_pair(buffer, at, index, f64::to_bits(x as f64)),
        Value::Bool(flag) => put_int_pair(buffer, at, index, value::flag_bits(flag)),
        Value::Nan(bits) => put_double_pair(buffer, at, index, value::widen(bits)),
    }
}
