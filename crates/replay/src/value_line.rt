// What is read of one parameter, as a line.
use crate::stand::{Lines, put_refused};
use errors::Error;
use hub::Value;

fn put_int(out: &mut Lines, number: i32) {
    let label: &[u8] = if number < 0 { b"int -" } else { b"int " };
    out.put_line(label, number.unsigned_abs() as u64);
}

fn put_float(out: &mut Lines, bits: u32) {
    out.put(b"float ");
    out.put_word(bits);
    out.put(b"\n");
}

fn put_value(out: &mut Lines, v: Value) {
    match v {
        Value::Int(number) => put_int(out, number),
        Value::Float(x) => put_float(out, value::float_bits(x)),
        Value::Bool(flag) => out.put_line(b"flag ", flag as u64),
        Value::Nan(bits) => put_float(out, bits),
    }
}

pub fn put_reading(out: &mut Lines, reading: Result<Option<Value>, Error>) {
    match reading {
        Ok(Some(v)) => put_value(out, v),
        Ok(None) => out.put(b"absent\n"),
        Err(error) => put_refused(out, b"refused ", error),
    }
}
