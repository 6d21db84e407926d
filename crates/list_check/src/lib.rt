// Judges the list at the front of a slice: where it ends, or the first fault from the front.
#![tactic(auto)]

ghost use Rattle.std.specs.Prelude.{◌≡◌, true, ◌+◌, ◌≤◌, ◌<◌, ◌^◌, ltb, length};
ghost use Rattle.errors.specs.Number.{number_of};
ghost use Rattle.list.specs.Limits.{list_limit, depth_limit};
ghost use Rattle.list.specs.Kind.{size_of};
ghost use Rattle.list.specs.Refusal.{refusal, refusal_of};
ghost use Rattle.list.specs.Strings.{closed};
ghost use Rattle.list.specs.Parse.{in_list, word, value_at, typed_at, is_list_code, coded_at, list_at, parse};
ghost use Rattle.list.proofs.TypedRun.{Fixed};
ghost use Rattle.list_check.specs.Check.{refused, judged, verdict_of, checking_of, whole, fault_of, found_of};
ghost use Rattle.list_check.specs.Steps.{told_by, depth_of, number_in, IsFault, enclosing, missing_at, first_zero, close_of, Refuses, TypedAnswer};

use errors::Error;
use list::{
    BLOBS, DEPTH_LIMIT, INTS, Kind, LIST_CODE, LIST_LIMIT, NEGATIVE, NUMBER, Refusal, TERMINATOR,
    common_code,
};
use numbers::u32_at;

// Inside, an answer is one number, which stays in a register: an offset up to the limit, or from FAULT on a refusal. A Result goes
// through memory: 340 nested lists take 35,437 instructions so, and 28,959 with the number. `refuse` makes one that counts no list,
// `in_list` adds each list around it and `refusal_of` takes it apart; between them it is handed on whole. So the depth costs nothing
// where a list is accepted.
type Judged = usize;

const FAULT: usize = 2 * LIST_LIMIT;

// One list in it: behind the error, which is a byte.
const LEVEL: usize = 256 * FAULT;

fn refuse(error: Error, offset: usize) -> Judged
    requires { (0 < number_of error) × (offset ≤ list_limit) }
    ensures { told_by result ≡ refused (refusal (number_of error) offset) }
{
    FAULT * (error.number() as usize) + offset
}

fn is_refused(j: Judged) -> bool
    ensures { result ≡ ltb list_limit j }
{
    LIST_LIMIT < j
}

// A refusal of what stands in a list, seen from outside it. It counts fewer lists than may be open.
fn in_list(j: Judged) -> Judged
    requires { (list_limit < j) × (depth_of j < depth_limit) }
    ensures { told_by result ≡ enclosing (told_by j) }
{
    LEVEL + j
}

// The error of a number that `refuse` took: those of 01 that judging finds. With TooLong for every other number, a lookup of a setting
// that is refused at its first code takes 74 instructions, and 63 so.
fn error_of(number: u8) -> Error
    requires { IsFault number }
    ensures { number_of result ≡ number }
{
    match number {
        21 => Error::CutShort,
        22 => Error::NoListCode,
        23 => Error::NegativeCount,
        24 => Error::WrongForm,
        25 => Error::WrongString,
        26 => Error::UnknownCode,
        27 => Error::TooDeep,
        28 => Error::TooLong,
        _ => unreachable!(),
    }
}

#[tactic(auto, unfolding(crate::specs::Steps::told_by))]
fn refusal_of(j: Judged) -> Refusal
    requires { (list_limit < j) × (depth_of j ≤ depth_limit) × IsFault (number_in j) }
    ensures { refused (refusal_of result) ≡ told_by j }
{
    Refusal {
        error: error_of((j / FAULT % 256) as u8),
        offset: j % FAULT,
        depth: (j / LEVEL) as u8,
    }
}

#[tactic(auto, unfolding(crate::specs::Steps::told_by))]
fn answer(j: Judged) -> Result<usize, Refusal>
    requires { (depth_of j ≤ depth_limit) × (list_limit < j → IsFault (number_in j)) }
    ensures { verdict_of result ≡ told_by j }
{
    if is_refused(j) {
        return Err(refusal_of(j));
    }
    Ok(j)
}

// An item of n bytes that is not all there: 28 where it would end beyond the limit, else 21.
fn missing(at: usize, n: usize) -> Judged
    requires { (at ≤ list_limit) × (n < 2 ^ 32) }
    ensures { told_by result ≡ refused (missing_at at n) }
{
    if LIST_LIMIT < at + n {
        return refuse(Error::TooLong, at);
    }
    refuse(Error::CutShort, at)
}

// Is the last byte of a string's bytes the only zero.
fn is_closed(run: &[u8]) -> bool
    requires { 0 < length run.now }
    ensures { result ≡ closed run.now }
{
    let last = run.len() - TERMINATOR as usize;
    if run[last] == 0 {
        return first_zero(run) == last;
    }
    false
}

// The offset of the first zero among bytes that have one. The loop tests no bound, so that the compiler makes a call of
// strlen of it.
fn first_zero(s: &[u8]) -> usize
    requires { first_zero s.now < length s.now }
    ensures { result ≡ first_zero s.now }
{
    let mut i: usize = 0;
    while s[i] != 0 {
        i += 1;
    }
    i
}

// A string whose length is there. Here and below the bytes are cut at the limit, by a clause: as a ghost field of a struct around the
// slice it is no plainer, since all but `check_front` and `check_any` keep a clause on `at`, which differs at each call.
fn string_end(s: &[u8], at: usize) -> Judged
    requires { (at + 4 ≤ length s.now) × (length s.now ≤ list_limit) }
    ensures { told_by result ≡ judged (value_at list_limit s.now at Kind.Str) }
{
    let length = u32_at(s, at);
    if length < TERMINATOR {
        return refuse(Error::WrongString, at);
    }
    if NEGATIVE <= length {
        return refuse(Error::WrongString, at);
    }
    let n = length as usize;
    let first = at + NUMBER;
    if s.len() < first + n {
        return missing(first, n);
    }
    if is_closed(&s[first..first + n]) {
        return first + n;
    }
    refuse(Error::WrongString, first)
}

// A blob whose length is there.
fn blob_end(s: &[u8], at: usize) -> Judged
    requires { (at + 4 ≤ length s.now) × (length s.now ≤ list_limit) }
    ensures { told_by result ≡ judged (value_at list_limit s.now at Kind.Blob) }
{
    let length = u32_at(s, at);
    if NEGATIVE <= length {
        return refuse(Error::WrongString, at);
    }
    let n = length as usize;
    let first = at + NUMBER;
    if s.len() < first + n {
        return missing(first, n);
    }
    first + n
}

// An element without its code: a number, or a length and then the bytes that it counts.
fn value_end(s: &[u8], at: usize, kind: Kind) -> Judged
    requires { (at ≤ list_limit) × (length s.now ≤ list_limit) }
    ensures { told_by result ≡ judged (value_at list_limit s.now at kind) }
{
    let size = kind.size();
    if s.len() < at + size {
        return missing(at, size);
    }
    match kind {
        Kind::Str => string_end(s, at),
        Kind::Blob => blob_end(s, at),
        Kind::Int | Kind::Vocab | Kind::Float => at + size,
    }
}

// The elements of a typed list one by one. The compiler makes a loop for each kind that it is called with.
fn check_each(s: &[u8], at: usize, kind: Kind, n: usize) -> Judged
    requires { (at ≤ list_limit) × (length s.now ≤ list_limit) }
    ensures { told_by result ≡ judged (in_list (typed_at list_limit s.now kind n at)) }
{
    let mut pos = at;
    for done in 0..n {
        let next = value_end(s, pos, kind);
        if is_refused(next) {
            return in_list(next);
        }
        pos = next;
    }
    pos
}

// The elements of a typed list that have a fixed size: one test where all of them are there, else the first that is not.
fn check_all(s: &[u8], at: usize, kind: Kind, n: usize) -> Judged
    requires { Fixed kind × (at ≤ length s.now) × (length s.now ≤ list_limit) × (n < 2 ^ 32) }
    ensures { told_by result ≡ judged (in_list (typed_at list_limit s.now kind n at)) }
{
    let size = kind.size();
    if s.len() < at + size * n {
        return in_list(missing(at + (s.len() - at) / size * size, size));
    }
    at + size * n
}

// A typed list behind its count: 24 where it has no element. By its code, since by the kind it is no plainer: that takes an arm for
// other codes too, which do not come.
fn typed_list(s: &[u8], at: usize, code: u32, n: usize) -> Judged
    requires { (at + 8 ≤ length s.now) × (length s.now ≤ list_limit) × (n < 2 ^ 32) }
    ensures { TypedAnswer s.now at code n result }
{
    if n == 0 {
        return in_list(refuse(Error::WrongForm, at));
    }
    let first = at + 2 * NUMBER;
    match code {
        Kind::INT => check_all(s, first, Kind::Int, n),
        Kind::VOCAB => check_all(s, first, Kind::Vocab, n),
        Kind::FLOAT => check_all(s, first, Kind::Float, n),
        Kind::STR => check_each(s, first, Kind::Str, n),
        Kind::BLOB => check_each(s, first, Kind::Blob, n),
        _ => in_list(refuse(Error::WrongForm, at)),
    }
}

// 256, or 256 and the code of a kind.
#[tactic(auto, unfolding(list::specs::Parse::is_list_code))]
fn is_list_code(code: u32) -> bool
    ensures { result ≡ is_list_code code }
{
    if code == LIST_CODE {
        return true;
    }
    if code < LIST_CODE {
        return false;
    }
    Kind::of_code(code - LIST_CODE).is_some()
}

// A value behind its code of which less than its first bytes is there.
fn missing_value(at: usize, kind: Kind) -> Judged
    requires { at + 4 ≤ list_limit }
    ensures { told_by result ≡ refused (missing_at (at + 4) (size_of kind)) }
{
    missing(at + NUMBER, kind.size())
}

// The fault of an element of which less than its code and a number is there; `depth` lists may stand in one another in it.
fn tail_fault(s: &[u8], pos: usize, depth: usize) -> Judged
    requires { (pos ≤ list_limit) × (length s.now < pos + 8) × (length s.now ≤ list_limit) }
    ensures { Refuses result (coded_at (list_at depth list_limit s.now) list_limit s.now pos) }
{
    if s.len() < pos + NUMBER {
        return missing(pos, NUMBER);
    }
    let code = u32_at(s, pos);
    if is_list_code(code) {
        if depth == 0 {
            return refuse(Error::TooDeep, pos);
        }
        return in_list(missing(pos + NUMBER, NUMBER));
    }
    match Kind::of_code(code) {
        Some(kind) => missing_value(pos, kind),
        None => refuse(Error::UnknownCode, pos),
    }
}

// The end of a fixed element that stands behind its code.
fn behind(at: usize, kind: Kind) -> usize
    requires { at ≤ list_limit }
    ensures { result ≡ at + 4 + size_of kind }
{
    at + NUMBER + kind.size()
}

// Behind the last element of a list whose elements carry codes: 24 where one code would do for all.
fn close(at: usize, seen: u32, end: usize) -> Judged
    requires { (at ≤ list_limit) × (end ≤ list_limit) }
    ensures { told_by result ≡ close_of at seen end }
{
    if seen == 0 {
        return end;
    }
    if seen == LIST_CODE {
        return end;
    }
    in_list(refuse(Error::WrongForm, at))
}

// A list whose code and count stand at `at`, where `depth` lists may stand in one another, this one included. It calls itself for a
// list in it, as docs/DECISIONS.md says ("Forms that 01 names").
fn check_list(s: &[u8], at: usize, code: u32, count: u32, depth: usize) -> Judged
    requires { (at + 8 ≤ length s.now) × (length s.now ≤ list_limit) × (is_list_code code ≡ true) × (count ≡ word s.now (at + 4)) × (depth ≤ depth_limit) }
    ensures { told_by result ≡ judged (list_at depth list_limit s.now at code) }
{
    if depth == 0 {
        return refuse(Error::TooDeep, at);
    }
    if NEGATIVE <= count {
        return in_list(refuse(Error::NegativeCount, at + NUMBER));
    }
    if code != LIST_CODE {
        return typed_list(s, at, code - LIST_CODE, count as usize);
    }
    let mut pos = at + 2 * NUMBER;
    let mut seen: u32 = 0;
    for done in 0..count {
        if s.len() < pos + 2 * NUMBER {
            return in_list(tail_fault(s, pos, depth - 1));
        }
        let kind = u32_at(s, pos);
        match kind {
            Kind::INT => {
                pos = behind(pos, Kind::Int);
                seen = common_code(seen, Kind::INT);
            }
            Kind::VOCAB => {
                pos = behind(pos, Kind::Vocab);
                seen = common_code(seen, Kind::VOCAB);
            }
            Kind::FLOAT => {
                let next = behind(pos, Kind::Float);
                if s.len() < next {
                    return in_list(missing_value(pos, Kind::Float));
                }
                pos = next;
                seen = common_code(seen, Kind::FLOAT);
            }
            Kind::STR => {
                let next = string_end(s, pos + NUMBER);
                if is_refused(next) {
                    return in_list(next);
                }
                pos = next;
                seen = common_code(seen, Kind::STR);
            }
            Kind::BLOB => {
                let next = blob_end(s, pos + NUMBER);
                if is_refused(next) {
                    return in_list(next);
                }
                pos = next;
                seen = common_code(seen, Kind::BLOB);
            }
            _ => {
                if !is_list_code(kind) {
                    return in_list(refuse(Error::UnknownCode, pos));
                }
                // A copy of the reference, so that the loop keeps its own in registers.
                let bytes = s;
                let next = check_list(bytes, pos, kind, u32_at(bytes, pos + NUMBER), depth - 1);
                if is_refused(next) {
                    return in_list(next);
                }
                pos = next;
                seen = LIST_CODE;
            }
        }
    }
    close(at, seen, pos)
}

// The fault of a list of which less than its code and its count is there.
fn front_fault(s: &[u8]) -> Judged
    requires { length s.now < 8 }
    ensures { told_by result ≡ judged (parse list_limit s.now) }
{
    if s.len() < NUMBER {
        return missing(0, NUMBER);
    }
    if is_list_code(u32_at(s, 0)) {
        return in_list(missing(NUMBER, NUMBER));
    }
    refuse(Error::NoListCode, 0)
}

// The list at the front of bytes that are cut at the limit. The empty list, which a hub with no devices publishes, ints and
// blobs are judged without a call of the recursive checker.
fn check_front(s: &[u8]) -> Judged
    requires { length s.now ≤ list_limit }
    ensures { told_by result ≡ judged (parse list_limit s.now) }
{
    if s.len() < 2 * NUMBER {
        return front_fault(s);
    }
    let code = u32_at(s, 0);
    let count = u32_at(s, NUMBER);
    match code {
        BLOBS => {
            if 0 < count {
                if count < NEGATIVE {
                    return check_each(s, 2 * NUMBER, Kind::Blob, count as usize);
                }
            }
        }
        INTS => {
            if 0 < count {
                let end = 2 * NUMBER + NUMBER * (count as usize);
                if end <= s.len() {
                    return end;
                }
            }
        }
        LIST_CODE => {
            if count == 0 {
                return 2 * NUMBER;
            }
        }
        _ => {
            if !is_list_code(code) {
                return refuse(Error::NoListCode, 0);
            }
        }
    }
    check_list(s, 0, code, count, DEPTH_LIMIT)
}

// The list at the front.
pub fn check(s: &[u8]) -> Result<usize, Refusal>
    ensures { verdict_of result ≡ checking_of s.now }
{
    answer(check_front(&s[..s.len().min(LIST_LIMIT)]))
}

// The list at the front. Of the codes that have a way of their own in `check_front` only that of the empty list has one here.
fn check_any(s: &[u8]) -> Judged
    requires { length s.now ≤ list_limit }
    ensures { told_by result ≡ judged (parse list_limit s.now) }
{
    if s.len() < 2 * NUMBER {
        return front_fault(s);
    }
    let code = u32_at(s, 0);
    let count = u32_at(s, NUMBER);
    let empty = (code == LIST_CODE) & (count == 0);
    if empty {
        return 2 * NUMBER;
    }
    if is_list_code(code) {
        return check_list(s, 0, code, count, DEPTH_LIMIT);
    }
    refuse(Error::NoListCode, 0)
}

// Whether an area is one list and no more.
pub fn fault(s: &[u8]) -> Result<(), Refusal>
    ensures { found_of result ≡ fault_of (whole s.now) }
{
    let end = answer(check_any(&s[..s.len().min(LIST_LIMIT)]))?;
    if end < s.len() {
        return Err(Refusal {
            error: Error::BytesLeft,
            offset: end,
            depth: 0,
        });
    }
    Ok(())
}
