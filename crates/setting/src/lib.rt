// Looking up a key in a guest's settings list and the house's.
#![tactic(auto)]

mod entry;
mod same;

ghost use Rattle.std.specs.Prelude.{◌≡◌, [], MatchResult, Ok, Err, length};
ghost use Rattle.errors.specs.Number as error;
ghost use Rattle.list.specs.Refusal.{refusal_of};
ghost use Rattle.list_check.specs.Check.{IsWhole};
ghost use Rattle.setting.specs.Lookup.{choice, lookup, refused_in, number_of, list_number, numbers_of, numbers_in, answer, answer_of};
ghost use Rattle.setting.specs.Steps.{search_area, span_of, Within, part_of, LookedUp};

use entry::{Span, candidates, first_entry};
use errors::Error;
use list::Refusal;

// Whose settings list it is.
#[derive(Clone, Copy, Debug, PartialEq, Eq)]
pub enum Owner {
    Guest,
    House,
}

impl Owner {
    // The list's number in an answer to C.
    pub fn number(self) -> u8
        ensures { result ≡ number_of self }
    {
        match self {
            Owner::Guest => 1,
            Owner::House => 2,
        }
    }
}

// Where the value of a key stands: the list, and there the offset and the length of the value.
#[derive(Clone, Copy)]
pub struct Located {
    pub list: Owner,
    pub offset: usize,
    pub length: usize,
}

// Why there is no value: the error, the list that is refused, if one is, and there the offset of the fault and how many lists
// are open at it.
#[derive(Clone, Copy)]
pub struct Refused {
    pub error: Error,
    pub list: Option<Owner>,
    pub offset: usize,
    pub depth: u8,
}

// The value of a key: the list, and there the offset and the bytes of the value.
#[derive(Clone, Copy)]
pub struct Setting<'g> {
    pub list: Owner,
    pub offset: usize,
    pub part: &'g [u8],
}

impl Refused {
    fn of_list(list: Owner, r: Refusal) -> Refused
        ensures { numbers_in (Err result) ≡ refused_in (number_of list) (refusal_of r) }
    {
        Refused {
            error: r.error,
            list: Some(list),
            offset: r.offset,
            depth: r.depth,
        }
    }
}

// The value of the key in a list that was judged. Compiled into `choose`, so that a list without candidates costs no call.
#[inline(always)]
fn entry_in(s: &[u8], key: &[u8]) -> Option<Span>
    requires { IsWhole s.now }
    ensures { span_of result ≡ search_area key.now s.now }
{
    let n = candidates(s);
    if n == 0 {
        return None;
    }
    first_entry(s, key, n)
}

// Two lists that were judged: the guest's entry with the key, else the house's.
fn choose(guest: &[u8], house: &[u8], key: &[u8]) -> Result<Located, Refused>
    requires { IsWhole guest.now × IsWhole house.now }
    ensures { numbers_in result ≡ numbers_of (choice (search_area key.now guest.now) (search_area key.now house.now)) }
{
    if let Some(at) = entry_in(guest, key) {
        return Ok(Located {
            list: Owner::Guest,
            offset: at.offset,
            length: at.length,
        });
    }
    if let Some(at) = entry_in(house, key) {
        return Ok(Located {
            list: Owner::House,
            offset: at.offset,
            length: at.length,
        });
    }
    Err(Refused {
        error: Error::NoEntry,
        list: None,
        offset: 0,
        depth: 0,
    })
}

// Both lists are judged first, whichever has the key.
fn look_up(guest: &[u8], house: &[u8], key: &[u8]) -> Result<Located, Refused>
    ensures { LookedUp guest.now house.now key.now (numbers_in result) }
{
    if let Err(r) = list_check::fault(guest) {
        return Err(Refused::of_list(Owner::Guest, r));
    }
    if let Err(r) = list_check::fault(house) {
        return Err(Refused::of_list(Owner::House, r));
    }
    choose(guest, house, key)
}

// Where the value of a key stands: in the guest's list, else in the house's.
pub fn locate(guest: &[u8], house: &[u8], key: &[u8]) -> Result<Located, Refused>
    ensures { numbers_in result ≡ numbers_of (lookup guest.now house.now key.now) }
{
    look_up(guest, house, key)
}

// That part of the list that an answer names. Both lists have one lifetime here.
fn part<'g>(guest: &'g [u8], house: &'g [u8], at: Located) -> &'g [u8]
    requires { Within (numbers_in (Ok at)) (length guest.now) (length house.now) }
    ensures { result.now ≡ part_of (numbers_in (Ok at)) guest.now house.now }
{
    let first = at.offset;
    match at.list {
        Owner::Guest => &guest[first..first + at.length],
        Owner::House => &house[first..first + at.length],
    }
}

// The value of a key: that part of the guest's list, else that part of the house's. Where `part` is called, the house's list
// is taken at the shorter lifetime 'g.
pub fn find<'g, 'h: 'g>(
    guest: &'g [u8],
    house: &'h [u8],
    key: &[u8],
) -> Result<Setting<'g>, Refused>
    ensures { MatchResult result
        (λ s. answer 0 (number_of s.list) s.offset s.part.now 0 ≡ answer_of guest.now house.now (lookup guest.now house.now key.now))
        (λ r. answer (error.number_of r.error) (list_number r.list) r.offset [] r.depth ≡ answer_of guest.now house.now (lookup guest.now house.now key.now)) }
{
    let at = look_up(guest, house, key)?;
    Ok(Setting {
        list: at.list,
        offset: at.offset,
        part: part(guest, house, at),
    })
}
