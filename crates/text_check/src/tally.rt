// Depth and size of a list, found token by token. Beyond a list's limit the size is not followed any more.
ghost use Rattle.std.specs.Prelude.{◌≤◌, ◌<◌, suc, ◌^◌, ◌-◌, ◌≡◌, false};
ghost use Rattle.list.specs.Limits.{list_limit};
ghost use Rattle.text_check.specs.Check.{error_in};
ghost use Rattle.text_check.specs.Answers.{counter, counter_value, counter_open, counter_close, counter_after, counter_error, Small, Payload};

use crate::token::TokenRead;
use errors::Error;
use list::{DEPTH_LIMIT, LIST_CODE, LIST_LIMIT, NUMBER};

// How many lists are open, whether too many ever were, the code that the elements of the innermost have in common, the bytes that
// their codes take if it is of no one kind, and the bytes of all that was read without these. `deep` has no value beside it, so it is no Option.
// `Small` is no invariant of the type: that would need `pending ≤ size` too, and `with_value` would then also ask `4 ≤ payload`.
#[derive(Drop)]
pub struct Tally {
    pub depth: usize,
    pub deep: bool,
    pub seen: u32,
    pub pending: usize,
    pub size: usize,
}

impl Tally {
    // The outermost list, with its code and its count.
    pub fn start() -> Tally
        ensures { result ≡ counter 1 false 0 0 8 }
    {
        Tally {
            depth: 1,
            deep: false,
            seen: 0,
            pending: 0,
            size: 2 * NUMBER,
        }
    }

    fn with_value(self, code: u32, payload: usize) -> Tally
        requires { Small self × (payload ≤ suc list_limit) }
        ensures { result ≡ counter_value self code payload }
    {
        let mut next = self;
        if LIST_LIMIT < next.size {
            return next;
        }
        let seen = list::common_code(next.seen, code);
        next.seen = seen;
        if seen == LIST_CODE {
            next.size = next.size + (next.pending + NUMBER + payload);
            next.pending = 0;
            return next;
        }
        next.size = next.size + payload;
        next.pending = next.pending + NUMBER;
        next
    }

    fn with_opening(self) -> Tally
        requires { Small self × (self.depth < 2 ^ 64 - 1) }
        ensures { result ≡ counter_open self }
    {
        let mut next = self;
        next.depth = next.depth + 1;
        next.deep = next.deep | (DEPTH_LIMIT < next.depth);
        if next.size <= LIST_LIMIT {
            next.size = next.size + (next.pending + 2 * NUMBER);
        }
        next.seen = 0;
        next.pending = 0;
        next
    }

    fn with_closing(self) -> Tally
        requires { 1 ≤ self.depth }
        ensures { result ≡ counter_close self }
    {
        let mut next = self;
        next.depth = next.depth - 1;
        next.seen = LIST_CODE;
        next.pending = 0;
        next
    }

    pub fn after(self, token: TokenRead) -> Tally
        requires { Small self × (1 ≤ self.depth) × (self.depth < 2 ^ 64 - 1) × Payload token }
        ensures { result ≡ counter_after self token }
    {
        match token {
            TokenRead::Open(_) => self.with_opening(),
            TokenRead::Close => self.with_closing(),
            TokenRead::Value {
                code,
                payload,
                count: _,
            } => self.with_value(code, payload),
        }
    }

    // What all that was read is judged: 32 where a bracket is left open, then 27, then 28.
    pub fn verdict(self) -> Result<(), Error>
        ensures { error_in result ≡ counter_error self }
    {
        if self.depth != 1 {
            return Err(Error::NoText);
        }
        if self.deep {
            return Err(Error::TooDeep);
        }
        if LIST_LIMIT < self.size {
            return Err(Error::TooLong);
        }
        Ok(())
    }
}
