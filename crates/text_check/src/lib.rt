// Judging a text whole, in one pass and without recursion: whether it is the text of a list, how deep that is and how long. What reads at an
// offset takes it beside the text, as text_value's readers do: the offset may be past the end.
#![tactic(auto)]

mod span;
mod tally;
mod token;

ghost use Rattle.std.specs.Prelude.{◌≡◌};
ghost use Rattle.text_check.specs.Check.{to_read, error_of, error_in};
ghost use Rattle.text_check.specs.Answers.{tally_error};

use errors::Error;
use tally::Tally;
use token::token_at;

// What all tokens of a text come to; none where characters are no token, or a bracket closes the outermost list.
fn tally_of(text: &[u8]) -> Option<Tally>
    ensures { tally_error result ≡ error_of (to_read text.now) }
{
    let mut pos = 0;
    let mut first = true;
    let mut tally = Tally::start();
    // A token has as many characters as it says, so no `for` goes over them.
    while pos < text.len() {
        let token = token_at(text, pos, first)?;
        let count = token.count();
        tally = tally.after(token);
        if tally.depth == 0 {
            return None;
        }
        first = token.opens();
        pos += count;
    }
    Some(tally)
}

// Whether a text is a list's; if not, 32, then 27, then 28.
pub fn judge(text: &[u8]) -> Result<(), Error>
    ensures { error_in result ≡ error_of (to_read text.now) }
{
    tally_of(text).ok_or(Error::NoText)?.verdict()
}
