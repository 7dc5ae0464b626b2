//! Lease words that may be shown to a session that a library has, and the bodies of their sends.
ghost use Rattle.std.specs.Prelude.{◌≡◌, IfOk, IsTrue, List};
ghost use Rattle.std.specs.List.{All};
ghost use Rattle.lease_core.specs.Lines.{is_released, lines_of};
ghost use Rattle.lease_core.specs.Showable.{IsOwned, IsShowable};
ghost use Rattle.resend_plan.specs.Fit.{IsFit};
ghost use Rattle.book_desk.specs.NextWord.{is_next_word, names_heir, names_library};

use fix_frame::is_body;
use gate_io::{Bytes, NoMemory};
use lease_core::laws::lines_tell_the_owner;
use lease_core::{MOST_LIBRARIES, Standing, Word};
use resend_plan::LONGEST_APPLICATION_BODY;
use session_book::SessionBook;
use std::alloc::Global;
use std::collections::VecDeque;

/// Whether a library has the session, and the word may be shown, as far as the journal's own word
/// tells it.
pub fn can_show(book: &SessionBook, w: Word) -> bool
    ensures showable { IsTrue result → IsShowable (lines_of book.now.book.entries) w }
    ensures owned { IsTrue result → IsOwned (lines_of book.now.book.entries) }
{
    lines_tell_the_owner();
    book.owner().0 > 0 && is_next_word(book.word(), w)
}

fn is_next_word(last: Word, w: Word) -> bool
    ensures { result ≡ is_next_word last w }
{
    let count = w.count;
    w.lease == last.lease && last.count <= count && (names_heir(w) || names_library(last, w))
}

fn names_heir(w: Word) -> bool
    ensures { result ≡ names_heir w }
{
    is_released(w.standing) && 1 <= w.owner && w.owner <= MOST_LIBRARIES
}

fn names_library(last: Word, w: Word) -> bool
    ensures { result ≡ names_library last w }
{
    !is_released(last.standing) && w.owner == last.owner
}

fn is_released(standing: Standing) -> bool
    ensures { result ≡ is_released standing }
{
    matches!(standing, Standing::Released)
}

/// Puts a body behind the others, if it can be sent. Says whether it can.
pub fn put_body(bodies: &mut VecDeque<Bytes>, body: Vec<u8>) -> Result<bool, NoMemory>
    requires { All IsFit bodies.old.items }
    ensures { All IsFit bodies.new.items }
{
    if !is_body(&body) || body.len() > LONGEST_APPLICATION_BODY {
        return Ok(false);
    }
    bodies.push_back(Bytes::of(body))?;
    Ok(true)
}
