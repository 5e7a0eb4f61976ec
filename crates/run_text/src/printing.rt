//! The text of a transcript.
ghost use Rattle.std.specs.Prelude.{◌≡◌, ◌++◌, IfOk, OnOk};
ghost use Rattle.answer_text.specs.Transcript.{reply_line, session_text, text_of};

use a1_base::{Bin, Memory};
use answer_text::{Line, Transcript, text};
use std::alloc::Global;

// Puts a line's text at the end.
fn print_line(alloc: Global, out: &mut Bin, session: u32, line: &Line) -> Result<(), Memory>
    ensures { OnOk result (out.new ≡ out.old ++ reply_line session line.now) }
{
    let number = session.to_string(alloc)?;
    let reply = text(alloc, &line.reply)?;
    out.append(number.as_bytes())?;
    out.append(b" ")?;
    out.append(reply.as_slice())?;
    out.append(b"\n")?;
    Ok(())
}

// Puts a session's text at the end.
fn print_session(alloc: Global, out: &mut Bin, session: &Transcript) -> Result<(), Memory>
    ensures { OnOk result (out.new ≡ out.old ++ session_text session.now) }
{
    let number = session.session;
    for line in session.lines.as_slice() {
        print_line(alloc, out, number, line)?;
    }
    Ok(())
}

/// The text of a transcript: session by session, each line as its session's number, a blank, the text of its reply and
/// LF. `Memory` comes for want of memory alone.
pub fn transcript(alloc: Global, sessions: &[Transcript]) -> Result<Bin, Memory>
    ensures { IfOk result (λ text. text ≡ text_of sessions.now) }
{
    let mut out = Bin::new(alloc);
    for session in sessions {
        print_session(alloc, &mut out, session)?;
    }
    Ok(out)
}
