//! Replies are written whole, or cut at an error.

ghost use Rattle.std.specs.Prelude.{◌≡◌, ◌++◌, true, IfErr};
ghost use Rattle.pw_http.specs.Replies.{refusal_reply, reply_bytes};
ghost use Rattle.pw_http.specs.Writing.{Writes};
ghost use Rattle.pw_http.specs.inner.Fronts.{rest_of_head};
ghost use Rattle.pw_http.specs.declared.fault.WireFault.TheVariants.{Write as WriteFault};

use crate::fault::WireFault;
use crate::replies::{ContentType, Status, behind_head, head, line_of, status_of};
use crate::requests::Refusal;
use std::io::Write;

// Writes the bytes, by as many calls as it takes.
pub(crate) fn send<W: Write>(writer: &mut W, bytes: &[u8]) -> Result<(), WireFault>
    ensures written { Writes (W.contents writer.old) (W.contents writer.new) bytes.now result }
    ensures fault { IfErr result (λ e. e ≡ WriteFault) }
{
    let mut at = 0;
    while at < bytes.len() {
        match writer.write(&bytes[at..]) {
            Ok(0) => return Err(WireFault::Write),
            Ok(n) => at += n,
            Err(_) => return Err(WireFault::Write),
        }
    }
    Ok(())
}

// Writes what stands behind the first part of a head: the rest of it, and the body.
fn send_rest<W: Write>(writer: &mut W, content: ContentType, body: &[u8]) -> Result<(), WireFault>
    ensures written { Writes (W.contents writer.old) (W.contents writer.new)
        (rest_of_head content ++ body.now) result }
    ensures fault { IfErr result (λ e. e ≡ WriteFault) }
{
    send(writer, behind_head(content).as_bytes())?;
    send(writer, body)
}

/// Writes a reply. It takes no memory.
pub fn send_reply<W: Write>(
    writer: &mut W,
    status: Status,
    content: ContentType,
    closing: bool,
    body: &[u8],
) -> Result<(), WireFault>
    ensures written { Writes (W.contents writer.old) (W.contents writer.new)
        (reply_bytes closing (record { status = status; content = content; body = body.now }))
        result }
    ensures fault { IfErr result (λ e. e ≡ WriteFault) }
{
    let text = head(status, content, body.len(), closing);
    match send(writer, text.as_str().as_bytes()) {
        Ok(()) => send_rest(writer, content, body),
        Err(_) => Err(WireFault::Write),
    }
}

// Writes the reply to what is no whole request. It takes no memory.
pub(crate) fn refuse<W: Write>(writer: &mut W, why: Refusal) -> Result<(), WireFault>
    ensures written { Writes (W.contents writer.old) (W.contents writer.new)
        (reply_bytes true (refusal_reply why)) result }
    ensures fault { IfErr result (λ e. e ≡ WriteFault) }
{
    let line = line_of(why).as_bytes();
    send_reply(writer, status_of(why), ContentType::Plain, true, line)
}
