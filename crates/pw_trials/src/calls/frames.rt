//! The calls on frames: a CRC16 and a block check of given bytes, and the frames of a body up to its fault.

use pw_frame::{Frame, Frames, Kind, block_check, crc_update, crc16};
use std::io::Write;

pub(crate) fn answer<O: Write>(words: &[&str], out: &mut O) -> Option<()> {
    match words {
        ["crc16"] => tell_crc(b"", &[], out),
        ["crc16", text, rest @ ..] => tell_crc(text.as_bytes(), rest, out),
        ["block_check"] => tell_check(b"", out),
        ["block_check", text] => tell_check(text.as_bytes(), out),
        ["frames", text] => tell_frames(text.as_bytes(), out),
        _ => return None,
    }
    Some(())
}

// The CRC16 of the first text, continued over the others.
fn tell_crc<O: Write>(text: &[u8], rest: &[&str], out: &mut O) {
    let mut crc = crc16(text);
    for more in rest {
        crc = crc_update(crc, more.as_bytes());
    }
    let _ = writeln!(out, "{crc:04X}");
}

fn tell_check<O: Write>(bytes: &[u8], out: &mut O) {
    let check = block_check(bytes);
    let _ = writeln!(out, "{check:02X}");
}

// The kind, header and block of each frame, then the fault, if there is one, and what two more calls answer.
fn tell_frames<O: Write>(body: &[u8], out: &mut O) {
    let mut frames = Frames::new(body);
    for _ in 0..body.len() {
        match frames.next_frame() {
            Some(Ok(frame)) => tell_frame(&frame, out),
            Some(Err(fault)) => {
                let (number, name) = (fault.number(), fault.name());
                let _ = writeln!(out, "{number} {name} {fault}");
                break;
            }
            None => break,
        }
    }
    let is_over = frames.next_frame().is_none() && frames.next_frame().is_none();
    let _ = writeln!(out, "over {is_over}");
}

fn tell_frame<O: Write>(frame: &Frame<'_>, out: &mut O) {
    let kind: &[u8] = match frame.kind {
        Kind::Telegram => b"telegram ",
        Kind::Readout => b"readout ",
    };
    for part in [kind, frame.header, b"\n", frame.block] {
        let _ = out.write_all(part);
    }
}
