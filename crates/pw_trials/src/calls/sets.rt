//! The calls on data sets: what a code means, the sets of a block up to its fault, and the energy that a value states.

use pw_obis::{
    Code, Register, Set, Sets, code, first_value, is_date, is_identifier, is_stamp, is_time,
    register, watt_hours,
};
use std::io::Write;

pub(crate) fn answer<O: Write>(words: &[&str], out: &mut O) -> Option<()> {
    match words {
        ["code"] => tell_code(code(b""), out),
        ["code", address] => tell_code(code(address.as_bytes()), out),
        ["sets", text] => tell_sets(text.as_bytes(), out),
        ["watt_hours", text] => tell_energy(text.as_bytes(), out),
        ["registers"] => {
            for register in Register::ALL {
                let name = register.name();
                let _ = writeln!(out, "{name}");
            }
        }
        _ => return None,
    }
    Some(())
}

// The Wh that a value states, or why it states none.
fn tell_energy<O: Write>(value: &[u8], out: &mut O) {
    let _ = match watt_hours(value) {
        Ok(energy) => writeln!(out, "{}", energy.get()),
        Err(fault) => writeln!(out, "{} {}", fault.number(), fault.name()),
    };
}

// The value groups from A to F, `-` for one that doesn't stand there, and what the code means.
fn tell_code<O: Write>(code: Option<Code>, out: &mut O) {
    let Some(code) = code else {
        let _ = out.write_all(b"no code\n");
        return;
    };
    for group in [code.a, code.b, Some(code.c), Some(code.d), code.e, code.f] {
        let _ = match group {
            Some(number) => write!(out, "{number} "),
            None => out.write_all(b"- "),
        };
    }
    let meaning = meaning_of(&code);
    let _ = writeln!(out, "{meaning}");
}

fn meaning_of(code: &Code) -> &'static str {
    if let Some(register) = register(code) {
        return register.name();
    }
    if is_stamp(code) {
        "stamp"
    } else if is_identifier(code) {
        "identifier"
    } else if is_time(code) {
        "time"
    } else if is_date(code) {
        "date"
    } else {
        "skipped"
    }
}

// Each set, then the line that is none, if there is one, and what two more calls answer.
fn tell_sets<O: Write>(block: &[u8], out: &mut O) {
    let mut sets = Sets::new(block);
    for _ in 0..block.len() {
        let Some(found) = sets.next_set() else {
            break;
        };
        match found {
            Ok(set) => tell_set(&set, out),
            Err(fault) => {
                let (number, name, at) = (fault.number(), fault.name(), fault.at);
                let _ = writeln!(out, "{number} {name} at {at}");
                break;
            }
        }
    }
    let is_over = sets.next_set().is_none() && sets.next_set().is_none();
    let _ = writeln!(out, "over {is_over}");
}

// Its address, its values, the first of them, and its code.
fn tell_set<O: Write>(set: &Set<'_>, out: &mut O) {
    for text in [set.address, set.values, first_value(set)] {
        let _ = out.write_all(text);
        let _ = out.write_all(b" ");
    }
    tell_code(set.code, out);
}
