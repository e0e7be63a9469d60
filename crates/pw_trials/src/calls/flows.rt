//! The calls on levels and flows.

ghost use Rattle.std.specs.Prelude.{◌≡◌, ◌<◌, ◌^◌, ◌&&◌, All, nat_le, nat_lt};
ghost use Rattle.pw_flow.specs.Energy.{register_energy};
ghost use Rattle.pw_flow.specs.Plain.{value_at};
ghost use Rattle.pw_flow.specs.Time.{AreInTime};

use crate::calls::asked::Asked;
use crate::calls::names::meter;
use crate::calls::words::{instant, register, wh};
use pw_flow::plain::{Point, energy, level_at};
use pw_model::plain::points_of;
use std::io::Write;

pub(crate) fn answer<O: Write>(asked: &Asked<'_>, words: &[&str], out: &mut O) -> Option<()> {
    match words {
        ["level", from, low, to, high, at] => {
            let (from, to) = (point(from, low)?, point(to, high)?);
            tell_level(from, to, instant(at)?.seconds(), out)
        }
        ["flow", name, of, from, until] => {
            let (meter, register) = (meter(asked.office, name)?, register(of)?);
            let points = points_of(asked.alloc, asked.entries, meter, register).ok()?;
            let wh = energy_within(&points, instant(from)?.seconds(), instant(until)?.seconds());
            let _ = writeln!(out, "{wh}");
            Some(())
        }
        _ => None,
    }
}

fn point(at: &str, watt_hours: &str) -> Option<Point> {
    Some(Point {
        at: instant(at)?.seconds(),
        watt_hours: wh(watt_hours)?.get(),
    })
}

fn tell_level<O: Write>(from: Point, to: Point, second: u32, out: &mut O) -> Option<()> {
    let is_span = from.at < to.at && from.watt_hours <= to.watt_hours;
    if !is_span || second < from.at || to.at < second {
        return None;
    }
    let level = level_at(from, to, second);
    let _ = writeln!(out, "{level}");
    Some(())
}

// The energy from a second up to another. Its contract shows what a caller knows of a predicate that is a closure.
fn energy_within(points: &[Point], from: u32, until: u32) -> u128
    requires rising { AreInTime (λ p. p.at) points.now }
    requires early { All (λ p. p.at < 2 ^ 32) points.now }
    ensures { result ≡ register_energy (λ t. nat_le from t && nat_lt t until) (value_at points.now)
        (2 ^ 32) }
{
    energy(points, |second| from <= second && second < until)
}
