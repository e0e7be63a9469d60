//! Laws of any type, at two types. (Examples of what the laws say stand in `cases/`.)

use pw_flow::laws::{earliest_behind_is_found, latest_is_found};
use pw_flow::plain::Point;

#[test]
fn laws_hold_of_any_type() {
    latest_is_found::<u32>();
    earliest_behind_is_found::<Option<Point>>();
}
