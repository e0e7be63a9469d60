//! What a statement is given.

ghost use Rattle.std.specs.Prelude.{◌≡◌, ◌≤◌};
ghost use Rattle.pw_store.specs.inner.Given.{values_of};

use sqlite::types::ValueRef;

// The values of a statement's parameters: as many of these as it has, in their order.
#[derive(Clone, Copy)]
pub(crate) struct Given<'a> {
    pub(crate) values: [ValueRef<'a>; 5],
    pub(crate) count: usize,
}

impl<'a> Given<'a> {
    // Those that it has.
    pub(crate) fn values(&self) -> &[ValueRef<'a>]
        requires { self.now.count ≤ 5 }
        ensures { result.now ≡ values_of self.now }
    {
        &self.values[..self.count]
    }
}
