//! At which call a counting shelf fails.

ghost use Rattle.std.specs.Prelude.{◌≡◌, ◌↔◌, ◌⊎◌, IsTrue};
ghost use Rattle.pw_shelf.specs.Plan.{plan_of};
ghost use Rattle.pw_shelf.specs.inner.Plan.{plan_behind};

/// At which call a shelf fails.
#[derive(Drop)]
pub struct Plan {
    // so many calls from now on, the last of which fails; 0 where none does
    pub(crate) until: u32,
    // that call was made
    pub(crate) failed: bool,
    // behind it each `abandon` fails
    pub(crate) abandon_fails: bool,
}

impl Plan {
    // The call number `fail_at`, counted from 1; none at 0.
    pub(crate) fn new(fail_at: u32, abandon_fails: bool) -> Plan
        ensures { result ≡ plan_of fail_at abandon_fails }
    {
        Plan {
            until: fail_at,
            failed: false,
            abandon_fails,
        }
    }

    // One call more: whether it is the one that fails.
    pub(crate) fn fails(&mut self) -> bool
        ensures fails { IsTrue result ↔ (self.old.until ≡ 1) }
        ensures plan { self.new ≡ plan_behind self.old }
    {
        let fails = self.until == 1;
        self.until = self.until.saturating_sub(1);
        self.failed = self.failed || fails;
        fails
    }

    // One `abandon` more: whether it fails.
    pub(crate) fn fails_abandon(&mut self) -> bool
        ensures fails { IsTrue result ↔ (self.old.until ≡ 1)
            ⊎ (IsTrue self.old.failed × IsTrue self.old.abandon_fails) }
        ensures plan { self.new ≡ plan_behind self.old }
    {
        let again = self.failed && self.abandon_fails;
        let fails = self.fails();
        fails || again
    }
}
