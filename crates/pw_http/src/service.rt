//! Who answers requests.

ghost use Rattle.std.specs.Prelude.{IfErr, ◌≡◌};
ghost use Rattle.pw_http.specs.Replies.{Reply};
ghost use Rattle.pw_http.specs.Runs.{Asking, Serving};
ghost use Rattle.pw_http.specs.declared.fault.WireFault.TheVariants.{Write as WriteFault};

use crate::fault::WireFault;
use crate::routes::Routes;
use std::alloc::Global;
use std::io::Write;

/// A service: it writes a reply to each whole request.
pub trait Service {
    /// What it may answer: its state before, what it is asked, the reply, its state behind it.
    ghost serves: { Self → Asking → Reply → Self → Type 0 };

    /// Answers a request, which goes where the routes say. `closing` tells that the conversation ends behind the reply.
    fn serve<W: Write>(
        &mut self,
        alloc: Global,
        routes: &Routes,
        method: &[u8],
        target: &[u8],
        body: &[u8],
        closing: bool,
        writer: &mut W,
    ) -> Result<(), WireFault>
        ensures serving { Serving serves self.old (record
            { method = method.now; target = target.now; body = body.now }) closing
            (W.contents writer.old) (W.contents writer.new) self.new result }
        ensures fault { IfErr result (λ e. e ≡ WriteFault) };
}
