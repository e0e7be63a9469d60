//! Conversations: with a service that gives one answer to all, and with a book over a store in memory.

mod audience;
mod books;
mod wire;

use pw_http::{
    Audience, ContentType, Routes, Served, Service, Status, WireFault, send_reply, serve_within,
};
use std::alloc::Global;
use std::io::Write;

// It says yes.
#[derive(Drop)]
struct Yes;

impl Service for Yes {
    ghost use Rattle.std.specs.Prelude.{◌≡◌, codes};
    ghost use Rattle.pw_http.specs.declared.replies.ContentType.TheVariants.{Plain};
    ghost use Rattle.pw_http.specs.declared.replies.Status.TheVariants.{Fine};

    ghost serves = { λ old _ reply new. (reply ≡ record { status = Fine; content = Plain; body = codes "yes\n" }) × (new ≡ old) };

    fn serve<W: Write>(
        &mut self,
        _alloc: Global,
        _routes: &Routes,
        _method: &[u8],
        _target: &[u8],
        _body: &[u8],
        closing: bool,
        writer: &mut W,
    ) -> Result<(), WireFault> {
        send_reply(writer, Status::Fine, ContentType::Plain, closing, b"yes\n")
    }
}

const YES: &[u8] = b"HTTP/1.1 200 OK\r\nContent-Type: text/plain\r\nContent-Length: 4\r\n\r\nyes\n";

const PAGE: &[u8] = b"GET /accounts/A1 HTTP/1.1\r\n\r\n";

// Whether a request is served, and answered by yes.
fn is_yes_said(alloc: Global) -> bool {
    let Ok(routes) = Routes::new(alloc) else {
        return false;
    };
    let (mut reader, mut text) = (PAGE, Vec::new(alloc));
    let all = Audience::Everybody;
    let served = serve_within(alloc, &mut Yes, &routes, all, &mut reader, &mut text, 10);
    served == Ok(Served { requests: 1 }) && text.as_slice() == YES
}

// bears on: pw_http conversation.rt serve_within memory
// bears on: pw_http routes.rt Routes::new memory
// bears on: pw_http service.rt Service::serve serving
#[test]
fn one_request(rt: HostRuntime) {
    assert!(rt; is_yes_said(rt.alloc()));
}
