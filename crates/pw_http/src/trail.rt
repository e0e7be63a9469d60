//! A book that tells each upload that it has answered.

ghost use Rattle.std.specs.Prelude.{◌≡◌};

use crate::books::reply_to;
use crate::fault::WireFault;
use crate::replies::Status;
use crate::routes::{Place, Route, Routes};
use crate::send::send_reply;
use crate::service::Service;
use pw_book::Book;
use pw_shelf::Shelf;
use std::alloc::Global;
use std::io::Write;

/// Who is told of each upload that was answered.
pub trait Trail {
    /// An upload to this target is answered with this status. Whether the reply is taken isn't known yet.
    fn answered(&mut self, target: &[u8], status: Status);
}

/// A book that tells each upload as it is answered.
#[derive(Drop)]
pub struct Trailed<S: Shelf, T: Trail> {
    book: Book<S>,
    trail: T,
}

impl<S: Shelf, T: Trail + Drop> Trailed<S, T> {
    /// A book, and who is told.
    pub fn new(book: Book<S>, trail: T) -> Trailed<S, T>
        ensures { result.book ≡ book }
    {
        Trailed { book, trail }
    }

    /// The book, of which nobody is told any more.
    pub fn into_book(self) -> Book<S>
        ensures { result ≡ self.book }
    {
        let Trailed { book, trail: _ } = self;
        book
    }
}

/// It answers as its book does.
impl<S: Shelf, T: Trail> Service for Trailed<S, T> {
    ghost use Rattle.pw_http.specs.Steps.{Answers};

    ghost serves = { λ old asking reply new. Answers S.Shelf old.book asking reply new.book };

    fn serve<W: Write>(
        &mut self,
        alloc: Global,
        routes: &Routes,
        method: &[u8],
        target: &[u8],
        body: &[u8],
        closing: bool,
        writer: &mut W,
    ) -> Result<(), WireFault> {
        let reply = reply_to(&mut self.book, alloc, routes, method, target, body);
        if takes_uploads(routes.place(method, target)) {
            self.trail.answered(target, reply.status);
        }
        let bytes = reply.bytes();
        send_reply(writer, reply.status, reply.content, closing, bytes)
    }
}

fn takes_uploads(place: Place) -> bool {
    match place {
        Place::NoPage | Place::NoMethod => false,
        Place::At(route) => match route {
            Route::Telegrams
            | Route::Readouts
            | Route::Assignments
            | Route::TopUps
            | Route::Withdrawals => true,
            Route::Account
            | Route::Month(_)
            | Route::MeterReadings
            | Route::Table(_)
            | Route::File(_) => false,
        },
    }
}
