//! The routes: to which upload, page or file a method and a path go, and what a path names.

ghost use Rattle.std.specs.Prelude.{◌≡◌, ◌==◌, ◌≤◌, IfOk, drop, length};
ghost use Rattle.std.specs.List.{position_or_len};
ghost use Rattle.pw_http.specs.Routes.{account_in as account_of, behind_slash as behind_first, by_method, exported_meter_in as exported_meter_of, may_be_large as is_large, meter_in as meter_of, method_name, month_in as month_of, place_of, route_at, route_table, up_to_slash as up_to_first};
ghost use Rattle.pw_http.specs.inner.Added.{all_added, exports, files, months, pages, uploads};
ghost use Rattle.pw_http.specs.inner.Large.{is_large_at as is_place_large};

use matchit::{InsertError, Router};
use pw_page::File;
use pw_report::{MonthPage, Table};
use std::alloc::Global;
use std::str::from_utf8;

/// What stands at a path.
#[derive(Clone, Copy, Debug, PartialEq, Eq)]
pub enum Route {
    /// Takes telegrams.
    Telegrams,
    /// Takes a meter's readouts.
    Readouts,
    /// Takes rows of assignments.
    Assignments,
    /// Takes rows of top-ups.
    TopUps,
    /// Takes rows of withdrawals.
    Withdrawals,
    /// An account's statement.
    Account,
    /// A page of an account for a month.
    Month(MonthPage),
    /// The readings of a meter.
    MeterReadings,
    /// A table of the book.
    Table(Table),
    /// A file of the page, of which nothing is asked of the book.
    File(File),
}

impl Route {
    /// Whether its page grows with the records, or with the meters, of the office or of its account. Replies that may be
    /// large are made one at a time.
    pub fn may_be_large(self) -> bool
        ensures { result ≡ is_large self }
    {
        match self {
            Route::Telegrams
            | Route::Readouts
            | Route::Assignments
            | Route::TopUps
            | Route::Withdrawals
            | Route::Account
            | Route::Month(MonthPage::Days)
            | Route::Table(Table::Accounts)
            | Route::File(_) => false,
            Route::Month(MonthPage::Bill | MonthPage::Why)
            | Route::MeterReadings
            | Route::Table(_) => true,
        }
    }
}

/// Where a request goes.
#[derive(Clone, Copy, Debug, PartialEq, Eq)]
pub enum Place {
    /// No route has the path.
    NoPage,
    /// The path's route has another method.
    NoMethod,
    At(Route),
}

/// The routes, as a router keeps them.
#[derive(Drop)]
pub struct Routes {
    router: Router<Route>,
    ghost table: { router ≡ route_table },
}

impl Routes {
    /// The twenty-one routes. It takes all the memory that they need.
    pub fn new(alloc: Global) -> Result<Routes, InsertError> {
        let router = all_routes(alloc)?;
        Ok(Routes { router })
    }

    /// Where a request of a method goes that asks for a target. It takes no memory.
    pub fn place(&self, method: &[u8], target: &[u8]) -> Place
        ensures { result ≡ place_of method.now target.now }
    {
        match from_utf8(target) {
            Ok(path) => find_place(&self.router, method, path),
            Err(_) => Place::NoPage,
        }
    }
}

// The router of the twenty-one routes.
fn all_routes(alloc: Global) -> Result<Router<Route>, InsertError>
    ensures { IfOk result (λ router. router ≡ route_table) }
{
    let mut router = Router::new(alloc);
    add_uploads(&mut router)?;
    add_pages(&mut router)?;
    add_exports(&mut router)?;
    add_months(&mut router)?;
    add_files(&mut router)?;
    Ok(router)
}

// Where uploads are sent.
fn add_uploads(router: &mut Router<Route>) -> Result<(), InsertError>
    ensures { IfOk result (λ done. router.new ≡ all_added router.old uploads) }
{
    router.insert("/telegrams", Route::Telegrams)?;
    router.insert("/meters/{meter}/readouts", Route::Readouts)?;
    router.insert("/assignments", Route::Assignments)?;
    router.insert("/topups", Route::TopUps)?;
    router.insert("/withdrawals", Route::Withdrawals)?;
    Ok(())
}

// The lists, and an account's statement.
fn add_pages(router: &mut Router<Route>) -> Result<(), InsertError>
    ensures { IfOk result (λ done. router.new ≡ all_added router.old pages) }
{
    router.insert("/accounts", Route::Table(Table::Accounts))?;
    router.insert("/falls", Route::Table(Table::Falls))?;
    router.insert("/disputes", Route::Table(Table::Disputes))?;
    router.insert("/accounts/{account}", Route::Account)?;
    Ok(())
}

// What is exported as CSV: lists of the whole book, and the readings of one meter.
fn add_exports(router: &mut Router<Route>) -> Result<(), InsertError>
    ensures { IfOk result (λ done. router.new ≡ all_added router.old exports) }
{
    router.insert("/export/readings", Route::Table(Table::Readings))?;
    router.insert("/export/energy", Route::Table(Table::Energies))?;
    router.insert("/export/assignments", Route::Table(Table::Assignments))?;
    router.insert("/export/topups", Route::Table(Table::TopUps))?;
    router.insert("/export/withdrawals", Route::Table(Table::Withdrawals))?;
    router.insert("/export/readings/{meter}", Route::MeterReadings)?;
    Ok(())
}

// The pages of an account's month.
fn add_months(router: &mut Router<Route>) -> Result<(), InsertError>
    ensures { IfOk result (λ done. router.new ≡ all_added router.old months) }
{
    router.insert("/accounts/{account}/{month}", Route::Month(MonthPage::Bill))?;
    router.insert(
        "/accounts/{account}/{month}/days",
        Route::Month(MonthPage::Days),
    )?;
    router.insert(
        "/accounts/{account}/{month}/why",
        Route::Month(MonthPage::Why),
    )?;
    Ok(())
}

// The files of the page.
fn add_files(router: &mut Router<Route>) -> Result<(), InsertError>
    ensures { IfOk result (λ done. router.new ≡ all_added router.old files) }
{
    router.insert("/", Route::File(File::Page))?;
    router.insert("/page.js", Route::File(File::Script))?;
    router.insert("/page.css", Route::File(File::Style))?;
    Ok(())
}

fn route_of(router: &Router<Route>, path: &str) -> Option<Route>
    requires { router.now ≡ route_table }
    ensures { result ≡ route_at path.now }
{
    match router.at(path) {
        Ok(found) => Some(*found.value),
        Err(_) => None,
    }
}

fn find_place(router: &Router<Route>, method: &[u8], path: &str) -> Place
    requires { router.now ≡ route_table }
    ensures { result ≡ by_method method.now (route_at path.now) }
{
    match route_of(router, path) {
        None => Place::NoPage,
        Some(route) => {
            if method == method_of(route) {
                Place::At(route)
            } else {
                Place::NoMethod
            }
        }
    }
}

fn method_of(route: Route) -> &'static [u8]
    ensures { result.now ≡ method_name route }
{
    match route {
        Route::Telegrams
        | Route::Readouts
        | Route::Assignments
        | Route::TopUps
        | Route::Withdrawals => b"POST",
        Route::Account
        | Route::Month(_)
        | Route::MeterReadings
        | Route::Table(_)
        | Route::File(_) => b"GET",
    }
}

// Whether the reply to a request that goes there may be a large one.
pub(crate) fn is_large_at(place: Place) -> bool
    ensures { result ≡ is_place_large place }
{
    match place {
        Place::NoPage | Place::NoMethod => false,
        Place::At(route) => route.may_be_large(),
    }
}

// The account that a target of it, or of a month of it, names.
pub(crate) fn account_in(target: &[u8]) -> &[u8]
    ensures { result.now ≡ account_of target.now }
{
    up_to_slash(behind(target, b"/accounts/".len()))
}

// What a target of an account's month names behind the account.
pub(crate) fn month_in(target: &[u8]) -> &[u8]
    ensures { result.now ≡ month_of target.now }
{
    up_to_slash(behind_slash(behind(target, b"/accounts/".len())))
}

// What a target of a meter's readouts names.
pub(crate) fn meter_in(target: &[u8]) -> &[u8]
    ensures { result.now ≡ meter_of target.now }
{
    let end = target.len().saturating_sub(b"/readouts".len());
    behind(&target[..end], b"/meters/".len())
}

// What a target of a meter's readings names.
pub(crate) fn exported_meter_in(target: &[u8]) -> &[u8]
    ensures { result.now ≡ exported_meter_of target.now }
{
    behind(target, b"/export/readings/".len())
}

// What stands behind the first `n` bytes.
fn behind(text: &[u8], n: usize) -> &[u8]
    ensures { result.now ≡ drop n text.now }
{
    if n < text.len() { &text[n..] } else { b"" }
}

// What stands before the first slash, or all.
fn up_to_slash(text: &[u8]) -> &[u8]
    ensures { result.now ≡ up_to_first text.now }
{
    &text[..before_slash(text)]
}

// What stands behind the first slash, or nothing.
fn behind_slash(text: &[u8]) -> &[u8]
    ensures { result.now ≡ behind_first text.now }
{
    behind(text, before_slash(text) + 1)
}

// How many bytes stand before the first slash.
fn before_slash(text: &[u8]) -> usize
    ensures place { result ≡ position_or_len (λ b. b == 47) text.now }
    ensures within { result ≤ length text.now }
{
    for (place, byte) in text.iter().enumerate() {
        if *byte == b'/' {
            return place;
        }
    }
    text.len()
}
