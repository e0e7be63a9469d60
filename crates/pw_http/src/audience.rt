//! Who is let in: who names this machine, pages of this machine, and pages that are named.

ghost use Rattle.std.specs.Prelude.{◌≡◌, ◌≤◌, length, take, drop, codes, map, All};
ghost use Rattle.std.specs.List.{list_all, list_any};
ghost use Rattle.std.specs.Char.{is_ascii_digit};
ghost use Rattle.httparse.specs.Spans.{IsHeaderWithin, header_bytes};
ghost use Rattle.pw_http.specs.Heads.{is_named, values_of};
ghost use Rattle.pw_http.specs.Audience.{IsUrlOf, begins_with as begins, is_here as is_host_here, is_host as is_host_text, is_host_byte as is_byte_of_host, is_host_of as says_host, is_known_host as knows_host, is_known_page as knows_page, is_let_by as lets_by, is_page_of as says_page, is_port as is_port_text, lets_in, names as names_host, scheme_text};
ghost use Rattle.pw_http.specs.inner.Fields.{first_value};

use httparse::spans::HeaderSpan;

/// How a page was fetched.
#[derive(Clone, Copy, Debug, PartialEq, Eq)]
pub enum Scheme {
    Http,
    Https,
}

/// Where a page comes from (RFC 6454): its scheme, and its host with the port, if one is told.
#[derive(Clone, Copy, Debug, PartialEq, Eq)]
pub struct Origin<'a> {
    scheme: Scheme,
    host: &'a [u8],
}

/// Whom a conversation lets in.
#[derive(Clone, Copy, Debug)]
pub enum Audience<'a> {
    Everybody,
    /// Who asks this machine by one of its names, with its own pages; and these pages.
    Here(&'a [Origin<'a>]),
}

impl Scheme {
    fn text(self) -> &'static [u8]
        ensures { result.now ≡ scheme_text self }
    {
        match self {
            Scheme::Http => b"http://",
            Scheme::Https => b"https://",
        }
    }
}

impl<'a> Origin<'a> {
    /// The origin that a URL names: `http://` or `https://` and a host, with a port or without, and nothing behind it.
    pub fn of(url: &'a [u8]) -> Option<Origin<'a>>
        ensures { IsUrlOf result url.now }
    {
        let scheme = if begins_with(b"http://", url) {
            Scheme::Http
        } else if begins_with(b"https://", url) {
            Scheme::Https
        } else {
            return None;
        };
        let host = behind(url, scheme.text().len());
        if is_host(host) {
            Some(Origin { scheme, host })
        } else {
            None
        }
    }
}

// Whether a text begins with another, in any letter case.
fn begins_with(front: &[u8], text: &[u8]) -> bool
    ensures { result ≡ begins front.now text.now }
{
    first(text, front.len()).eq_ignore_ascii_case(front)
}

// The first `n` bytes, or all.
fn first(text: &[u8], n: usize) -> &[u8]
    ensures { result.now ≡ take n text.now }
{
    if n < text.len() { &text[..n] } else { text }
}

// What stands behind the first `n` bytes.
fn behind(text: &[u8], n: usize) -> &[u8]
    ensures { result.now ≡ drop n text.now }
{
    if n < text.len() { &text[n..] } else { b"" }
}

fn is_host_byte(b: u8) -> bool
    ensures { result ≡ is_byte_of_host b }
{
    b.is_ascii_alphanumeric() || matches!(b, b'-' | b'.' | b':' | b'[' | b']' | b'_')
}

// Whether a text is a host, with a port or without.
fn is_host(text: &[u8]) -> bool
    ensures { result ≡ is_host_text text.now }
{
    let mut is_host = !text.is_empty();
    for b in text {
        if !is_host_byte(*b) {
            is_host = false;
        }
    }
    is_host
}

// Whether a text is a port with its colon, or nothing.
fn is_port(text: &[u8]) -> bool
    ensures { result ≡ is_port_text text.now }
{
    text.is_empty() || (text[0] == b':' && are_digits(&text[1..]))
}

fn are_digits(text: &[u8]) -> bool
    ensures { result ≡ list_all is_ascii_digit text.now }
{
    let mut all = true;
    for b in text {
        if !b.is_ascii_digit() {
            all = false;
        }
    }
    all
}

// Whether a Host is this name, with any port.
fn names(name: &[u8], host: &[u8]) -> bool
    ensures { result ≡ names_host name.now host.now }
{
    begins_with(name, host) && is_port(behind(host, name.len()))
}

// Whether a Host names this machine.
fn is_here(host: &[u8]) -> bool
    ensures { result ≡ is_host_here host.now }
{
    names(b"127.0.0.1", host) || names(b"localhost", host) || names(b"[::1]", host)
}

// Whether an origin's text says this scheme and this host.
fn is_page_of(scheme: Scheme, host: &[u8], text: &[u8]) -> bool
    ensures { result ≡ says_page scheme host.now text.now }
{
    let front = scheme.text();
    begins_with(front, text) && behind(text, front.len()).eq_ignore_ascii_case(host)
}

fn is_host_of(host: &[u8], origin: &Origin) -> bool
    ensures { result ≡ says_host host.now origin.now }
{
    host.eq_ignore_ascii_case(origin.host)
}

// Whether a Host is that of one of the origins.
fn has_host(origins: &[Origin], host: &[u8]) -> bool
    ensures { result ≡ list_any (says_host host.now) origins.now }
{
    let mut found = false;
    for origin in origins {
        if is_host_of(host, origin) {
            found = true;
        }
    }
    found
}

// Whether a Host is of this machine, or of one of the origins.
fn is_known_host(origins: &[Origin], host: &[u8]) -> bool
    ensures { result ≡ knows_host origins.now host.now }
{
    is_here(host) || has_host(origins, host)
}

// Whether a page may ask at this Host by this origin.
fn is_let_by(host: &[u8], page: &[u8], origin: &Origin) -> bool
    ensures { result ≡ lets_by host.now page.now origin.now }
{
    is_page_of(origin.scheme, origin.host, page) && (is_here(host) || is_host_of(host, origin))
}

// Whether a page may ask at this Host by one of the origins.
fn is_let_by_any(origins: &[Origin], host: &[u8], page: &[u8]) -> bool
    ensures { result ≡ list_any (lets_by host.now page.now) origins.now }
{
    let mut found = false;
    for origin in origins {
        if is_let_by(host, page, origin) {
            found = true;
        }
    }
    found
}

// Whether a page may ask at this Host.
fn is_known_page(origins: &[Origin], host: &[u8], page: &[u8]) -> bool
    ensures { result ≡ knows_page origins.now host.now page.now }
{
    (is_here(host) && is_page_of(Scheme::Http, host, page)) || is_let_by_any(origins, host, page)
}

// Whether a header has this name, in any letter case.
pub(crate) fn is_name(buf: &[u8], span: HeaderSpan, name: &[u8]) -> bool
    requires { IsHeaderWithin (length buf.now) span }
    ensures { result ≡ is_named name.now (header_bytes buf.now span) }
{
    span.name.of(buf).eq_ignore_ascii_case(name)
}

// How many headers have this name.
fn count_of(buf: &[u8], spans: &[HeaderSpan], name: &[u8]) -> usize
    requires { All (IsHeaderWithin (length buf.now)) spans.now }
    ensures { result ≡ length (values_of name.now (map (header_bytes buf.now) spans.now)) }
{
    let mut count = 0;
    for span in spans {
        if is_name(buf, *span, name) {
            count += 1;
        }
    }
    count
}

// The value of the first header of this name, or nothing.
fn value_of<'b>(buf: &'b [u8], spans: &[HeaderSpan], name: &[u8]) -> &'b [u8]
    requires { All (IsHeaderWithin (length buf.now)) spans.now }
    ensures { result.now ≡ first_value (values_of name.now (map (header_bytes buf.now) spans.now)) }
{
    let mut count = 0usize;
    let mut value: &[u8] = b"";
    for span in spans {
        if is_name(buf, *span, name) {
            if count == 0 {
                value = span.value.of(buf);
            }
            count += 1;
        }
    }
    value
}

// Whether a request with these headers is let in.
pub(crate) fn is_let_in(audience: Audience, buf: &[u8], spans: &[HeaderSpan]) -> bool
    requires { All (IsHeaderWithin (length buf.now)) spans.now }
    ensures { result ≡ lets_in audience.entry (map (header_bytes buf.now) spans.now) }
{
    let Audience::Here(origins) = audience else {
        return true;
    };
    let host = value_of(buf, spans, b"host");
    let page = value_of(buf, spans, b"origin");
    match (
        count_of(buf, spans, b"host"),
        count_of(buf, spans, b"origin"),
    ) {
        (0, 0) => true,
        (1, 0) => is_known_host(origins, host),
        (1, 1) => is_known_page(origins, host, page),
        _ => false,
    }
}
