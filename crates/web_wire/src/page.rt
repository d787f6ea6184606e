//! A site: the files of the page, the pages that may open the socket, and the proxies that name users.

/// A file that is served. Its texts are compiled into the program.
#[derive(Clone, Copy, Debug, PartialEq, Eq)]
pub struct Page {
    /// The path, with a leading slash.
    pub path: &'static str,
    /// The content type.
    pub kind: &'static str,
    /// The value of `cache-control`: `no-cache` or `no-store`. It says what a browser may do with a copy.
    pub cache: &'static str,
    /// The entity tag, which changes with the text, in quotation marks.
    pub tag: &'static str,
    pub text: &'static str,
}

/// The pages that are served, and the origins and proxies that are trusted.
#[derive(Clone, Copy)]
pub struct Site<'a> {
    pub pages: &'a [Page],
    /// The origins, beside the server's own, whose pages may open the socket. Each is a scheme and a host, as browsers
    /// name them: `https://pads.example`.
    pub origins: &'a [String],
    /// The header by which requests name their user. None: they name none.
    pub users: Option<UserHeader<'a>>,
}

/// The header by which a proxy that people log in to names the user of a request.
#[derive(Clone, Copy)]
pub struct UserHeader<'a> {
    /// The name of the field; the case of its letters does not matter.
    pub name: &'a str,
    /// The numbers of the addresses of the proxies, as `address_number` gives them. Requests from elsewhere may not have
    /// the field.
    pub proxies: &'a [u128],
}
