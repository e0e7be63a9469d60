//! The page that a server shows: its three files, as fixed bytes in the program.
#![tactic(auto)]

mod texts;

ghost use Rattle.std.specs.Prelude.{◌≡◌};
ghost use Rattle.pw_page.specs.Files.{text_of};

pub use texts::{PAGE, SCRIPT, STYLE};

/// A file of the page.
#[derive(Clone, Copy, Debug, PartialEq, Eq)]
pub enum File {
    /// The page itself, as HTML.
    Page,
    /// What it does, as JavaScript.
    Script,
    /// How it looks, as CSS.
    Style,
}

impl File {
    /// The text of a file.
    pub fn text(self) -> &'static str
        ensures { result.now ≡ text_of self }
    {
        match self {
            File::Page => PAGE,
            File::Script => SCRIPT,
            File::Style => STYLE,
        }
    }
}
