//! The files of the page. Each is given by a function: a check pays for what a function names at each of its steps, and these are large.
ghost use Rattle.std.specs.Prelude.{◌≡◌};
ghost use Rattle.page_server.specs.declared.page.TheConstants.{PAGE};
ghost use Rattle.page_server.specs.declared.script.TheConstants.{SCRIPT};
ghost use Rattle.page_server.specs.declared.style.TheConstants.{STYLE};

use crate::page::PAGE;
use crate::script::SCRIPT;
use crate::style::STYLE;

/// The page itself.
pub(crate) fn page_text() -> &'static str
    ensures { result.now ≡ PAGE.now }
{
    PAGE
}

/// How it looks.
pub(crate) fn style_text() -> &'static str
    ensures { result.now ≡ STYLE.now }
{
    STYLE
}

/// What it does.
pub(crate) fn script_text() -> &'static str
    ensures { result.now ≡ SCRIPT.now }
{
    SCRIPT
}
