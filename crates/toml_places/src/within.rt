//! Where a reader of TOML is: in a text, in a comment, or outside of both, where signs have a meaning.

/// Where a reader is.
#[derive(Clone, Copy)]
pub enum Within {
    /// Outside of texts and comments.
    Plain,
    /// In a comment.
    Comment,
    /// Behind a quote, or a second one, that opens a text.
    Opening {
        quote: u8,
        is_second: bool,
    },
    /// In a text on one line.
    Short {
        quote: u8,
        is_escaped: bool,
    },
    /// In a text of several lines, behind so many quotes.
    Long {
        quote: u8,
        is_escaped: bool,
        quotes: u8,
    },
    /// Behind the third quote that closes one: up to two further ones belong to it.
    Closed {
        quote: u8,
    },
}

/// What a byte belongs to.
#[derive(Clone, Copy)]
pub enum Seen {
    /// A sign, or what is written without quotes.
    Sign,
    /// A text, with its quotes.
    Text,
    Comment,
}

// Whether a byte takes the meaning from the one behind it.
fn is_escape(quote: u8, byte: u8) -> bool {
    quote == b'"' && byte == b'\\'
}

fn behind_plain(byte: u8) -> (Within, Seen) {
    match byte {
        b'"' | b'\'' => (
            Within::Opening {
                quote: byte,
                is_second: false,
            },
            Seen::Text,
        ),
        b'#' => (Within::Comment, Seen::Comment),
        _ => (Within::Plain, Seen::Sign),
    }
}

fn behind_short(quote: u8, is_escaped: bool, byte: u8) -> (Within, Seen) {
    // No such text goes over a line's end.
    if byte == b'\n' {
        return behind_plain(byte);
    }
    if byte == quote && !is_escaped {
        return (Within::Plain, Seen::Text);
    }
    let is_escaped = !is_escaped && is_escape(quote, byte);
    (Within::Short { quote, is_escaped }, Seen::Text)
}

fn behind_opening(quote: u8, is_second: bool, byte: u8) -> (Within, Seen) {
    if byte != quote {
        // Two quotes are an empty text.
        return if is_second {
            behind_plain(byte)
        } else {
            behind_short(quote, false, byte)
        };
    }
    let within = if is_second {
        Within::Long {
            quote,
            is_escaped: false,
            quotes: 0,
        }
    } else {
        Within::Opening {
            quote,
            is_second: true,
        }
    };
    (within, Seen::Text)
}

fn behind_long(quote: u8, is_escaped: bool, quotes: u8, byte: u8) -> Within {
    if byte != quote || is_escaped {
        return Within::Long {
            quote,
            is_escaped: !is_escaped && is_escape(quote, byte),
            quotes: 0,
        };
    }
    if quotes >= 2 {
        return Within::Closed { quote };
    }
    Within::Long {
        quote,
        is_escaped: false,
        quotes: quotes.saturating_add(1),
    }
}

impl Within {
    /// Where a reader is behind a byte, and what that belongs to.
    pub(crate) fn behind(self, byte: u8) -> (Within, Seen) {
        match self {
            Within::Plain => behind_plain(byte),
            Within::Comment if byte == b'\n' => behind_plain(byte),
            Within::Comment => (self, Seen::Comment),
            Within::Opening { quote, is_second } => behind_opening(quote, is_second, byte),
            Within::Short { quote, is_escaped } => behind_short(quote, is_escaped, byte),
            Within::Long {
                quote,
                is_escaped,
                quotes,
            } => (behind_long(quote, is_escaped, quotes, byte), Seen::Text),
            Within::Closed { quote } if byte == quote => (self, Seen::Text),
            Within::Closed { .. } => behind_plain(byte),
        }
    }
}
