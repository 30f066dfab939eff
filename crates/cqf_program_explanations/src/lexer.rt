//! The state of a byte in a TOML text: in a text, in a comment, or among brackets.

/// What a byte is in. A text's quote is part of it.
#[derive(Clone, Copy, Debug, PartialEq, Eq)]
enum Inside {
    /// In no text and no comment.
    Free,
    Comment,
    /// After a first quote.
    Opened(u8),
    /// After a second quote: the text is empty, or has several lines.
    OpenedTwice(u8),
    /// A text on one line.
    Text(u8),
    /// After the backslash of such a text.
    Escape,
    /// A text of several lines, after this many of its quotes.
    Long(u8, u8),
    /// After the backslash of such a text.
    LongEscape,
}

/// The state of the next byte.
#[derive(Clone, Copy, Debug)]
pub(crate) struct Lexer {
    inside: Inside,
    depth: u32,
}

/// Returns what follows a byte that is in no text.
fn after_free(byte: u8) -> Inside {
    match byte {
        b'#' => Inside::Comment,
        b'"' | b'\'' => Inside::Opened(byte),
        _ => Inside::Free,
    }
}

/// Returns what follows a byte of a text on one line.
fn after_text(quote: u8, byte: u8) -> Inside {
    if byte == quote {
        Inside::Free
    } else if byte == b'\\' && quote == b'"' {
        Inside::Escape
    } else {
        Inside::Text(quote)
    }
}

/// Returns what follows a byte of a text of several lines, after `quotes` of its quotes.
fn after_long(quote: u8, quotes: u8, byte: u8) -> Inside {
    if byte == quote {
        if quotes < 2 {
            Inside::Long(quote, quotes + 1)
        } else {
            Inside::Free
        }
    } else if byte == b'\\' && quote == b'"' {
        Inside::LongEscape
    } else {
        Inside::Long(quote, 0)
    }
}

impl Inside {
    /// Returns what follows a byte.
    fn after(self, byte: u8) -> Inside {
        match self {
            Inside::Free => after_free(byte),
            Inside::Comment => Inside::Comment,
            Inside::Opened(quote) if byte == quote => Inside::OpenedTwice(quote),
            Inside::OpenedTwice(quote) if byte == quote => Inside::Long(quote, 0),
            Inside::OpenedTwice(_) => after_free(byte),
            Inside::Opened(quote) | Inside::Text(quote) => after_text(quote, byte),
            Inside::Escape => Inside::Text(b'"'),
            Inside::Long(quote, quotes) => after_long(quote, quotes, byte),
            Inside::LongEscape => Inside::Long(b'"', 0),
        }
    }

    /// Returns what follows the end of a line.
    fn after_line(self) -> Inside {
        match self {
            Inside::Long(quote, _) => Inside::Long(quote, 0),
            Inside::LongEscape => Inside::Long(b'"', 0),
            _ => Inside::Free,
        }
    }
}

impl Lexer {
    /// Returns the state at the beginning of a text.
    pub(crate) fn new() -> Lexer {
        Lexer {
            inside: Inside::Free,
            depth: 0,
        }
    }

    /// Returns the state after a byte.
    pub(crate) fn after(self, byte: u8) -> Lexer {
        let inside = self.inside.after(byte);
        let depth = match byte {
            b'[' | b'{' if inside == Inside::Free => self.depth.saturating_add(1),
            b']' | b'}' if inside == Inside::Free => self.depth.saturating_sub(1),
            _ => self.depth,
        };
        Lexer { inside, depth }
    }

    /// Returns the state after the end of a line.
    pub(crate) fn after_line(self) -> Lexer {
        Lexer {
            inside: self.inside.after_line(),
            depth: self.depth,
        }
    }

    /// Returns whether no value continues: a head, a key or a comment may begin here.
    pub(crate) fn is_at_rest(self) -> bool {
        self.inside == Inside::Free && self.depth == 0
    }

    /// Returns how many brackets are open.
    pub(crate) fn depth(self) -> u32 {
        self.depth
    }

    /// Returns whether a text begins with the byte before.
    pub(crate) fn opens(self) -> bool {
        matches!(self.inside, Inside::Opened(_))
    }

    /// Returns whether the byte before is one of a comment.
    pub(crate) fn is_comment(self) -> bool {
        self.inside == Inside::Comment
    }

    /// Returns whether the byte before belongs to no text and no comment.
    pub(crate) fn is_free(self) -> bool {
        self.inside == Inside::Free
    }
}

/// Returns the part of a line before its comment.
pub(crate) fn before_comment(line: &[u8]) -> &[u8] {
    let mut lexer = Lexer::new();
    for (place, byte) in line.iter().enumerate() {
        lexer = lexer.after(*byte);
        if lexer.is_comment() {
            return line.get(..place).unwrap_or(line);
        }
    }
    line
}
