//! Orders that refer to what they name by index.
ghost use Rattle.std.specs.Prelude.{◌≡◌, ◌+◌, ◌≤◌, length};
ghost use Rattle.std.specs.Str.{IsUtf8};
ghost use Rattle.cqf_admission.specs.Orders.{word_at};

/// What an administrator calls for, by index.
#[derive(Clone, Copy, Debug, PartialEq, Eq)]
pub enum What {
    /// To admit the stream of the request at this index.
    Admit(usize),
    /// To withdraw the stream whose name is in the script's text, from this index on and with this number of octets.
    Withdraw { from: usize, octets: u8 },
    /// To close the next cycle to changes.
    Seal,
}

/// An administrator's order, by index.
#[derive(Clone, Copy, Debug, PartialEq, Eq)]
pub struct Ordered {
    /// The seat of the administrator.
    pub seat: u16,
    pub what: What,
}

/// Returns the word in a script's text, from an index on, with this number of octets. They are within the text and
/// UTF-8.
pub fn word_of(script: &[u8], from: usize, octets: u8) -> &str
    requires inside { from + octets ≤ length script.now }
    requires text { IsUtf8 (word_at script.now from octets) }
    ensures { result.now ≡ word_at script.now from octets }
{
    match std::str::from_utf8(&script[from..from + usize::from(octets)]) {
        Ok(word) => word,
        Err(_) => unreachable!(),
    }
}
