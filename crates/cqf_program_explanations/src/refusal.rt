//! The line of a refusal, split.

/// What a line says: which part is refused, for which fault, and what follows the fault.
#[derive(Clone, Copy, Debug)]
pub(crate) struct Refusal<'a> {
    pub part: &'a str,
    pub fault: &'a str,
    pub value: &'a str,
}

/// Returns the refusal of a line such as `cqf: domain: BadValue rate`, with its line feed.
pub(crate) fn refusal_of(line: &[u8]) -> Option<Refusal<'_>> {
    let text = std::str::from_utf8(line).ok()?;
    let reported = text.strip_prefix("cqf: ")?.strip_suffix("\n")?;
    let (part, fault) = reported.split_once(": ").unwrap_or((reported, ""));
    let (fault, value) = fault.split_once(' ').unwrap_or((fault, ""));
    Some(Refusal { part, fault, value })
}
