//! Tests of words for links.
use cqf_program_words::{Job, link_named, read_words};
use std::alloc::Global;

/// Words for a link, and the names of its ends, if they name one.
const LINKS: &[(&str, Option<(&str, &str)>)] = &[
    ("a>b", Some(("a", "b"))),
    ("edge-1>sink_2", Some(("edge-1", "sink_2"))),
    // a name has up to 32 characters, and `>` is none of them
    (
        "a>abcdefghijklmnopqrstuvwxyz012345",
        Some(("a", "abcdefghijklmnopqrstuvwxyz012345")),
    ),
    ("a>abcdefghijklmnopqrstuvwxyz0123456", None),
    ("", None),
    (">", None),
    ("a", None),
    ("a>", None),
    (">b", None),
    ("a>b>c", None),
    ("a>>b", None),
    ("a> b", None),
    ("A>b", None),
    ("a-b", None),
];

/// Whether the word names the link between these ends.
fn names_link(word: &str, wanted: Option<(&str, &str)>) -> bool {
    match (link_named(word), wanted) {
        (Some(link), Some((from, to))) => link.from.as_str() == from && link.to.as_str() == to,
        (None, None) => true,
        _ => false,
    }
}

#[test]
fn words_name_links(rt: HostRuntime) {
    for (word, wanted) in LINKS {
        assert!(rt; names_link(word, *wanted));
    }
}

/// Whether the words mean a plan without the links between these ends, in this order.
fn leaves_out(alloc: Global, words: &[&str], ends: &[(&str, &str)]) -> bool {
    let Ok(Job::Plan { options }) = read_words(alloc, words) else {
        return false;
    };
    let links = options.without.as_slice();
    if links.len() != ends.len() {
        return false;
    }
    for place in 0..ends.len() {
        let (from, to) = ends[place];
        if links[place].from.as_str() != from || links[place].to.as_str() != to {
            return false;
        }
    }
    true
}

#[test]
fn a_plan_leaves_out_links(rt: HostRuntime) {
    let alloc = rt.alloc();
    assert!(rt; leaves_out(alloc, &["plan"], &[]));
    assert!(rt; leaves_out(alloc, &["plan", "--without", "a>b"], &[("a", "b")]));
    assert!(rt;
        leaves_out(
            alloc,
            &[
                "plan",
                "--without=b>a",
                "--table",
                "--without",
                "a>b",
                "--without",
                "b>a"
            ],
            &[("b", "a"), ("a", "b"), ("b", "a")]
        )
    );
}
