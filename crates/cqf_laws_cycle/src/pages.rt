//! A book and its pages.
ghost use Rattle.cqf_laws_cycle.specs.PageLaws.{BookIsItsPages, PageSaysTheBackground, PageSaysWhatIsDropped, PageSaysWhatItsLinksSend, SamePagesAreOneBook};

/// Proves that a bridge's page of a cycle lists the streams' frames and background frames that the links leaving the bridge send in
/// the cycle, and what is dropped at the bridge in the cycle.
pub fn page_is_of_its_bridge()
    ensures starts { PageSaysWhatItsLinksSend }
    ensures background { PageSaysTheBackground }
    ensures drops { PageSaysWhatIsDropped }
{}

/// Proves that a book is its pages: put together cycle by cycle, the starts of either kind link by link and the drops bridge by
/// bridge, they give the book. So books of a domain with the same pages are equal.
pub fn book_is_its_pages()
    ensures pages { BookIsItsPages }
    ensures one { SamePagesAreOneBook }
{}
