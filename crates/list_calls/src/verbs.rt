//! The words of calls.

/// What a call of a list, or of a share of one behind its lock, is.
#[derive(Clone, Copy)]
pub enum Verb {
    Enter,
    Take,
    Settle,
    /// Patterns with what they hit of all classes.
    PublishOverAll,
    /// Patterns with what they hit of the classes that are left.
    Publish,
    Work,
    Enough,
    Unknown,
}

pub fn verb_of(word: &str) -> Verb {
    match word {
        "enter" => Verb::Enter,
        "take" => Verb::Take,
        "settle" => Verb::Settle,
        "publish-over-all" => Verb::PublishOverAll,
        "publish" => Verb::Publish,
        "work" => Verb::Work,
        "enough" => Verb::Enough,
        _ => Verb::Unknown,
    }
}
